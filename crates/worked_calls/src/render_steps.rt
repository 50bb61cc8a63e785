// What is done to a tree of render nodes, and what is read of it then, as rows of tables have it. Nodes are told by the order in
// which they were made, from 0 on; the number of each is one more.
ghost use Rattle.std.specs.Prelude.{◌≡◌, ◌++◌, ◌∷◌, [], None, IsTrue, OnOk};
ghost use Rattle.node_tree.specs.Plan.{PlanEntry};
ghost use Rattle.node_tree.specs.Tree.{children_at};
ghost use Rattle.render_tree.specs.Redraw.{Redraw as RedrawOf};

use crate::compare::{expect, expect_at};
use crate::elements::shared;
use crate::trees::last_of;
use fx_expr::Txt;
use fx_geom::{Axis, Bounds, Len, Offset, Scale, Size};
use fx_handles::Handle;
use node_tree::{PlanEntry, Tree};
use plain_tree::ParentData;
use render_tree::{Redraw, RenderObject, RenderTree};
use sliver_layout::{Geometry, SliverBounds, Window};
use std::alloc::{AllocError, Global};
use std::process::Abort;
use std::rc::Rc;
use std::test::Fail;
use widget_model::{Kind, Widget};

// The widget of a node: of each kind one, but two delegates, and an Offstage that is offstage or isn't.
#[derive(Clone, Copy)]
pub(crate) enum Look {
    Clip,
    Boundary,
    Intrinsic,
    Shown,
    Hidden,
    Bars,
    Grid,
    Viewport,
    ToBox,
    Lazy,
}

// What is done to the tree where memory may be short.
#[derive(Clone, Copy)]
pub(crate) enum Edit {
    // Makes a node, the first child of another one or the root.
    Insert(Look, Option<usize>),
    // Makes one that waits.
    Loose(Look),
    // Makes one below the last one that was made, laid out in bounds that may leave it one size alone.
    Hang(Look, bool),
    // Gives a node another widget.
    Update(usize, Look),
    // Makes a node the first child of another one.
    Move(usize, usize),
    // Lets a node wait, and makes the last one that waits the root.
    Detach(usize),
    Attach,
    // A node with this widget is all that is left; and how many nodes that changes for layout and for painting.
    Leave(usize, Look, (usize, usize)),
    // It is a part, and the others wait.
    LeavePart(usize, Look),
    // There is no memory for another node with this widget, nor to give it to a node.
    Refuse(usize, Look),
}

// And where it can't be.
#[derive(Clone, Copy)]
pub(crate) enum Change {
    // How many nodes go.
    Remove(usize, u32),
    DropInactive(u32),
    // Two nodes are marked on one way through the tree.
    LayOutBoth(usize, usize),
    PaintBoth(usize, usize),
    // Takes the flags of all nodes away.
    CalmAll,
    ClearLive,
    // No memory is taken from here on.
    Spend,
}

// What is set at a node.
#[derive(Clone, Copy)]
pub(crate) enum Part {
    Calm,
    MarkLayout,
    MarkPaint,
    LeafLaidOut,
    LeafPainted,
    Laid,
    Sliver,
    Notes(u64, bool),
    HasDelegate(bool),
    Scrolled(u64),
    Scroll(u64),
    // And whether there is something to scroll.
    ScrollBy(i64, bool),
    Live(Window),
    At(Offset),
    Shown(bool),
    Shares,
}

// What is read of a node's place and marks: other nodes as the digits of a number, each its number.
#[derive(Clone, Copy)]
pub(crate) enum Told {
    Number(Option<u64>),
    HasWidget(bool),
    Parent(u64),
    Children(u64),
    // For layout and for painting.
    Flags(bool, bool),
    Below(bool, bool),
    Flex(u64),
    // It has the slot that another node had.
    Slot(usize),
}

// And of what a layout stored at it.
#[derive(Clone, Copy)]
pub(crate) enum Stored {
    HasFrame(bool),
    Size(Option<Size>),
    Sliver(Option<SliverBounds>),
    Geometry(Option<Geometry>),
    Notes(u64, bool),
    HasDelegate(bool),
    Scrolled(u64),
    Scroll(Option<u64>),
    Live(Option<Window>),
    At(Option<Offset>),
    Shown(bool),
}

// And of the tree.
#[derive(Clone, Copy)]
pub(crate) enum Whole {
    Count(usize),
    Root(u64),
    Inactive(u64),
    // The users of a delegate, and how many there are.
    Users(&'static str, u64),
    UserCount(&'static str, usize),
}

#[derive(Clone, Copy)]
pub(crate) enum Step {
    Do(Edit),
    Change(Change),
    Put(usize, Part),
    Is(usize, Told),
    Has(usize, Stored),
    All(Whole),
}

pub(crate) const SIZE: Size = Size { w: 30, h: 20 };

pub(crate) const VIEW: SliverBounds = SliverBounds {
    axis: Axis::Vertical,
    offset: 0,
    remaining: 9,
    cross: 5,
};

pub(crate) const SEEN: Geometry = Geometry {
    scroll: 9,
    paint: 9,
};

const NO_DATA: ParentData = ParentData {
    flex: 0,
    tight: false,
    placed: None,
    index: 0,
};

const TWO_SHARES: ParentData = ParentData {
    flex: 2,
    tight: false,
    placed: None,
    index: 0,
};

// No arena gives this one.
const NOBODY: Handle = Handle {
    index: usize::MAX,
    generation: u32::MAX,
};

// ---- nodes and their widgets

fn at(made: &[Handle], node: usize) -> Handle {
    made.get(node).copied().unwrap_or(NOBODY)
}

fn parent_at(made: &[Handle], node: Option<usize>) -> Option<Handle> {
    match node {
        Some(n) => Some(at(made, n)),
        None => None,
    }
}

fn painted(alloc: Global, name: &str) -> Result<Kind, AllocError> {
    let delegate = Txt::of(String::from_str(alloc, name)?);
    Ok(Kind::CustomPaint { delegate })
}

fn kind(alloc: Global, look: Look) -> Result<Kind, AllocError> {
    let axis = Axis::Vertical;
    match look {
        Look::Clip => Ok(Kind::ClipRect),
        Look::Boundary => Ok(Kind::RepaintBoundary),
        Look::Intrinsic => Ok(Kind::IntrinsicWidth),
        Look::Shown => Ok(Kind::Offstage { offstage: false }),
        Look::Hidden => Ok(Kind::Offstage { offstage: true }),
        Look::Bars => painted(alloc, "bars"),
        Look::Grid => painted(alloc, "grid"),
        Look::Viewport => Ok(Kind::Viewport { axis }),
        Look::ToBox => Ok(Kind::SliverToBox),
        Look::Lazy => Ok(Kind::SliverLazy { extent: 10 }),
    }
}

fn widget(alloc: Global, look: Look) -> Result<Rc<Widget>, AllocError> {
    shared(alloc, kind(alloc, look)?)
}

// ---- edits

fn insert(
    rt: &impl Abort,
    alloc: Global,
    tree: &mut RenderTree,
    made: &mut Vec<Handle>,
    look: Look,
    parent: Option<Handle>,
) -> Result<Handle, Fail> {
    match parent {
        None => assert!(rt; tree.root().is_none()),
        Some(p) => assert!(rt; tree.tree().contains(p)),
    }
    let number = (made.len() as u64).wrapping_add(1);
    let h = tree.insert(parent, 0, &widget(alloc, look)?, number)?;
    made.push(h)?;
    Ok(h)
}

fn insert_below(
    rt: &impl Abort,
    alloc: Global,
    tree: &mut RenderTree,
    made: &mut Vec<Handle>,
    look: Look,
    parent: Option<usize>,
) -> Result<(), Fail> {
    let p = parent_at(made.as_slice(), parent);
    insert(rt, alloc, tree, made, look, p)?;
    Ok(())
}

fn insert_loose(
    alloc: Global,
    tree: &mut RenderTree,
    made: &mut Vec<Handle>,
    look: Look,
) -> Result<(), Fail> {
    let number = (made.len() as u64).wrapping_add(1);
    let h = tree.insert_loose(&widget(alloc, look)?, number)?;
    made.push(h)?;
    Ok(())
}

// What a layout stores, which may have left a node one size alone.
fn lay(tree: &mut RenderTree, h: Handle, tight: bool) {
    let bounds = if tight {
        Bounds::tight(SIZE)
    } else {
        Bounds::loose(Len::Finite(SIZE.w), Len::Finite(SIZE.h))
    };
    tree.set_laid(h, bounds, SIZE);
}

fn hang(
    rt: &impl Abort,
    alloc: Global,
    tree: &mut RenderTree,
    made: &mut Vec<Handle>,
    look: Look,
    tight: bool,
) -> Result<(), Fail> {
    let last = made.last().copied();
    let h = insert(rt, alloc, tree, made, look, last)?;
    lay(tree, h, tight);
    Ok(())
}

fn update(alloc: Global, tree: &mut RenderTree, h: Handle, look: Look) -> Result<(), Fail> {
    tree.update(h, &widget(alloc, look)?)?;
    Ok(())
}

fn move_first(rt: &impl Abort, tree: &mut RenderTree, h: Handle, p: Handle) -> Result<(), Fail> {
    assert!(rt; tree.tree().contains(h));
    assert!(rt; tree.tree().contains(p));
    assert!(rt; tree.parent(h).is_some());
    assert!(rt; !tree.tree().is_within(p, h));
    tree.move_to(h, p, 0)?;
    Ok(())
}

fn detach(rt: &impl Abort, tree: &mut RenderTree, h: Handle) -> Result<(), Fail> {
    assert!(rt; tree.tree().contains(h));
    assert!(rt; tree.tree().inactive().is_empty());
    tree.detach(h)?;
    Ok(())
}

fn attach(rt: &impl Abort, tree: &mut RenderTree) -> Result<(), Fail> {
    assert!(rt; tree.root().is_none());
    match last_of(tree.tree().inactive()) {
        Some(top) => {
            tree.attach(top, None, 0)?;
            Ok(())
        }
        None => Err("no top waits".into()),
    }
}

// A tree that is spent refuses what takes memory.
fn refuse(
    rt: &impl Abort,
    alloc: Global,
    tree: &mut RenderTree,
    h: Handle,
    look: Look,
) -> Result<(), Fail> {
    let w = widget(alloc, look)?;
    expect(rt, tree.insert_loose(&w, 9).is_err(), true);
    expect(rt, tree.update(h, &w).is_err(), true);
    Ok(())
}

// ---- plans

// Adds an entry for a node at the top, without children.
fn push_alone(
    alloc: Global,
    plan: &mut Vec<PlanEntry<Redraw>>,
    h: Handle,
    look: Look,
) -> Result<(), AllocError>
    ensures { OnOk result ((e : PlanEntry RedrawOf) × (e.at ≡ h) × (e.parent ≡ None) × (e.children ≡ [])
        × (plan.new.items ≡ plan.old.items ++ e ∷ [])) }
{
    let redraw = Redraw {
        widget: widget(alloc, look)?,
        parent_data: NO_DATA,
    };
    plan.push(PlanEntry::new(h, None, Vec::new(alloc), redraw))?;
    Ok(())
}

// How many nodes a plan that makes one node the root changes for layout, and for painting.
fn changed_by(
    tree: &RenderTree,
    h: Handle,
    plan: &[PlanEntry<Redraw>],
) -> Result<(usize, usize), AllocError> {
    let laid = tree.laid_anew(Some(h), plan)?.len();
    let painted = tree.painted_anew(Some(h), plan)?.len();
    Ok((laid, painted))
}

fn commit_alone(
    rt: &impl Abort,
    alloc: Global,
    tree: &mut RenderTree,
    h: Handle,
    look: Look,
    changed: (usize, usize),
) -> Result<(), Fail> {
    if !tree.tree().contains(h) {
        return Err("no such node".into());
    }
    let mut plan = Vec::new(alloc);
    push_alone(alloc, &mut plan, h, look)?;
    expect(rt, changed_by(tree, h, plan.as_slice())?, changed);
    tree.commit(Some(h), &mut plan)?;
    Ok(())
}

fn commit_part_alone(
    alloc: Global,
    tree: &mut RenderTree,
    h: Handle,
    look: Look,
) -> Result<(), Fail> {
    if !tree.tree().contains(h) {
        return Err("no such node".into());
    }
    let mut plan = Vec::new(alloc);
    push_alone(alloc, &mut plan, h, look)?;
    let mut waiting = Vec::new(alloc);
    tree.commit_part(Some(h), &mut waiting, &mut plan)?;
    Ok(())
}

// ---- marks

fn calm(tree: &mut RenderTree, h: Handle) {
    tree.clear_layout(h);
    tree.clear_paint(h);
}

fn calm_all(tree: &mut RenderTree, made: &[Handle]) {
    for h in made {
        calm(tree, *h);
    }
}

fn lay_out_both(rt: &impl Abort, tree: &mut RenderTree, a: Handle, b: Handle) {
    assert!(rt; tree.tree().contains(a));
    assert!(rt; tree.tree().contains(b));
    let hs = [a, b];
    tree.mark_layouts(&hs);
}

fn paint_both(rt: &impl Abort, tree: &mut RenderTree, a: Handle, b: Handle) {
    assert!(rt; tree.tree().contains(a));
    assert!(rt; tree.tree().contains(b));
    let hs = [a, b];
    tree.mark_paints(&hs);
}

// Whether nothing is below a node.
fn is_leaf(tree: &RenderTree, h: Handle) -> bool
    ensures { IsTrue result → children_at tree.now.tree h ≡ [] }
{
    tree.children(h).is_empty()
}

fn clear_layout_leaf(tree: &mut RenderTree, h: Handle) {
    Tree::<RenderObject>::walk_laws();
    Tree::<RenderObject>::child_laws();
    // Tells the proof that this is a tree.
    let _ = tree.root();
    if !tree.tree().contains(h) {
        return;
    }
    if !is_leaf(tree, h) {
        return;
    }
    tree.clear_layout_below(h);
}

fn clear_paint_leaf(tree: &mut RenderTree, h: Handle) {
    Tree::<RenderObject>::walk_laws();
    Tree::<RenderObject>::child_laws();
    // Tells the proof that this is a tree.
    let _ = tree.root();
    if !tree.tree().contains(h) {
        return;
    }
    if !is_leaf(tree, h) {
        return;
    }
    tree.clear_paint_below(h);
}

// ---- readings

// The numbers of nodes, as the digits of a number.
fn digits(tree: &RenderTree, nodes: &[Handle]) -> u64 {
    let mut digits: u64 = 0;
    for h in nodes {
        digits = digits
            .wrapping_mul(10)
            .wrapping_add(tree.number(*h).unwrap_or(0));
    }
    digits
}

// The number of a node, 0 for none.
fn digit(tree: &RenderTree, h: Option<Handle>) -> u64 {
    match h {
        Some(h) => tree.number(h).unwrap_or(0),
        None => 0,
    }
}

// The share of a node, 0 where there is none.
fn flex(tree: &RenderTree, h: Handle) -> u64 {
    match tree.parent_data(h) {
        Some(data) => data.flex,
        None => 0,
    }
}

fn tight(size: Option<Size>) -> Option<Bounds> {
    match size {
        Some(size) => Some(Bounds::tight(size)),
        None => None,
    }
}

// ---- steps

fn make_edit(
    rt: &impl Abort,
    alloc: Global,
    tree: &mut RenderTree,
    made: &mut Vec<Handle>,
    edit: Edit,
) -> Result<(), Fail> {
    match edit {
        Edit::Insert(look, parent) => insert_below(rt, alloc, tree, made, look, parent),
        Edit::Loose(look) => insert_loose(alloc, tree, made, look),
        Edit::Hang(look, tight) => hang(rt, alloc, tree, made, look, tight),
        Edit::Update(n, look) => update(alloc, tree, at(made.as_slice(), n), look),
        Edit::Move(n, p) => move_first(rt, tree, at(made.as_slice(), n), at(made.as_slice(), p)),
        Edit::Detach(n) => detach(rt, tree, at(made.as_slice(), n)),
        Edit::Attach => attach(rt, tree),
        Edit::Leave(n, look, changed) => {
            commit_alone(rt, alloc, tree, at(made.as_slice(), n), look, changed)
        }
        Edit::LeavePart(n, look) => commit_part_alone(alloc, tree, at(made.as_slice(), n), look),
        Edit::Refuse(n, look) => refuse(rt, alloc, tree, at(made.as_slice(), n), look),
    }
}

fn make_change(
    rt: &impl Abort,
    tree: &mut RenderTree,
    made: &[Handle],
    change: Change,
    row: usize,
) {
    match change {
        Change::Remove(n, gone) => expect_at(rt, tree.remove(at(made, n)), gone, &row),
        Change::DropInactive(gone) => expect_at(rt, tree.drop_inactive(), gone, &row),
        Change::LayOutBoth(a, b) => lay_out_both(rt, tree, at(made, a), at(made, b)),
        Change::PaintBoth(a, b) => paint_both(rt, tree, at(made, a), at(made, b)),
        Change::CalmAll => calm_all(tree, made),
        Change::ClearLive => tree.clear_live(),
        Change::Spend => tree.spend(),
    }
}

fn put(rt: &impl Abort, tree: &mut RenderTree, h: Handle, part: Part, row: usize) {
    match part {
        Part::Calm => calm(tree, h),
        Part::MarkLayout => tree.mark_layout(h),
        Part::MarkPaint => tree.mark_paint(h),
        Part::LeafLaidOut => clear_layout_leaf(tree, h),
        Part::LeafPainted => clear_paint_leaf(tree, h),
        Part::Laid => lay(tree, h, true),
        Part::Sliver => tree.set_sliver(h, VIEW, SEEN),
        Part::Notes(overflow, unbounded) => tree.set_notes(h, overflow, unbounded),
        Part::HasDelegate(on) => tree.set_has_delegate(h, on),
        Part::Scrolled(by) => tree.set_scrolled(h, by),
        Part::Scroll(by) => tree.set_scroll(h, by),
        Part::ScrollBy(by, is_done) => expect_at(rt, tree.scroll_by(h, by), is_done, &row),
        Part::Live(range) => tree.set_live(h, range),
        Part::At(offset) => tree.set_offset(h, offset),
        Part::Shown(on) => tree.set_shown(h, on),
        Part::Shares => tree.set_parent_data(h, TWO_SHARES),
    }
}

fn check(rt: &impl Abort, tree: &RenderTree, made: &[Handle], h: Handle, told: Told, row: usize) {
    match told {
        Told::Number(want) => expect_at(rt, tree.number(h), want, &row),
        Told::HasWidget(want) => expect_at(rt, tree.widget(h).is_some(), want, &row),
        Told::Parent(want) => expect_at(rt, digit(tree, tree.parent(h)), want, &row),
        Told::Children(want) => expect_at(rt, digits(tree, tree.children(h)), want, &row),
        Told::Flags(layout, paint) => {
            expect_at(rt, tree.needs_layout(h), layout, &row);
            expect_at(rt, tree.needs_paint(h), paint, &row);
        }
        Told::Below(layout, paint) => {
            expect_at(rt, tree.layout_below(h), layout, &row);
            expect_at(rt, tree.paint_below(h), paint, &row);
        }
        Told::Flex(want) => expect_at(rt, flex(tree, h), want, &row),
        Told::Slot(n) => expect_at(rt, at(made, n).index, h.index, &row),
    }
}

fn check_stored(rt: &impl Abort, tree: &RenderTree, h: Handle, stored: Stored, row: usize) {
    match stored {
        Stored::HasFrame(want) => expect_at(rt, tree.frame(h).is_some(), want, &row),
        Stored::Size(want) => {
            expect_at(rt, tree.size(h), want, &row);
            expect_at(rt, tree.bounds(h), tight(want), &row);
        }
        Stored::Sliver(want) => expect_at(rt, tree.sliver(h), want, &row),
        Stored::Geometry(want) => expect_at(rt, tree.geometry(h), want, &row),
        Stored::Notes(overflow, unbounded) => {
            expect_at(rt, tree.overflow(h), overflow, &row);
            expect_at(rt, tree.unbounded(h), unbounded, &row);
        }
        Stored::HasDelegate(want) => expect_at(rt, tree.has_delegate(h), want, &row),
        Stored::Scrolled(want) => expect_at(rt, tree.scrolled(h), want, &row),
        Stored::Scroll(want) => expect_at(rt, tree.scroll(h), want, &row),
        Stored::Live(want) => expect_at(rt, tree.live(h), want, &row),
        Stored::At(want) => expect_at(rt, tree.offset(h), want, &row),
        Stored::Shown(want) => expect_at(rt, tree.shown(h), want, &row),
    }
}

fn check_whole(rt: &impl Abort, tree: &RenderTree, whole: Whole, row: usize) {
    match whole {
        Whole::Count(want) => expect_at(rt, tree.tree().len(), want, &row),
        Whole::Root(want) => expect_at(rt, digit(tree, tree.root()), want, &row),
        Whole::Inactive(want) => expect_at(rt, digits(tree, tree.tree().inactive()), want, &row),
        Whole::Users(name, want) => expect_at(rt, digits(tree, tree.users(name)), want, &row),
        Whole::UserCount(name, want) => expect_at(rt, tree.users(name).len(), want, &row),
    }
}

fn take(
    rt: &impl Abort,
    alloc: Global,
    tree: &mut RenderTree,
    made: &mut Vec<Handle>,
    step: Step,
    row: usize,
) -> Result<(), Fail> {
    match step {
        Step::Do(e) => return make_edit(rt, alloc, tree, made, e),
        Step::Change(c) => make_change(rt, tree, made.as_slice(), c, row),
        Step::Put(n, part) => put(rt, tree, at(made.as_slice(), n), part, row),
        Step::Is(n, told) => check(rt, tree, made.as_slice(), at(made.as_slice(), n), told, row),
        Step::Has(n, stored) => check_stored(rt, tree, at(made.as_slice(), n), stored, row),
        Step::All(whole) => check_whole(rt, tree, whole, row),
    }
    Ok(())
}

fn take_all(
    rt: &impl Abort,
    alloc: Global,
    tree: &mut RenderTree,
    made: &mut Vec<Handle>,
    steps: &[Step],
) -> Result<(), Fail> {
    for (row, step) in steps.iter().enumerate() {
        take(rt, alloc, tree, made, *step, row)?;
    }
    Ok(())
}

// Takes the steps of a table, from a tree without nodes on.
pub(crate) fn run(rt: &impl Abort, alloc: Global, steps: &[Step]) -> Result<(), Fail> {
    let mut tree = RenderTree::new(alloc, Scale::standard());
    expect(rt, tree.scale(), Scale::standard());
    take_all(rt, alloc, &mut tree, &mut Vec::new(alloc), steps)
}
