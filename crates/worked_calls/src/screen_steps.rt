// Screens that show one build after another, as rows of tables have them: what each frame shows, and what its layout stored, is what
// full layout and full painting of its build have, and no more is laid out and painted than was worked out by hand.
ghost use Rattle.std.specs.Prelude.{◌≡◌, ◌≤◌, ◌<◌, ◌+◌, true, false, OnOk, IfOk};
ghost use Rattle.delegates.specs.Table.{meant_in};
ghost use Rattle.fx_handles.specs.Arena.{used_count, retired_count};
ghost use Rattle.layout_form.specs.Fits.{CanBeLaidOut};
ghost use Rattle.worked_calls.specs.Histories.{nodes_in, scrolled_in, IsReady};

use crate::builds::{Scene, build};
use crate::compare::{expect, expect_at};
use crate::plugged::{Counted, counted_bars, none_counted};
use crate::scenes::{Around, Shape, scene};
use delegates::{Delegate, DelegateTable, SetEnd};
use fx_geom::{Bounds, Scale, Size};
use fx_handles::{Handle, SLOTS_MAX};
use fx_outside::Steps;
use layer_tree::{Layer, print};
use plain_layout::lay_view;
use plain_paint::paint;
use plain_tree::{Frame, LaidNode, RenderNode};
use render_tree::RenderTree;
use screen_owner::ScreenOwner;
use sliver_layout::{Geometry, SliverBounds};
use std::alloc::{AllocError, Global};
use std::marker::Brand;
use std::process::Abort;
use std::sync::ledger::{Blank, Ledger};
use std::test::Fail;

// How often rules of nodes with delegates are run, and how often these paint: for the delegate `a` the number's ones, for `b` its tens,
// for `c` its hundreds.
pub(crate) type Counts = (u64, u64);

#[derive(Clone, Copy)]
pub(crate) enum Step {
    // Shows a build in a view.
    Show(Around, Shape, Size, Counts),
    // The list is scrolled so far.
    Scroll(u64),
    // And this is how far it stands.
    At(Option<u64>),
    // The delegate `b` has two bars, or is unplugged.
    TwoBars,
    Unplug,
    // What is shown, as worked by hand.
    Is(&'static str),
    Stay,
}

// ---- what is compared

fn text_of(alloc: Global, layer: &Layer) -> Result<Vec<u8>, AllocError> {
    let mut text = Vec::new(alloc);
    print(alloc, layer, 0, &mut text)?;
    Ok(text)
}

fn shown_text(alloc: Global, screen: &ScreenOwner) -> Result<Vec<u8>, Fail> {
    match screen.layer() {
        Some(layer) => Ok(text_of(alloc, layer)?),
        None => Err("nothing is shown".into()),
    }
}

// What a layout leaves of a node: its number, its frame as a box or as a sliver, and what is remarked.
type Left = (
    Option<u64>,
    (Option<Bounds>, Option<Size>),
    (Option<SliverBounds>, Option<Geometry>),
    (u64, bool, bool, u64),
);

fn left_at(tree: &RenderTree, h: Handle) -> Left {
    (
        tree.number(h),
        (tree.bounds(h), tree.size(h)),
        (tree.sliver(h), tree.geometry(h)),
        (
            tree.overflow(h),
            tree.unbounded(h),
            tree.has_delegate(h),
            tree.scrolled(h),
        ),
    )
}

fn left_by(laid: &LaidNode) -> Left {
    let (boxed, sliver) = match laid.facts.frame {
        Frame::Boxed { bounds, size } => ((Some(bounds), Some(size)), (None, None)),
        Frame::Sliver { bounds, geometry } => ((None, None), (Some(bounds), Some(geometry))),
    };
    let facts = laid.facts;
    let more = (
        facts.notes.overflow,
        facts.notes.unbounded,
        facts.plugged,
        facts.scrolled,
    );
    (Some(laid.number), boxed, sliver, more)
}

// The laid tree that is stored is this one.
fn check_laid(
    rt: &impl Abort,
    tree: &RenderTree,
    h: Handle,
    laid: &LaidNode,
    row: usize,
) -> Result<(), Fail> {
    expect_at(rt, left_at(tree, h), left_by(laid), &row);
    let mut i = 0usize;
    for child in tree.children(h) {
        if !tree.shown(*child) {
            continue;
        }
        let Some(want) = laid.children.get(i) else {
            return Err("a child is shown that isn't laid out".into());
        };
        expect_at(rt, tree.offset(*child), Some(want.at), &row);
        check_laid(rt, tree, *child, &want.node, row)?;
        i = i.wrapping_add(1);
    }
    expect_at(rt, laid.children.len(), i, &row);
    Ok(())
}

fn check_tree(rt: &impl Abort, tree: &RenderTree, laid: &LaidNode, row: usize) -> Result<(), Fail> {
    match tree.root() {
        Some(root) => check_laid(rt, tree, root, laid, row),
        None => Err("no root".into()),
    }
}

// What is shown is this text.
fn check_text(
    rt: &impl Abort,
    alloc: Global,
    screen: &ScreenOwner,
    want: &[u8],
    row: usize,
) -> Result<(), Fail> {
    let given = shown_text(alloc, screen)?;
    expect_at(rt, given.as_slice(), want, &row);
    Ok(())
}

// The text of full painting.
fn painted_text(
    alloc: Global,
    laid: &LaidNode,
    table: &DelegateTable,
) -> Result<Vec<u8>, AllocError> {
    let layer = paint(alloc, laid, Scale::standard(), table)?;
    text_of(alloc, &layer)
}

// It is that of this laid tree.
fn check_layer(
    rt: &impl Abort,
    alloc: Global,
    screen: &ScreenOwner,
    laid: &LaidNode,
    table: &DelegateTable,
    row: usize,
) -> Result<(), Fail> {
    let want = painted_text(alloc, laid, table)?;
    check_text(rt, alloc, screen, want.as_slice(), row)
}

// Full layout and full painting of the build leave what the screen has.
fn check(
    rt: &impl Abort,
    alloc: Global,
    screen: &ScreenOwner,
    top: &RenderNode,
    view: Size,
    table: &DelegateTable,
    row: usize,
) -> Result<(), Fail>
    requires { CanBeLaidOut top.now }
{
    expect_at(rt, screen.shown_size(), Some(view), &row);
    let laid = lay_view(alloc, top, view, Scale::standard(), table)?;
    check_tree(rt, screen.render(), &laid, row)?;
    check_layer(rt, alloc, screen, &laid, table, row)
}

// ---- what a frame asks for

fn has_room(tree: &RenderTree, count: usize) -> bool
    ensures { result ≡ true → used_count tree.now.tree.nodes + retired_count tree.now.tree.nodes + count ≤ SLOTS_MAX }
{
    let tree = tree.tree();
    let free = SLOTS_MAX.saturating_sub(tree.len());
    count <= free.saturating_sub(tree.retired())
}

// How far the list is scrolled, 0 where there is none.
fn scroll_of(screen: &ScreenOwner) -> u64
    requires { screen.now.spent ≡ false }
    ensures { result ≡ scrolled_in (nodes_in screen.now) }
{
    screen.scroll_at(9).unwrap_or(0)
}

// ---- what delegates count

fn table_of(alloc: Global, counted: &Counted) -> Result<DelegateTable, AllocError> {
    let mut list = Vec::new(alloc);
    list.push(counted_bars(alloc, "a", 1, counted)?)?;
    list.push(counted_bars(alloc, "b", 10, counted)?)?;
    list.push(counted_bars(alloc, "c", 100, counted)?)?;
    DelegateTable::new(alloc, list)
}

// ---- frames

// A screen, and what its delegates count.
#[derive(Drop)]
struct Stage {
    screen: ScreenOwner,
    table: DelegateTable,
    counted: Counted,
}

impl Stage {
    fn new(alloc: Global, table: DelegateTable, counted: Counted) -> Stage
        ensures { IsReady (meant_in result.table ⟦<dyn Delegate as Delegate>⟧) result.screen }
    {
        Stage {
            screen: ScreenOwner::new(alloc, Scale::standard()),
            table,
            counted,
        }
    }

    // Shows a build. No one reads the counters of steps.
    fn show<L: Ledger, P: Ledger>(
        &mut self,
        rt: &impl Abort,
        alloc: Global,
        scene: Scene,
        view: Size,
        layouts: Blank,
        paints: Blank,
    ) -> Result<RenderNode, Fail>
        requires names { layouts.name ≡ L.name }
        requires parts { layouts.parts ≡ L.parts }
        requires some { 0 < L.parts }
        requires more_names { paints.name ≡ P.name }
        requires more_parts { paints.parts ≡ P.parts }
        requires more_some { 0 < P.parts }
        requires ready { IsReady (meant_in self.old.table ⟦<dyn Delegate as Delegate>⟧) self.old.screen }
        ensures ready { OnOk result (IsReady (meant_in self.new.table ⟦<dyn Delegate as Delegate>⟧) self.new.screen) }
        ensures fits { IfOk result (λ r. CanBeLaidOut r) }
    {
        let mut layouts = Steps::<L>::at_zero(layouts);
        let mut paints = Steps::<P>::at_zero(paints);
        let (top, count) = build(alloc, scroll_of(&self.screen), scene)?;
        assert!(rt; has_room(self.screen.render(), count));
        self.screen
            .show(&top, view, &self.table, &mut layouts, &mut paints)?;
        Ok(top)
    }

    fn frame(
        &mut self,
        rt: &impl Abort,
        alloc: Global,
        scene: Scene,
        view: Size,
        counts: Counts,
        row: usize,
    ) -> Result<(), Fail>
        requires { IsReady (meant_in self.old.table ⟦<dyn Delegate as Delegate>⟧) self.old.screen }
        ensures { OnOk result (IsReady (meant_in self.new.table ⟦<dyn Delegate as Delegate>⟧) self.new.screen) }
    {
        self.counted.laid.set(0);
        self.counted.painted.set(0);
        let top = self.show::<Brand, Brand>(rt, alloc, scene, view, Blank::new(1), Blank::new(1))?;
        let counted = (self.counted.laid.get(), self.counted.painted.get());
        expect_at(rt, counted, counts, &row);
        check(rt, alloc, &self.screen, &top, view, &self.table, row)?;
        Ok(())
    }

    fn make_two_bars(&mut self, rt: &impl Abort) -> Result<(), Fail>
        requires { IsReady (meant_in self.old.table ⟦<dyn Delegate as Delegate>⟧) self.old.screen }
        ensures { OnOk result (IsReady (meant_in self.new.table ⟦<dyn Delegate as Delegate>⟧) self.new.screen) }
    {
        expect(rt, self.table.set("b", "count", 2), SetEnd::Done);
        self.screen.delegate_changed("b")?;
        Ok(())
    }

    fn unplug(&mut self, rt: &impl Abort) -> Result<(), Fail>
        requires { IsReady (meant_in self.old.table ⟦<dyn Delegate as Delegate>⟧) self.old.screen }
        ensures { OnOk result (IsReady (meant_in self.new.table ⟦<dyn Delegate as Delegate>⟧) self.new.screen) }
    {
        expect(rt, self.table.unplug("b"), true);
        self.screen.delegate_changed("b")?;
        Ok(())
    }

    fn scroll(&mut self, to: u64)
        requires { IsReady (meant_in self.old.table ⟦<dyn Delegate as Delegate>⟧) self.old.screen }
        ensures { IsReady (meant_in self.new.table ⟦<dyn Delegate as Delegate>⟧) self.new.screen }
    {
        self.screen.scroll(9, to);
    }

    fn take(&mut self, rt: &impl Abort, alloc: Global, step: Step, row: usize) -> Result<(), Fail>
        requires { IsReady (meant_in self.old.table ⟦<dyn Delegate as Delegate>⟧) self.old.screen }
        ensures { OnOk result (IsReady (meant_in self.new.table ⟦<dyn Delegate as Delegate>⟧) self.new.screen) }
    {
        match step {
            Step::Show(around, shape, view, counts) => {
                self.frame(rt, alloc, scene(around, shape), view, counts, row)
            }
            Step::Scroll(to) => {
                self.scroll(to);
                Ok(())
            }
            Step::At(want) => {
                expect_at(rt, self.screen.scroll_at(9), want, &row);
                Ok(())
            }
            Step::TwoBars => self.make_two_bars(rt),
            Step::Unplug => self.unplug(rt),
            Step::Is(want) => {
                check_text(rt, alloc, &self.screen, want.as_bytes(), row)?;
                Ok(())
            }
            Step::Stay => Ok(()),
        }
    }

    fn take_all(
        &mut self,
        rt: &impl Abort,
        alloc: Global,
        steps: &[Step],
        row: usize,
    ) -> Result<(), Fail>
        requires { IsReady (meant_in self.old.table ⟦<dyn Delegate as Delegate>⟧) self.old.screen }
        ensures { OnOk result (IsReady (meant_in self.new.table ⟦<dyn Delegate as Delegate>⟧) self.new.screen) }
    {
        for i in 0..steps.len() {
            self.take(rt, alloc, steps[i], row.wrapping_add(i))?;
        }
        Ok(())
    }
}

fn make_stage(alloc: Global) -> Result<Stage, AllocError>
    ensures { IfOk result (λ s. IsReady (meant_in s.table ⟦<dyn Delegate as Delegate>⟧) s.screen) }
{
    let counted = none_counted(alloc)?;
    let table = table_of(alloc, &counted)?;
    Ok(Stage::new(alloc, table, counted))
}

// Takes the steps of a history, from a new screen on. Where one fails, the last two digits of the row tell the step, and those before
// them the history.
pub(crate) fn run(
    rt: &impl Abort,
    alloc: Global,
    history: usize,
    steps: &[Step],
) -> Result<(), Fail> {
    let mut stage = make_stage(alloc)?;
    stage.take_all(rt, alloc, steps, history.wrapping_mul(100))
}
