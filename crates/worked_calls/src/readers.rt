// What is read off one small tree, which is owned and which stands in an arena: two Detectors side by side, and in the arena a
// third one over both that is out of the window.
use crate::compare::{expect, expect_at};
use crate::elements::shared;
use focus_order::order;
use fx_expr::{Handler, SetList};
use fx_geom::{Bounds, Offset, Scale, Size};
use fx_handles::Handle;
use gesture_arena::Gesture;
use hit_testing::{hit_members, hit_path};
use plain_paint::notes;
use plain_tree::{Facts, Frame, LaidChild, LaidNode, Notes};
use render_tree::RenderTree;
use semantics_tree::{SemNode, print, semantics};
use std::alloc::{AllocError, Global};
use std::process::Abort;
use std::rc::Rc;
use std::test::Fail;
use widget_model::{Behavior, Kind, Widget};

// A node: its number, where it stands, how wide it is, and by how much its children exceed it.
#[derive(Clone, Copy)]
struct Strip {
    number: u64,
    x: i64,
    w: u64,
    overflow: u64,
}

const ROOT: Strip = Strip {
    number: 1,
    x: 0,
    w: 100,
    overflow: 4,
};

const LEFT: Strip = Strip {
    number: 2,
    x: 0,
    w: 50,
    overflow: 0,
};

const RIGHT: Strip = Strip {
    number: 3,
    x: 50,
    w: 50,
    overflow: 7,
};

const HIDDEN: Strip = Strip {
    number: 4,
    x: 0,
    w: 100,
    overflow: 1,
};

// An opaque Detector with a tap.
fn detector(alloc: Global) -> Kind {
    Kind::Detector {
        behavior: Behavior::Opaque,
        tap: Some(Handler {
            owner: 0,
            sets: SetList::of(Vec::new(alloc)),
        }),
        long: None,
        vertical: None,
        horizontal: None,
        pan: None,
    }
}

fn size_of(strip: Strip) -> Size {
    Size { w: strip.w, h: 50 }
}

// A node of the owned tree.
fn owned(strip: Strip, widget: Rc<Widget>, children: Vec<LaidChild>) -> LaidNode {
    let size = size_of(strip);
    LaidNode {
        number: strip.number,
        widget,
        facts: Facts {
            frame: Frame::Boxed {
                bounds: Bounds::tight(size),
                size,
            },
            notes: Notes {
                overflow: strip.overflow,
                unbounded: false,
            },
            plugged: false,
            scrolled: 0,
        },
        children,
    }
}

fn owned_child(alloc: Global, strip: Strip) -> Result<LaidChild, AllocError> {
    Ok(LaidChild {
        at: Offset { x: strip.x, y: 0 },
        node: owned(strip, shared(alloc, detector(alloc))?, Vec::new(alloc)),
    })
}

fn owned_tree(alloc: Global) -> Result<LaidNode, AllocError> {
    let mut children = Vec::new(alloc);
    children.push(owned_child(alloc, LEFT)?)?;
    children.push(owned_child(alloc, RIGHT)?)?;
    Ok(owned(ROOT, shared(alloc, Kind::ClipRect)?, children))
}

// ---- the same tree in the arena, with a node more

fn insert(
    rt: &impl Abort,
    tree: &mut RenderTree,
    parent: Option<Handle>,
    strip: Strip,
    widget: &Rc<Widget>,
) -> Result<Handle, Fail> {
    match parent {
        None => assert!(rt; tree.root().is_none()),
        Some(p) => assert!(rt; tree.tree().contains(p)),
    }
    Ok(tree.insert(parent, 0, widget, strip.number)?)
}

// What a layout stores at it.
fn lay(tree: &mut RenderTree, h: Handle, strip: Strip, shown: bool) {
    let size = size_of(strip);
    tree.set_laid(h, Bounds::tight(size), size);
    tree.set_notes(h, strip.overflow, false);
    tree.set_offset(h, Offset { x: strip.x, y: 0 });
    tree.set_shown(h, shown);
}

// Nothing is said of a tree without a laid root.
fn expect_silence(rt: &impl Abort, alloc: Global, tree: &RenderTree) -> Result<(), Fail> {
    let said = render_readers::semantics(alloc, tree)?;
    expect(rt, said.is_none(), true);
    Ok(())
}

// A clip at the root, which nobody showed.
fn add_root(rt: &impl Abort, alloc: Global, tree: &mut RenderTree) -> Result<Handle, Fail> {
    let clip = shared(alloc, Kind::ClipRect)?;
    let h = insert(rt, tree, None, ROOT, &clip)?;
    expect_silence(rt, alloc, tree)?;
    lay(tree, h, ROOT, false);
    Ok(h)
}

// The first child of the root.
fn add_child(
    rt: &impl Abort,
    alloc: Global,
    tree: &mut RenderTree,
    root: Handle,
    strip: Strip,
) -> Result<Handle, Fail> {
    let detector = shared(alloc, detector(alloc))?;
    let h = insert(rt, tree, Some(root), strip, &detector)?;
    lay(tree, h, strip, strip.number != HIDDEN.number);
    Ok(h)
}

fn expect_tap(rt: &impl Abort, tree: &RenderTree, h: Handle, is_there: bool) {
    let handler = render_readers::handler_of(tree, h, Gesture::Tap);
    expect(rt, handler.is_some(), is_there);
}

fn make(rt: &impl Abort, alloc: Global, tree: &mut RenderTree) -> Result<(), Fail> {
    let root = add_root(rt, alloc, tree)?;
    add_child(rt, alloc, tree, root, HIDDEN)?;
    let right = add_child(rt, alloc, tree, root, RIGHT)?;
    add_child(rt, alloc, tree, root, LEFT)?;
    expect_tap(rt, tree, right, true);
    expect_tap(rt, tree, root, false);
    Ok(())
}

// ---- what is read of both

fn path_in(alloc: Global, tree: &RenderTree, at: Offset) -> Result<Vec<u64>, AllocError> {
    let mut path = vec![in alloc; 9]?;
    render_readers::hit_path(alloc, tree, at, &mut path)?;
    Ok(path)
}

fn path_of(alloc: Global, root: &LaidNode, at: Offset) -> Result<Vec<u64>, AllocError> {
    let mut path = Vec::new(alloc);
    hit_path(alloc, root, at, &mut path)?;
    Ok(path)
}

fn same_hits(
    rt: &impl Abort,
    alloc: Global,
    tree: &RenderTree,
    root: &LaidNode,
    at: Offset,
) -> Result<(), Fail> {
    let given = path_in(alloc, tree, at)?;
    let want = path_of(alloc, root, at)?;
    expect_at(rt, given.as_slice(), want.as_slice(), &at);
    Ok(())
}

fn same_members(
    rt: &impl Abort,
    alloc: Global,
    tree: &RenderTree,
    root: &LaidNode,
    at: Offset,
) -> Result<(), Fail> {
    let given = render_readers::hit_members(alloc, tree, at)?;
    let want = hit_members(alloc, root, at)?;
    expect_at(rt, given.as_slice(), want.as_slice(), &at);
    Ok(())
}

fn order_in(alloc: Global, tree: &RenderTree) -> Result<Vec<u64>, AllocError> {
    let mut order = vec![in alloc; 9]?;
    render_readers::order(alloc, tree, &mut order)?;
    Ok(order)
}

fn order_of(alloc: Global, root: &LaidNode) -> Result<Vec<u64>, AllocError> {
    let mut list = Vec::new(alloc);
    order(alloc, root, &mut list)?;
    Ok(list)
}

fn same_order(
    rt: &impl Abort,
    alloc: Global,
    tree: &RenderTree,
    root: &LaidNode,
) -> Result<(), Fail> {
    let given = order_in(alloc, tree)?;
    let want = order_of(alloc, root)?;
    expect(rt, given.as_slice(), want.as_slice());
    expect(rt, given.as_slice(), [2, 3].as_slice());
    Ok(())
}

fn same_notes(
    rt: &impl Abort,
    alloc: Global,
    tree: &RenderTree,
    root: &LaidNode,
) -> Result<(), Fail> {
    let given = render_readers::notes(alloc, tree)?;
    let want = notes(alloc, root)?;
    expect(rt, given.as_slice(), want.as_slice());
    Ok(())
}

fn text_of(alloc: Global, tree: Option<&SemNode>) -> Result<Vec<u8>, AllocError> {
    let mut text = Vec::new(alloc);
    print(alloc, tree, &mut text)?;
    Ok(text)
}

// What is said of the arena, as text.
fn said_in(alloc: Global, tree: &RenderTree) -> Result<Vec<u8>, AllocError> {
    let said = render_readers::semantics(alloc, tree)?;
    text_of(alloc, said.as_ref())
}

fn said_of(alloc: Global, root: &LaidNode) -> Result<Vec<u8>, AllocError> {
    let said = semantics(alloc, root)?;
    text_of(alloc, Some(&said))
}

fn same_semantics(
    rt: &impl Abort,
    alloc: Global,
    tree: &RenderTree,
    root: &LaidNode,
) -> Result<(), Fail> {
    let given = said_in(alloc, tree)?;
    let want = said_of(alloc, root)?;
    expect(rt, given.as_slice(), want.as_slice());
    Ok(())
}

// Points that the edges tell apart.
fn same_points(
    rt: &impl Abort,
    alloc: Global,
    tree: &RenderTree,
    root: &LaidNode,
) -> Result<(), Fail> {
    for x in [-1, 0, 49, 50, 99, 100] {
        let at = Offset { x, y: 0 };
        same_hits(rt, alloc, tree, root, at)?;
        same_members(rt, alloc, tree, root, at)?;
    }
    Ok(())
}

fn same_reading(
    rt: &impl Abort,
    alloc: Global,
    tree: &mut RenderTree,
    root: &LaidNode,
) -> Result<(), Fail> {
    make(rt, alloc, tree)?;
    same_points(rt, alloc, tree, root)?;
    same_order(rt, alloc, tree, root)?;
    same_notes(rt, alloc, tree, root)?;
    same_semantics(rt, alloc, tree, root)
}

#[test]
fn arenas_are_read_as_owned_trees_are(rt: HostRuntime) -> Result<(), Fail> {
    let root = owned_tree(rt.alloc())?;
    let mut tree = RenderTree::new(rt.alloc(), Scale::standard());
    same_reading(&rt, rt.alloc(), &mut tree, &root)
}
