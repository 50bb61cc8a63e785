// A tree of one node, a text of two words: how large it would like to be, and what it is when it is laid out alone, flushed, and painted
// alone. A cell of text is 512 by 1,024.
ghost use Rattle.std.specs.Prelude.{◌≡◌, ◌<◌, IfOk};
ghost use Rattle.node_tree.specs.Forest.Forest.{none};
ghost use Rattle.node_tree.specs.Tree.{Is};
ghost use Rattle.widget_model.specs.Plain.{look_of};
ghost use Rattle.widget_model.specs.View.{shared};
ghost use Rattle.layout_form.specs.Fits.{FitsLayout};
ghost use Rattle.worked_calls.specs.Lone.{IsLone};

use crate::compare::expect;
use crate::elements::shared;
use delegates::DelegateTable;
use fx_expr::Txt;
use fx_geom::{Bounds, Len, Offset, Scale, Size};
use fx_handles::Handle;
use fx_outside::Steps;
use layer_tree::{ItemList, Layer, LayerKind, print};
use layout_owner::{flush, flush_outer};
use layout_rules::{lay_one, lay_outer, layouts_see_render_nodes, max_h, max_w};
use paint_owner::{PaintOwner, paint_one};
use render_tree::RenderTree;
use std::alloc::{AllocError, Global};
use std::marker::Brand;
use std::process::Abort;
use std::rc::Rc;
use std::sync::ledger::{Blank, Ledger};
use std::test::Fail;
use widget_model::{Kind, Widget};

// What is done with the node; where there are two ways, whether in the first of two phases.
#[derive(Clone, Copy)]
enum Call {
    Like,
    Lay(bool),
    Flush(bool),
}

const VIEW: Size = Size { w: 4096, h: 2048 };

const PAINTED: &str = "offset 0 0\n  picture\n    text 3 4 ff000000 \"ab cd\"\n";

fn text(alloc: Global) -> Result<Rc<Widget>, AllocError>
    ensures { IfOk result (λ r. FitsLayout (look_of (shared r))) }
{
    let text = Txt::of(String::from_str(alloc, "ab cd")?);
    let color = 0xff000000;
    shared(alloc, Kind::Text { text, color })
}

fn add_text(rt: &impl Abort, alloc: Global, tree: &mut RenderTree) -> Result<Handle, Fail>
    requires { Is tree.old.tree none }
    ensures { IfOk result (λ h. IsLone tree.new.tree h) }
{
    assert!(rt; tree.root().is_none());
    let widget = text(alloc)?;
    let h = tree.insert(None, 0, &widget, 1)?;
    Ok(h)
}

// It would have both words on one line, and two lines where there is room for one word.
fn like(rt: &impl Abort, alloc: Global, tree: &RenderTree, h: Handle) -> Result<(), Fail>
    requires { IsLone tree.now.tree h }
{
    expect(rt, max_w(alloc, tree, h, Len::Unbounded)?, 2560);
    expect(rt, max_h(alloc, tree, h, Len::Finite(1024))?, 2048);
    Ok(())
}

fn lay<L: Ledger>(
    rt: &impl Abort,
    alloc: Global,
    tree: &mut RenderTree,
    h: Handle,
    outer: bool,
    table: &DelegateTable,
    steps: &mut Steps<L>,
) -> Result<(), Fail>
    requires { IsLone tree.old.tree h }
{
    layouts_see_render_nodes();
    let bounds = Bounds::loose(Len::Finite(VIEW.w), Len::Finite(VIEW.h));
    let size = if outer {
        lay_outer(alloc, tree, h, bounds, table, steps)?
    } else {
        lay_one(alloc, tree, h, bounds, table, steps)?
    };
    expect(rt, size, Size { w: 2560, h: 1024 });
    expect(rt, tree.size(h), Some(size));
    Ok(())
}

// It is painted from a place on, without anything that is kept.
fn paint<L: Ledger>(
    rt: &impl Abort,
    alloc: Global,
    tree: &RenderTree,
    h: Handle,
    table: &DelegateTable,
    steps: &mut Steps<L>,
) -> Result<(), Fail> {
    assert!(rt; tree.tree().contains(h));
    let mut items = Vec::new(alloc);
    let at = Offset { x: 3, y: 4 };
    paint_one(alloc, tree, h, at, table, &mut items, steps)?;
    let layer = Layer {
        kind: LayerKind::Offset(Offset::ZERO),
        items: ItemList::of(alloc, items)?,
    };
    let mut text = Vec::new(alloc);
    print(alloc, &layer, 0, &mut text)?;
    expect(rt, text.as_slice(), PAINTED.as_bytes());
    Ok(())
}

fn flush_alone<L: Ledger>(
    rt: &impl Abort,
    alloc: Global,
    tree: &mut RenderTree,
    h: Handle,
    outer: bool,
    table: &DelegateTable,
    steps: &mut Steps<L>,
) -> Result<(), Fail>
    requires { IsLone tree.old.tree h }
{
    if outer {
        flush_outer(alloc, tree, VIEW, table, steps)?;
    } else {
        flush(alloc, tree, VIEW, table, steps)?;
    }
    expect(rt, tree.size(h), Some(VIEW));
    paint(rt, alloc, tree, h, table, steps)
}

fn make_call<L: Ledger>(
    rt: &impl Abort,
    alloc: Global,
    call: Call,
    table: &DelegateTable,
    steps: &mut Steps<L>,
) -> Result<(), Fail> {
    let mut tree = RenderTree::new(alloc, Scale::standard());
    let h = add_text(rt, alloc, &mut tree)?;
    match call {
        Call::Like => like(rt, alloc, &tree, h),
        Call::Lay(outer) => lay(rt, alloc, &mut tree, h, outer, table, steps),
        Call::Flush(outer) => flush_alone(rt, alloc, &mut tree, h, outer, table, steps),
    }
}

fn make_all<L: Ledger>(rt: &impl Abort, alloc: Global, blank: Blank) -> Result<(), Fail>
    requires name { blank.name ≡ L.name }
    requires parts { blank.parts ≡ L.parts }
    requires some { 0 < L.parts }
{
    let table = DelegateTable::new(alloc, Vec::new(alloc))?;
    let mut steps = Steps::<L>::at_zero(blank);
    for call in [
        Call::Like,
        Call::Lay(false),
        Call::Lay(true),
        Call::Flush(false),
        Call::Flush(true),
    ] {
        make_call(rt, alloc, call, &table, &mut steps)?;
    }
    Ok(())
}

#[test]
fn one_text_is_measured_laid_out_and_painted(rt: HostRuntime) -> Result<(), Fail> {
    make_all::<Brand>(&rt, rt.alloc(), Blank::new(1))
}

// Nothing is kept of no tree.
#[test]
fn nothing_is_let_go(rt: HostRuntime) {
    let tree = RenderTree::new(rt.alloc(), Scale::standard());
    let mut owner = PaintOwner::new(rt.alloc());
    owner.drop_dead(&tree);
    expect(&rt, owner.root().is_none(), true);
}
