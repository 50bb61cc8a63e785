// What is done at the root before it is laid out.
ghost use Rattle.std.specs.Prelude.{◌≡◌, Some, true, false, OnOk, OnErr};
ghost use Rattle.std.specs.Result.{is_err};
ghost use Rattle.fx_geom.specs.Offset.{origin};
ghost use Rattle.node_tree.specs.Tree.{IsNode};
ghost use Rattle.render_tree.specs.Edits.{Changes};
ghost use Rattle.render_tree.specs.LayoutState.{with_layout_state};
ghost use Rattle.layout_rules.specs.Reads.{state_at};
ghost use Rattle.layout_owner.specs.Stays.{Stays, placed_state};

use fx_geom::Offset;
use fx_handles::Handle;
use render_tree::RenderTree;
use std::alloc::AllocError;
use std::rc::Rc;

// Gives a node the widget that it has.
fn renew(r: &mut RenderTree, h: Handle) -> Result<(), AllocError>
    requires { IsNode r.old.tree h }
    ensures stays { OnOk result (Stays r.old.tree r.new.tree) }
    ensures refused { r.old.spent ≡ true → is_err result ≡ true }
    ensures err { OnErr result (r.new ≡ r.old) }
    ensures scale { r.new.scale ≡ r.old.scale }
    ensures spent { r.new.spent ≡ r.old.spent }
{
    let Some(widget) = r.widget(h) else {
        unreachable!()
    };
    let widget = Rc::clone(widget)?;
    r.update(h, &widget)
}

// A tree that isn't spent stays as it is. A spent one tells it by refusing to give a node the widget that it has, as for want of
// memory any tree may; then it is spent.
pub(crate) fn admit(r: &mut RenderTree, h: Handle) -> Result<(), AllocError>
    requires { IsNode r.old.tree h }
    ensures stays { OnOk result (Stays r.old.tree r.new.tree) }
    ensures ready { OnOk result (r.old.spent ≡ false) }
    ensures refused { r.old.spent ≡ true → is_err result ≡ true }
    ensures err { OnErr result (r.new.spent ≡ true) }
    ensures scale { r.new.scale ≡ r.old.scale }
    ensures spent { OnOk result (r.new.spent ≡ r.old.spent) }
{
    match renew(r, h) {
        Ok(()) => Ok(()),
        Err(e) => {
            r.spend();
            Err(e)
        }
    }
}

// The root stands in the window, at its start.
pub(crate) fn place(r: &mut RenderTree, h: Handle)
    requires { IsNode r.old.tree h }
    ensures places { Changes r.old.tree r.new.tree h (with_layout_state (placed_state (state_at r.old.tree h))) }
    ensures scale { r.new.scale ≡ r.old.scale }
    ensures spent { r.new.spent ≡ r.old.spent }
{
    let Some(mut state) = r.layout_state(h) else {
        unreachable!()
    };
    state.shown = true;
    state.offset = Some(Offset::ZERO);
    r.set_layout_state(h, state);
}
