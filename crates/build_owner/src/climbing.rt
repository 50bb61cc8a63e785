// The values of inherited names where an old element stood.
ghost use Rattle.std.specs.Prelude.{◌≡◌, OnOk, map};
ghost use Rattle.fx_expr.specs.Value.{type_of};
ghost use Rattle.node_tree.specs.Forest.{Forest};
ghost use Rattle.node_tree.specs.Tree.{IsNode, Is, subtree_at};
ghost use Rattle.element_tree.specs.Element.{Element as ElementOf};
ghost use Rattle.build_walk.specs.Past.{Pasts};
ghost use Rattle.build_walk.specs.Telling.{TellPasts};
ghost use Rattle.build_owner.specs.LastFrame.{LastFrame, IsOld};
ghost use Rattle.build_owner.specs.Climbing.{AreAllFitting, IsStillThere};

use crate::names::provide_below;
use build_walk::kept_elements_are_known;
use element_tree::{Element, ElementTree};
use fx_expr::Value;
use fx_handles::Handle;
use node_tree::Tree;
use std::alloc::AllocError;

/// Gives the names, which have their defaults, the values that they had where an element stands: those of the nearest providers above it.
/// It takes as many steps as the element has ancestors.
#[cycle(climbing)]
pub fn provide_above(t: &ElementTree, h: Handle, values: &mut [Value]) -> Result<(), AllocError>
    requires live { IsNode t.now.tree h }
    requires fits { AreAllFitting (map type_of values.old) t.now.tree }
    ensures typed { OnOk result (map type_of values.new ≡ map type_of values.old) }
    ensures old { OnOk result ((f : LastFrame) → IsStillThere values.old f t.now.tree → IsNode f.elements h → IsOld f values.new h) }
    // What the elements tell above all they tell at this one.
    ensures told { OnOk result ((pasts : Pasts) (f : Forest ElementOf) → Is t.now.tree f → TellPasts pasts values.old f → TellPasts pasts values.new (subtree_at t.now.tree h)) }
{
    Tree::<Element>::walk_laws();
    Tree::<Element>::child_laws();
    kept_elements_are_known();
    // Tells the proof that this is a tree.
    let _ = t.root();
    let Some(p) = t.parent(h) else {
        return Ok(());
    };
    provide_above(t, p, values)?;
    let Some(widget) = t.widget(p) else {
        unreachable!()
    };
    provide_below(values, widget)?;
    Ok(())
}
