// The render node of a widget: that of the old element from which it goes on, or a new one (`RenderObjectElement`).
ghost use Rattle.std.specs.Prelude.{◌≡◌, ℕ, ◌+◌, ◌<◌, ◌≤◌, true, not, None, List, IfOk, OnOk};
ghost use Rattle.fx_expr.specs.declared.values.Value.{Value as AnyValue};
ghost use Rattle.fx_handles.specs.declared.TheConstants.{SLOTS_MAX};
ghost use Rattle.fx_handles.specs.Arena.{used_count, retired_count};
ghost use Rattle.node_tree.specs.Children.{Keeps};
ghost use Rattle.widget_model.specs.Plain.{look_of};
ghost use Rattle.widget_model.specs.Typed.{Declarations};
ghost use Rattle.widget_model.specs.View.{look_in, shared};
ghost use Rattle.plain_tree.specs.RenderRole.{render_role_of, vanishes};
ghost use Rattle.build_form.specs.Entering.{Basis};
ghost use Rattle.build_form.specs.Step.{Progress};
ghost use Rattle.element_tree.specs.Element.{Element as ElementOf, made_count};
ghost use Rattle.global_keys.specs.Holders.{Registry as RegistryOf};
ghost use Rattle.render_tree.specs.Tree.{object_at};
ghost use Rattle.build_walk.specs.Renewing.{role_of, IsDrawn, Unless};
ghost use Rattle.build_owner.specs.LastFrame.{LastFrame, IsSince};
ghost use Rattle.build_owner.specs.Making.{MakesNodes, MakesElement};
ghost use Rattle.build_owner.specs.Owned.{IsElementOf, OwnsElement};
ghost use Rattle.build_owner.specs.WalkView.{plain_arrival};

use crate::arriving::Arrival;
use crate::owning::Owned;
use build_walk::{kept_elements_are_known, types_draw_alike};
use element_tree::{Element, ElementTree};
use fx_handles::Handle;
use node_tree::Tree;
use render_tree::{RenderObject, RenderTree, TreeFault};
use std::alloc::AllocError;
use widget_model::Kind;

/// Whether a kind has a render node.
pub fn is_drawn(kind: &Kind) -> bool
    ensures { result ≡ not (vanishes (render_role_of (look_in kind.now))) }
{
    match kind {
        Kind::Flexible { .. }
        | Kind::Positioned { .. }
        | Kind::Keep { .. }
        | Kind::Inherit { .. }
        | Kind::Use { .. } => false,
        _ => true,
    }
}

/// The render node of a widget with such an element, if its kind has one.
pub(crate) fn own_render(
    arrival: &Arrival,
    owned: &Owned,
    t: &ElementTree,
    r: &mut RenderTree,
) -> Result<Option<Handle>, AllocError>
    requires element { (d : Declarations) × IsElementOf d t.now.tree (shared arrival.now.widget) owned.now }
    requires room { used_count r.old.tree.nodes + retired_count r.old.tree.nodes < SLOTS_MAX }
    ensures unseen { IfOk result (λ k. vanishes (render_role_of (look_of (shared arrival.now.widget))) ≡ true → k ≡ None) }
    ensures drawn { IfOk result (λ k. (f : LastFrame) (from : Basis) (defaults olds : List AnyValue) (s : Progress) (was g : RegistryOf) (e : ElementOf)
        → IsSince defaults f t.now.tree r.old.tree was → (o : OwnsElement f from olds (plain_arrival f arrival.now) s t.now.tree g owned.now)
        → e.widget ≡ shared arrival.now.widget → e.number ≡ o.element.number → e.render ≡ k
        → Unless (vanishes (role_of e)) (IsDrawn (object_at r.new.tree) (f.scrolled e.number) e)) }
    ensures keeps { OnOk result (Keeps r.old.tree r.new.tree) }
    ensures makes { OnOk result ((low : ℕ) → MakesElement low t.now.tree owned.now.at owned.now.partner → MakesNodes low (made_count t.now.tree) r.old.tree r.new.tree) }
    ensures room { OnOk result (used_count r.new.tree.nodes + retired_count r.new.tree.nodes ≤ used_count r.old.tree.nodes + retired_count r.old.tree.nodes + 1) }
    ensures scale { r.new.scale ≡ r.old.scale }
{
    Tree::<RenderObject>::keep_laws();
    Tree::<Element>::keep_laws();
    kept_elements_are_known();
    types_draw_alike();
    if !is_drawn(&arrival.widget.kind) {
        return Ok(None);
    }
    if owned.partner.is_some() {
        return Ok(t.render(owned.at));
    }
    let Some(number) = t.number(owned.at) else {
        unreachable!()
    };
    match r.insert_loose(&arrival.widget, number) {
        Ok(k) => Ok(Some(k)),
        Err(TreeFault::Full) => unreachable!(),
        Err(TreeFault::OutOfMemory) => Err(AllocError),
    }
}
