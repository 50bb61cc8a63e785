// What happens where a widget is entered, before what is below it.
ghost use Rattle.std.specs.Prelude.{◌≡◌, ◌+◌, ◌∷◌, List, map, IfOk, OnOk, IfErr, IfSome};
ghost use Rattle.fx_expr.specs.Value.{type_of};
ghost use Rattle.node_tree.specs.Children.{Keeps};
ghost use Rattle.widget_model.specs.Plain.{widgets_of};
ghost use Rattle.widget_model.specs.Typed.{IsTypedWidget, AreTypedWidgets};
ghost use Rattle.widget_model.specs.View.{shared};
ghost use Rattle.build_form.specs.FaultView.{fault_of};
ghost use Rattle.build_form.specs.Step.{stops};
ghost use Rattle.element_tree.specs.Element.{made_count};
ghost use Rattle.build_walk.specs.Counting.{builds_opening};
ghost use Rattle.build_walk.specs.Keeping.{reopened};
ghost use Rattle.build_owner.specs.Entry.{IsTypedElement, IsOpened};
ghost use Rattle.build_owner.specs.Given.{given_to};
ghost use Rattle.build_owner.specs.LastFrame.{LastFrame, IsOld, IsSince};
ghost use Rattle.build_owner.specs.Making.{MakesNodes};
ghost use Rattle.build_owner.specs.Naming.{AreHeld};
ghost use Rattle.build_owner.specs.NamesView.{was_around};
ghost use Rattle.build_owner.specs.Ready.{IsMatched, IsReadyToWalk};
ghost use Rattle.build_owner.specs.WalkView.{basis_of, declared_by, program_of, plain_arrival, progress_of, plans_of};

use crate::arriving::Arrival;
use crate::giving::{GivenWidgets, given, given_to, keep_apart, output_of};
use crate::names::NameValues;
use crate::owning::own;
use crate::rendering::own_render;
use crate::source::WalkSource;
use crate::walk::BuildWalk;
use build_form::FrameFault;
use element_tree::ElementTree;
use fx_expr::Value;
use fx_handles::Handle;
use fx_outside::Steps;
use global_keys::Registry;
use render_tree::RenderTree;
use std::rc::Rc;
use std::sync::ledger::Ledger;
use widget_model::Widget;

/// What is known of an element before anything below it is entered: its handle, the old element that it goes on from, the values that the
/// inherited names had around it in the last frame where it was taken from elsewhere, its child widgets, what it stores as the output of
/// a component, and its render node.
#[derive(Drop)]
pub(crate) struct Opening {
    pub(crate) at: Handle,
    pub(crate) partner: Option<Handle>,
    pub(crate) around: Option<Vec<Value>>,
    pub(crate) given: GivenWidgets,
    pub(crate) output: Option<Rc<Widget>>,
    pub(crate) render: Option<Handle>,
}

/// Enters a widget, as far as it goes before what is below it: there isn't a node too many, its global key wasn't met before, its output
/// isn't too large, and its children have different keys. Its element is the old one that it goes on from, or a new one, and so is its
/// render node. Where the old one was taken from elsewhere, the names get the values that they had there.
pub(crate) fn open<L: Ledger>(
    from: &WalkSource<'_>,
    names: &mut NameValues,
    arrival: &Arrival,
    t: &mut ElementTree,
    r: &mut RenderTree,
    g: &mut Registry,
    walk: &mut BuildWalk,
    builds: &mut Steps<L>,
) -> Result<Opening, FrameFault>
    requires ready { IsReadyToWalk (declared_by from.now) (program_of from.now).nodes walk.old.entered t.old.tree r.old.tree g.old }
    requires now { map type_of names.old.now.items ≡ (declared_by from.now).inherited }
    requires was { map type_of names.old.was.items ≡ (declared_by from.now).inherited }
    requires widget { IsTypedWidget (declared_by from.now) (shared arrival.now.widget) }
    requires beside { IfSome arrival.now.beside (IsMatched (declared_by from.now) t.old.tree (shared arrival.now.widget)) }
    ensures opened { IfOk result (λ o. (f : LastFrame) → IsSince (program_of from.now).defaults f t.old.tree r.old.tree g.old → IfSome arrival.now.beside (IsOld f names.old.was.items)
        → IsOpened f (basis_of from.now f) names.old.now.items names.new.was.items (plain_arrival f arrival.now)
        (progress_of f walk.old g.old t.old.tree) (progress_of f walk.new g.new t.new.tree) t.new.tree r.new.tree o) }
    ensures fault { IfErr result (λ e. IfSome (fault_of e) (λ x. (f : LastFrame) → IsSince (program_of from.now).defaults f t.old.tree r.old.tree g.old → IfSome arrival.now.beside (IsOld f names.old.was.items)
        → reopened (basis_of from.now f) f.pasts names.old.now.items (plain_arrival f arrival.now) (progress_of f walk.old g.old t.old.tree) ≡ stops x)) }
    ensures builds { OnOk result ((f : LastFrame) → IsSince (program_of from.now).defaults f t.old.tree r.old.tree g.old → IfSome arrival.now.beside (IsOld f names.old.was.items)
        → builds.new ≡ builds.old + builds_opening (basis_of from.now f) f.pasts names.old.now.items (plain_arrival f arrival.now) (progress_of f walk.old g.old t.old.tree)) }
    ensures builds_at_fault { IfErr result (λ e. IfSome (fault_of e) (λ x. (f : LastFrame) → IsSince (program_of from.now).defaults f t.old.tree r.old.tree g.old → IfSome arrival.now.beside (IsOld f names.old.was.items)
        → builds.new ≡ builds.old + builds_opening (basis_of from.now f) f.pasts names.old.now.items (plain_arrival f arrival.now) (progress_of f walk.old g.old t.old.tree))) }
    ensures since { OnOk result ((f : LastFrame) → IsSince (program_of from.now).defaults f t.old.tree r.old.tree g.old → IsSince (program_of from.now).defaults f t.new.tree r.new.tree g.new) }
    ensures keeps { OnOk result (Keeps t.old.tree t.new.tree) }
    ensures keeps_drawn { OnOk result (Keeps r.old.tree r.new.tree) }
    ensures makes_drawn { OnOk result (MakesNodes (made_count t.old.tree) (made_count t.new.tree) r.old.tree r.new.tree) }
    ensures ready { OnOk result (IsReadyToWalk (declared_by from.now) (program_of from.now).nodes walk.new.entered t.new.tree r.new.tree g.new) }
    ensures names { OnOk result (names.new.now.items ≡ names.old.now.items) }
    ensures around { IfOk result (λ o. was_around o.around names.new.was.items ≡ names.old.was.items) }
    ensures was { OnOk result (map type_of names.new.was.items ≡ (declared_by from.now).inherited) }
    ensures plans { OnOk result (plans_of walk.new ≡ plans_of walk.old) }
    ensures spots { OnOk result (walk.new.spots.items ≡ walk.old.spots.items) }
    ensures held { IfOk result (λ o. (hs : List Handle) → AreHeld g.old t.old.tree hs → AreHeld g.new t.new.tree (o.at ∷ hs)) }
    ensures partner { IfOk result (λ o. IfSome o.partner (IsTypedElement (declared_by from.now) t.new.tree)) }
    ensures given { IfOk result (λ o. AreTypedWidgets (declared_by from.now) (widgets_of (given_to (shared arrival.now.widget) o.given))) }
    ensures scale { r.new.scale ≡ r.old.scale }
{
    if walk.entered >= from.checked.scale().nodes {
        return Err(FrameFault::TreeTooLarge);
    }
    let owned = own(from, names, arrival, t, g)?;
    walk.entered += 1;
    let render = own_render(arrival, &owned, t, r)?;
    let given = given(from, names, arrival, &owned, t, builds)?;
    let children = given_to(&arrival.widget, &given);
    keep_apart(from.alloc, children)?;
    let output = output_of(&arrival.widget, children)?;
    Ok(Opening {
        at: owned.at,
        partner: owned.partner,
        around: owned.around,
        given,
        output,
        render,
    })
}
