// The walk over the widgets of a tree, in preorder (`Element.inflateWidget`, `Element.update`).
ghost use Rattle.std.specs.Prelude.{◌≡◌, ◌+◌, ◌++◌, ◌∷◌, [], ℕ, suc, true, List, map, IfOk, OnOk, IfErr, IfSome};
ghost use Rattle.std.specs.List.{All};
ghost use Rattle.fx_expr.specs.declared.values.Value.{Value};
ghost use Rattle.fx_expr.specs.Value.{type_of};
ghost use Rattle.element_tree.specs.Element.{number_at, made_count};
ghost use Rattle.node_tree.specs.Children.{Keeps};
ghost use Rattle.node_tree.specs.Plan.{planned};
ghost use Rattle.plain_tree.specs.Projection.{told_at, told_by};
ghost use Rattle.widget_model.specs.Plain.{widgets_of, look_of};
ghost use Rattle.widget_model.specs.Typed.{IsTypedWidget, AreTypedWidgets};
ghost use Rattle.widget_model.specs.View.{shared, look_in};
ghost use Rattle.build_form.specs.BuildRole.{build_role_of};
ghost use Rattle.build_form.specs.Entering.{second, waits, entered_below, Opening as OpeningOf};
ghost use Rattle.build_form.specs.FaultView.{fault_of};
ghost use Rattle.build_form.specs.Step.{Progress, stops, each};
ghost use Rattle.build_walk.specs.Counting.{builds_from, builds_below, builds_by_each};
ghost use Rattle.build_walk.specs.Entered.{IsEntered, AreEntered, IsEnteredBelow};
ghost use Rattle.build_walk.specs.Keeping.{reenter};
ghost use Rattle.build_walk.specs.Kept.{plain_at_any};
ghost use Rattle.build_walk.specs.Walked.{element_entry};
ghost use Rattle.build_owner.specs.Entry.{IsTypedElement, AreTypedSpots, AreOldSpots, IsOpened, half_of, with_element, number_or};
ghost use Rattle.build_owner.specs.Given.{given_to};
ghost use Rattle.build_owner.specs.LastFrame.{LastFrame, IsOld, IsSince};
ghost use Rattle.build_owner.specs.Making.{MakesNodes};
ghost use Rattle.build_owner.specs.Naming.{AreHeld};
ghost use Rattle.build_owner.specs.Ready.{IsReadyToWalk, IsTypedArrival};
ghost use Rattle.build_owner.specs.WalkView.{basis_of, declared_by, program_of, phase_of, place_of, plain_arrival, progress_of, plans_of, list_for};

use crate::arriving::{Arrival, arrivals, arrived};
use crate::drawing::render_role_of;
use crate::giving::given_to;
use crate::names::{NameValues, give_back, go_back, go_below};
use crate::opening::{Opening, open};
use crate::planning::{plan_element, plan_render, wait};
use crate::source::{Phase, WalkSource};
use crate::walk::{BuildWalk, EnteredPlace};
use build_form::{FrameFault, build_role_of};
use build_walk::{
    builds_are_counted_in_turn, forests_are_walked_in_turn, kept_elements_are_known,
    kept_elements_stay, widgets_are_entered, widgets_are_entered_below,
    widgets_are_entered_in_turn, widgets_stop,
};
use element_tree::{Element, ElementTree};
use fx_handles::Handle;
use fx_outside::Steps;
use global_keys::Registry;
use node_tree::Tree;
use plain_tree::{ParentData, RenderRole, told_at, told_by};
use render_tree::{RenderObject, RenderTree};
use std::mem::replace;
use std::sync::ledger::Ledger;
use widget_model::Widget;

// Whether a widget's children are put off.
fn is_put_off(phase: Phase, widget: &Widget) -> bool
    ensures { result ≡ waits (phase_of phase) (build_role_of (look_in widget.now.kind)) }
{
    match phase {
        Phase::First => build_role_of(&widget.kind).is_lazy(),
        Phase::Second => false,
    }
}

// What a node is told that stands at such a place, as this child of its parent.
fn told_here(place: &EnteredPlace<'_, '_>, index: u64) -> ParentData
    ensures { result ≡ told_at (place_of place.now).role (place_of place.now).told index }
{
    match place.told {
        Some(told) => *told,
        None => told_at(*place.role, None, index),
    }
}

// What is told below a widget with such a role that has no render node, where this is told to it.
fn told_below(place: &EnteredPlace<'_, '_>, role: &RenderRole, told: &ParentData) -> ParentData
    ensures { result ≡ told_by (place_of place.now).role role.now told.now }
{
    told_by(*place.role, *role, *told)
}

/// Enters a widget, and then what is below it, where so many depths are left, and plans its element and its render node. It changes nothing
/// of the trees but that it makes new elements and render nodes, which stand in no list yet.
#[cycle(entering)]
pub(crate) fn enter<L: Ledger>(
    from: &WalkSource<'_>,
    phase: Phase,
    left: u32,
    names: &mut NameValues,
    place: &EnteredPlace<'_, '_>,
    arrival: &Arrival,
    t: &mut ElementTree,
    r: &mut RenderTree,
    g: &mut Registry,
    walk: &mut BuildWalk,
    builds: &mut Steps<L>,
) -> Result<Handle, FrameFault>
    requires ready { IsReadyToWalk (declared_by from.now) (program_of from.now).nodes walk.old.entered t.old.tree r.old.tree g.old }
    requires spots { AreTypedSpots (declared_by from.now) t.old.tree walk.old.spots.items }
    requires now { map type_of names.old.now.items ≡ (declared_by from.now).inherited }
    requires was { map type_of names.old.was.items ≡ (declared_by from.now).inherited }
    requires arrival { IsTypedArrival (declared_by from.now) t.old.tree arrival.now }
    ensures entered { IfOk result (λ h. (f : LastFrame) → IsSince (program_of from.now).defaults f t.old.tree r.old.tree g.old → IfSome arrival.now.beside (IsOld f names.old.was.items)
        → IsEntered (basis_of from.now f) f.pasts (phase_of phase) left names.old.now.items f.scrolled (place_of place.now) (plain_arrival f arrival.now) (progress_of f walk.old g.old t.old.tree) (progress_of f walk.new g.new t.new.tree)
        t.new.tree r.new.tree (plans_of walk.old) (plans_of walk.new) h) }
    ensures fault { IfErr result (λ e. IfSome (fault_of e) (λ x. (f : LastFrame) → IsSince (program_of from.now).defaults f t.old.tree r.old.tree g.old → IfSome arrival.now.beside (IsOld f names.old.was.items)
        → reenter (basis_of from.now f) f.pasts (phase_of phase) left names.old.now.items (plain_arrival f arrival.now) (progress_of f walk.old g.old t.old.tree) ≡ stops x)) }
    ensures builds { OnOk result ((f : LastFrame) → IsSince (program_of from.now).defaults f t.old.tree r.old.tree g.old → IfSome arrival.now.beside (IsOld f names.old.was.items)
        → builds.new ≡ builds.old + builds_from (basis_of from.now f) f.pasts (phase_of phase) left names.old.now.items (plain_arrival f arrival.now) (progress_of f walk.old g.old t.old.tree)) }
    ensures builds_at_fault { IfErr result (λ e. IfSome (fault_of e) (λ x. (f : LastFrame) → IsSince (program_of from.now).defaults f t.old.tree r.old.tree g.old → IfSome arrival.now.beside (IsOld f names.old.was.items)
        → builds.new ≡ builds.old + builds_from (basis_of from.now f) f.pasts (phase_of phase) left names.old.now.items (plain_arrival f arrival.now) (progress_of f walk.old g.old t.old.tree))) }
    ensures since { OnOk result ((f : LastFrame) → IsSince (program_of from.now).defaults f t.old.tree r.old.tree g.old → IsSince (program_of from.now).defaults f t.new.tree r.new.tree g.new) }
    ensures keeps { OnOk result (Keeps t.old.tree t.new.tree) }
    ensures keeps_drawn { OnOk result (Keeps r.old.tree r.new.tree) }
    ensures makes_drawn { OnOk result (MakesNodes (made_count t.old.tree) (made_count t.new.tree) r.old.tree r.new.tree) }
    ensures ready { OnOk result (IsReadyToWalk (declared_by from.now) (program_of from.now).nodes walk.new.entered t.new.tree r.new.tree g.new) }
    ensures spots { OnOk result (AreTypedSpots (declared_by from.now) t.new.tree walk.new.spots.items) }
    ensures old_spots { OnOk result ((f : LastFrame) → IsSince (program_of from.now).defaults f t.old.tree r.old.tree g.old → IfSome arrival.now.beside (IsOld f names.old.was.items)
        → AreOldSpots f walk.old.spots.items → AreOldSpots f walk.new.spots.items) }
    ensures none_waits { OnOk result (phase_of phase ≡ second → walk.new.spots.items ≡ walk.old.spots.items) }
    ensures held { OnOk result ((hs : List Handle) → AreHeld g.old t.old.tree (hs ++ planned walk.old.elements.items) → AreHeld g.new t.new.tree (hs ++ planned walk.new.elements.items)) }
    ensures names { OnOk result ((names.new.now.items ≡ names.old.now.items) × (names.new.was.items ≡ names.old.was.items)) }
    ensures scale { r.new.scale ≡ r.old.scale }
{
    widgets_stop();
    builds_are_counted_in_turn();
    Tree::<Element>::keep_laws();
    Tree::<RenderObject>::keep_laws();
    Tree::<Element>::walk_laws();
    kept_elements_stay();
    // Tells the proof that this is a tree.
    let _ = t.root();
    if left == 0 {
        return Err(FrameFault::TreeTooLarge);
    }
    let opening = open(from, names, arrival, t, r, g, walk, builds)?;
    let children = enter_shown(
        from,
        phase,
        left - 1,
        names,
        place,
        arrival,
        &opening,
        t,
        r,
        g,
        walk,
        builds,
    )?;
    let Opening {
        at,
        around,
        output,
        render,
        ..
    } = opening;
    plan_element(walk, at, place.parent, children, arrival, output, render)?;
    give_back(names, around);
    Ok(at)
}

// What is below a widget is entered, and its render node is planned, if it has one.
#[cycle(entering)]
fn enter_shown<L: Ledger>(
    from: &WalkSource<'_>,
    phase: Phase,
    left: u32,
    names: &mut NameValues,
    place: &EnteredPlace<'_, '_>,
    arrival: &Arrival,
    opening: &Opening,
    t: &mut ElementTree,
    r: &mut RenderTree,
    g: &mut Registry,
    walk: &mut BuildWalk,
    builds: &mut Steps<L>,
) -> Result<Vec<Handle>, FrameFault>
    requires ready { IsReadyToWalk (declared_by from.now) (program_of from.now).nodes walk.old.entered t.old.tree r.old.tree g.old }
    requires spots { AreTypedSpots (declared_by from.now) t.old.tree walk.old.spots.items }
    requires now { map type_of names.old.now.items ≡ (declared_by from.now).inherited }
    requires was { map type_of names.old.was.items ≡ (declared_by from.now).inherited }
    requires widget { IsTypedWidget (declared_by from.now) (shared arrival.now.widget) }
    requires partner { IfSome opening.now.partner (IsTypedElement (declared_by from.now) t.old.tree) }
    requires given { AreTypedWidgets (declared_by from.now) (widgets_of (given_to (shared arrival.now.widget) opening.now.given)) }
    ensures shown { IfOk result (λ hs. (f : LastFrame) → IsSince (program_of from.now).defaults f t.old.tree r.old.tree g.old → (values : List Value) → values ≡ names.old.now.items → (before : Progress) (outer : ℕ) → outer ≡ suc left
        → (o : IsOpened f (basis_of from.now f) values names.old.was.items (plain_arrival f arrival.now) before (progress_of f walk.old g.old t.old.tree) t.old.tree r.old.tree opening.now)
        → IsEntered (basis_of from.now f) f.pasts (phase_of phase) outer values f.scrolled (place_of place.now) (plain_arrival f arrival.now) before (progress_of f walk.new g.new t.new.tree)
        t.new.tree r.new.tree (plans_of walk.old) (with_element (element_entry (place_of place.now) opening.now.at o.element hs.items) (plans_of walk.new)) opening.now.at) }
    ensures fault { IfErr result (λ e. IfSome (fault_of e) (λ x. (f : LastFrame) → IsSince (program_of from.now).defaults f t.old.tree r.old.tree g.old → IfSome opening.now.partner (IsOld f names.old.was.items)
        → (o : OpeningOf) → o.partner ≡ plain_at_any f.scrolled f.elements opening.now.partner → o.given ≡ given_to (shared arrival.now.widget) opening.now.given
        → entered_below (reenter (basis_of from.now f) f.pasts (phase_of phase) left) (phase_of phase) names.old.now.items (shared arrival.now.widget) o (progress_of f walk.old g.old t.old.tree) ≡ stops x)) }
    ensures builds { OnOk result ((f : LastFrame) → IsSince (program_of from.now).defaults f t.old.tree r.old.tree g.old → IfSome opening.now.partner (IsOld f names.old.was.items)
        → (o : OpeningOf) → o.partner ≡ plain_at_any f.scrolled f.elements opening.now.partner → o.given ≡ given_to (shared arrival.now.widget) opening.now.given
        → builds.new ≡ builds.old + builds_below (reenter (basis_of from.now f) f.pasts (phase_of phase) left) (builds_from (basis_of from.now f) f.pasts (phase_of phase) left) (phase_of phase) names.old.now.items (shared arrival.now.widget) o (progress_of f walk.old g.old t.old.tree)) }
    ensures builds_at_fault { IfErr result (λ e. IfSome (fault_of e) (λ x. (f : LastFrame) → IsSince (program_of from.now).defaults f t.old.tree r.old.tree g.old → IfSome opening.now.partner (IsOld f names.old.was.items)
        → (o : OpeningOf) → o.partner ≡ plain_at_any f.scrolled f.elements opening.now.partner → o.given ≡ given_to (shared arrival.now.widget) opening.now.given
        → builds.new ≡ builds.old + builds_below (reenter (basis_of from.now f) f.pasts (phase_of phase) left) (builds_from (basis_of from.now f) f.pasts (phase_of phase) left) (phase_of phase) names.old.now.items (shared arrival.now.widget) o (progress_of f walk.old g.old t.old.tree))) }
    ensures since { OnOk result ((f : LastFrame) → IsSince (program_of from.now).defaults f t.old.tree r.old.tree g.old → IsSince (program_of from.now).defaults f t.new.tree r.new.tree g.new) }
    ensures keeps { OnOk result (Keeps t.old.tree t.new.tree) }
    ensures keeps_drawn { OnOk result (Keeps r.old.tree r.new.tree) }
    ensures makes_drawn { OnOk result (MakesNodes (made_count t.old.tree) (made_count t.new.tree) r.old.tree r.new.tree) }
    ensures ready { OnOk result (IsReadyToWalk (declared_by from.now) (program_of from.now).nodes walk.new.entered t.new.tree r.new.tree g.new) }
    ensures spots { OnOk result (AreTypedSpots (declared_by from.now) t.new.tree walk.new.spots.items) }
    ensures old_spots { OnOk result ((f : LastFrame) → IsSince (program_of from.now).defaults f t.old.tree r.old.tree g.old → IfSome opening.now.partner (IsOld f names.old.was.items)
        → AreOldSpots f walk.old.spots.items → AreOldSpots f walk.new.spots.items) }
    ensures none_waits { OnOk result (phase_of phase ≡ second → walk.new.spots.items ≡ walk.old.spots.items) }
    ensures held { OnOk result ((hs : List Handle) → AreHeld g.old t.old.tree (hs ++ planned walk.old.elements.items) → AreHeld g.new t.new.tree (hs ++ planned walk.new.elements.items)) }
    ensures names { OnOk result ((names.new.now.items ≡ names.old.now.items) × (names.new.was.items ≡ names.old.was.items)) }
    ensures scale { r.new.scale ≡ r.old.scale }
{
    widgets_are_entered();
    forests_are_walked_in_turn();
    let role = render_role_of(&arrival.widget.kind);
    let told = told_here(place, arrival.place);
    let k = match opening.render {
        None => {
            let told = told_below(place, &role, &told);
            let telling = Some(&told);
            let through = EnteredPlace {
                parent: Some(opening.at),
                above: place.above,
                role: place.role,
                told: telling,
            };
            return enter_below(
                from, phase, left, names, &through, arrival, opening, t, r, g, walk, builds,
            );
        }
        Some(k) => k,
    };
    let under = EnteredPlace {
        parent: Some(opening.at),
        above: Some(k),
        role: &role,
        told: None,
    };
    let tops = replace(&mut walk.tops, Vec::new(from.alloc));
    let children = enter_below(
        from, phase, left, names, &under, arrival, opening, t, r, g, walk, builds,
    )?;
    plan_render(walk, k, place.above, tops, &arrival.widget, told)?;
    Ok(children)
}

// The child widgets of a widget are entered, or put off.
#[cycle(entering)]
fn enter_below<L: Ledger>(
    from: &WalkSource<'_>,
    phase: Phase,
    left: u32,
    names: &mut NameValues,
    place: &EnteredPlace<'_, '_>,
    arrival: &Arrival,
    opening: &Opening,
    t: &mut ElementTree,
    r: &mut RenderTree,
    g: &mut Registry,
    walk: &mut BuildWalk,
    builds: &mut Steps<L>,
) -> Result<Vec<Handle>, FrameFault>
    requires ready { IsReadyToWalk (declared_by from.now) (program_of from.now).nodes walk.old.entered t.old.tree r.old.tree g.old }
    requires spots { AreTypedSpots (declared_by from.now) t.old.tree walk.old.spots.items }
    requires now { map type_of names.old.now.items ≡ (declared_by from.now).inherited }
    requires was { map type_of names.old.was.items ≡ (declared_by from.now).inherited }
    requires widget { IsTypedWidget (declared_by from.now) (shared arrival.now.widget) }
    requires partner { IfSome opening.now.partner (IsTypedElement (declared_by from.now) t.old.tree) }
    requires given { AreTypedWidgets (declared_by from.now) (widgets_of (given_to (shared arrival.now.widget) opening.now.given)) }
    ensures entered { IfOk result (λ hs. (f : LastFrame) → IsSince (program_of from.now).defaults f t.old.tree r.old.tree g.old → IfSome opening.now.partner (IsOld f names.old.was.items)
        → (o : OpeningOf) → o.partner ≡ plain_at_any f.scrolled f.elements opening.now.partner → o.given ≡ given_to (shared arrival.now.widget) opening.now.given
        → IsEnteredBelow (basis_of from.now f) f.pasts (phase_of phase) left names.old.now.items f.scrolled (place_of place.now) (shared arrival.now.widget) o (progress_of f walk.old g.old t.old.tree) (progress_of f walk.new g.new t.new.tree)
        t.new.tree r.new.tree (plans_of walk.old) (half_of (phase_of phase) (shared arrival.now.widget) walk.old walk.new) hs.items) }
    ensures waits { OnOk result (waits (phase_of phase) (build_role_of (look_of (shared arrival.now.widget))) ≡ true
        → ((plans_of walk.new).lists ≡ (plans_of walk.old).lists ++ opening.now.at ∷ [])
        × ((plans_of walk.new).waiting ≡ (plans_of walk.old).waiting ++ list_for (number_or (number_at t.old.tree opening.now.at)) left names.old.now.items (shared arrival.now.widget) ∷ [])) }
    ensures fault { IfErr result (λ e. IfSome (fault_of e) (λ x. (f : LastFrame) → IsSince (program_of from.now).defaults f t.old.tree r.old.tree g.old → IfSome opening.now.partner (IsOld f names.old.was.items)
        → (o : OpeningOf) → o.partner ≡ plain_at_any f.scrolled f.elements opening.now.partner → o.given ≡ given_to (shared arrival.now.widget) opening.now.given
        → entered_below (reenter (basis_of from.now f) f.pasts (phase_of phase) left) (phase_of phase) names.old.now.items (shared arrival.now.widget) o (progress_of f walk.old g.old t.old.tree) ≡ stops x)) }
    ensures builds { OnOk result ((f : LastFrame) → IsSince (program_of from.now).defaults f t.old.tree r.old.tree g.old → IfSome opening.now.partner (IsOld f names.old.was.items)
        → (o : OpeningOf) → o.partner ≡ plain_at_any f.scrolled f.elements opening.now.partner → o.given ≡ given_to (shared arrival.now.widget) opening.now.given
        → builds.new ≡ builds.old + builds_below (reenter (basis_of from.now f) f.pasts (phase_of phase) left) (builds_from (basis_of from.now f) f.pasts (phase_of phase) left) (phase_of phase) names.old.now.items (shared arrival.now.widget) o (progress_of f walk.old g.old t.old.tree)) }
    ensures builds_at_fault { IfErr result (λ e. IfSome (fault_of e) (λ x. (f : LastFrame) → IsSince (program_of from.now).defaults f t.old.tree r.old.tree g.old → IfSome opening.now.partner (IsOld f names.old.was.items)
        → (o : OpeningOf) → o.partner ≡ plain_at_any f.scrolled f.elements opening.now.partner → o.given ≡ given_to (shared arrival.now.widget) opening.now.given
        → builds.new ≡ builds.old + builds_below (reenter (basis_of from.now f) f.pasts (phase_of phase) left) (builds_from (basis_of from.now f) f.pasts (phase_of phase) left) (phase_of phase) names.old.now.items (shared arrival.now.widget) o (progress_of f walk.old g.old t.old.tree))) }
    ensures since { OnOk result ((f : LastFrame) → IsSince (program_of from.now).defaults f t.old.tree r.old.tree g.old → IsSince (program_of from.now).defaults f t.new.tree r.new.tree g.new) }
    ensures keeps { OnOk result (Keeps t.old.tree t.new.tree) }
    ensures keeps_drawn { OnOk result (Keeps r.old.tree r.new.tree) }
    ensures makes_drawn { OnOk result (MakesNodes (made_count t.old.tree) (made_count t.new.tree) r.old.tree r.new.tree) }
    ensures ready { OnOk result (IsReadyToWalk (declared_by from.now) (program_of from.now).nodes walk.new.entered t.new.tree r.new.tree g.new) }
    ensures spots { OnOk result (AreTypedSpots (declared_by from.now) t.new.tree walk.new.spots.items) }
    ensures old_spots { OnOk result ((f : LastFrame) → IsSince (program_of from.now).defaults f t.old.tree r.old.tree g.old → IfSome opening.now.partner (IsOld f names.old.was.items)
        → AreOldSpots f walk.old.spots.items → AreOldSpots f walk.new.spots.items) }
    ensures none_waits { OnOk result (phase_of phase ≡ second → walk.new.spots.items ≡ walk.old.spots.items) }
    ensures held { OnOk result ((hs : List Handle) → AreHeld g.old t.old.tree (hs ++ planned walk.old.elements.items) → AreHeld g.new t.new.tree (hs ++ planned walk.new.elements.items)) }
    ensures names { OnOk result ((names.new.now.items ≡ names.old.now.items) × (names.new.was.items ≡ names.old.was.items)) }
    ensures scale { r.new.scale ≡ r.old.scale }
{
    widgets_are_entered_below();
    widgets_stop();
    builds_are_counted_in_turn();
    kept_elements_are_known();
    kept_elements_stay();
    Tree::<Element>::keep_laws();
    Tree::<Element>::walk_laws();
    // Tells the proof that this is a tree.
    let _ = t.root();
    if is_put_off(phase, &arrival.widget) {
        return Ok(wait(from.alloc, walk, opening, left, names, t, &arrival.widget)?);
    }
    let given = given_to(&arrival.widget, &opening.given);
    let arriving = arrivals(from.alloc, t, opening.partner, given)?;
    let outers = go_below(from.alloc, names, &arrival.widget, t, opening.partner)?;
    let children = enter_all(
        from,
        phase,
        left,
        names,
        place,
        arrived(&arriving),
        t,
        r,
        g,
        walk,
        builds,
    )?;
    go_back(names, outers);
    Ok(children)
}

/// Enters widgets, one after another.
#[cycle(entering)]
pub(crate) fn enter_all<L: Ledger>(
    from: &WalkSource<'_>,
    phase: Phase,
    left: u32,
    names: &mut NameValues,
    place: &EnteredPlace<'_, '_>,
    arriving: &[Arrival],
    t: &mut ElementTree,
    r: &mut RenderTree,
    g: &mut Registry,
    walk: &mut BuildWalk,
    builds: &mut Steps<L>,
) -> Result<Vec<Handle>, FrameFault>
    requires ready { IsReadyToWalk (declared_by from.now) (program_of from.now).nodes walk.old.entered t.old.tree r.old.tree g.old }
    requires spots { AreTypedSpots (declared_by from.now) t.old.tree walk.old.spots.items }
    requires now { map type_of names.old.now.items ≡ (declared_by from.now).inherited }
    requires was { map type_of names.old.was.items ≡ (declared_by from.now).inherited }
    requires arriving { All (IsTypedArrival (declared_by from.now) t.old.tree) arriving.now }
    ensures entered { IfOk result (λ hs. (f : LastFrame) → IsSince (program_of from.now).defaults f t.old.tree r.old.tree g.old → All (λ a. IfSome a.beside (IsOld f names.old.was.items)) arriving.now
        → AreEntered (basis_of from.now f) f.pasts (phase_of phase) left names.old.now.items f.scrolled (place_of place.now) (map (plain_arrival f) arriving.now) (progress_of f walk.old g.old t.old.tree) (progress_of f walk.new g.new t.new.tree)
        t.new.tree r.new.tree (plans_of walk.old) (plans_of walk.new) hs.items) }
    ensures fault { IfErr result (λ e. IfSome (fault_of e) (λ x. (f : LastFrame) → IsSince (program_of from.now).defaults f t.old.tree r.old.tree g.old → All (λ a. IfSome a.beside (IsOld f names.old.was.items)) arriving.now
        → each (reenter (basis_of from.now f) f.pasts (phase_of phase) left names.old.now.items) (map (plain_arrival f) arriving.now) (progress_of f walk.old g.old t.old.tree) ≡ stops x)) }
    ensures builds { OnOk result ((f : LastFrame) → IsSince (program_of from.now).defaults f t.old.tree r.old.tree g.old → All (λ a. IfSome a.beside (IsOld f names.old.was.items)) arriving.now
        → builds.new ≡ builds.old + builds_by_each (reenter (basis_of from.now f) f.pasts (phase_of phase) left names.old.now.items) (builds_from (basis_of from.now f) f.pasts (phase_of phase) left names.old.now.items) (map (plain_arrival f) arriving.now) (progress_of f walk.old g.old t.old.tree)) }
    ensures builds_at_fault { IfErr result (λ e. IfSome (fault_of e) (λ x. (f : LastFrame) → IsSince (program_of from.now).defaults f t.old.tree r.old.tree g.old → All (λ a. IfSome a.beside (IsOld f names.old.was.items)) arriving.now
        → builds.new ≡ builds.old + builds_by_each (reenter (basis_of from.now f) f.pasts (phase_of phase) left names.old.now.items) (builds_from (basis_of from.now f) f.pasts (phase_of phase) left names.old.now.items) (map (plain_arrival f) arriving.now) (progress_of f walk.old g.old t.old.tree))) }
    ensures since { OnOk result ((f : LastFrame) → IsSince (program_of from.now).defaults f t.old.tree r.old.tree g.old → IsSince (program_of from.now).defaults f t.new.tree r.new.tree g.new) }
    ensures keeps { OnOk result (Keeps t.old.tree t.new.tree) }
    ensures keeps_drawn { OnOk result (Keeps r.old.tree r.new.tree) }
    ensures makes_drawn { OnOk result (MakesNodes (made_count t.old.tree) (made_count t.new.tree) r.old.tree r.new.tree) }
    ensures ready { OnOk result (IsReadyToWalk (declared_by from.now) (program_of from.now).nodes walk.new.entered t.new.tree r.new.tree g.new) }
    ensures spots { OnOk result (AreTypedSpots (declared_by from.now) t.new.tree walk.new.spots.items) }
    ensures old_spots { OnOk result ((f : LastFrame) → IsSince (program_of from.now).defaults f t.old.tree r.old.tree g.old → All (λ a. IfSome a.beside (IsOld f names.old.was.items)) arriving.now
        → AreOldSpots f walk.old.spots.items → AreOldSpots f walk.new.spots.items) }
    ensures none_waits { OnOk result (phase_of phase ≡ second → walk.new.spots.items ≡ walk.old.spots.items) }
    ensures held { OnOk result ((hs : List Handle) → AreHeld g.old t.old.tree (hs ++ planned walk.old.elements.items) → AreHeld g.new t.new.tree (hs ++ planned walk.new.elements.items)) }
    ensures names { OnOk result ((names.new.now.items ≡ names.old.now.items) × (names.new.was.items ≡ names.old.was.items)) }
    ensures scale { r.new.scale ≡ r.old.scale }
{
    widgets_are_entered_in_turn();
    widgets_stop();
    builds_are_counted_in_turn();
    Tree::<Element>::keep_laws();
    Tree::<RenderObject>::keep_laws();
    Tree::<Element>::walk_laws();
    kept_elements_stay();
    // Tells the proof that this is a tree.
    let _ = t.root();
    let mut handles = Vec::with_capacity(from.alloc, arriving.len())?;
    for i in 0..arriving.len() {
        let handle = enter(
            from,
            phase,
            left,
            names,
            place,
            &arriving[i],
            t,
            r,
            g,
            walk,
            builds,
        )?;
        handles.push_reserved(handle);
    }
    Ok(handles)
}
