// The walk over the widgets of a tree, in preorder (`Element.inflateWidget`, `Element.update`).
ghost use Rattle.std.specs.Prelude.{◌≡◌, ℕ, List, map, IfOk, OnOk, IfErr, IfSome};
ghost use Rattle.std.specs.List.{All};
ghost use Rattle.fx_expr.specs.declared.values.Value.{Value as FieldValue};
ghost use Rattle.fx_expr.specs.Value.{type_of};
ghost use Rattle.widget_model.specs.Plain.{widgets_of};
ghost use Rattle.widget_model.specs.Typed.{IsTypedWidget, AreTypedWidgets};
ghost use Rattle.widget_model.specs.View.{plain_of, look_in, shared};
ghost use Rattle.reconcile.specs.Keys.{NoKeyRepeats};
ghost use Rattle.plain_tree.specs.PlainNode.{widget_of};
ghost use Rattle.build_form.specs.Step.{stops, gives, each};
ghost use Rattle.build_form.specs.BuildRole.{build_role_of};
ghost use Rattle.build_form.specs.Partner.{widgets_had};
ghost use Rattle.build_form.specs.Entering.{waits, scroll_for, values_below, entered_below, opening, enter};
ghost use Rattle.build_form.specs.FaultView.{fault_of};
ghost use Rattle.build_form.specs.Lent.{lent};
ghost use Rattle.plain_build.specs.PartnerView.{held, plain_arrival};
ghost use Rattle.plain_build.specs.WalkView.{progress_of};
ghost use Rattle.plain_build.specs.BasisView.{basis_of, declared_by, phase_of};
ghost use Rattle.build_form.specs.WellBuilt.{IsWellBuilt, IsTypedArrival, AreTypedHolders, AreWaiting, AreBelow};

use crate::basis::{Basis, Phase};
use crate::opening::open;
use crate::partners::{Arrival, arrivals};
use crate::providing::{provide_below, restore};
use crate::steps::wait;
use crate::walk::BuildWalk;
use build_form::{FrameFault, build_role_of};
use fx_expr::Value;
use fx_outside::Steps;
use plain_tree::Node;
use std::rc::Rc;
use std::sync::ledger::Ledger;
use widget_model::Widget;

// Whether a widget's children are put off.
fn is_put_off(phase: Phase, widget: &Widget) -> bool
    ensures { result ≡ waits (phase_of phase) (build_role_of (look_in widget.now.kind)) }
{
    match phase {
        Phase::First => build_role_of(&widget.kind).is_lazy(),
        Phase::Second => false,
    }
}

// How far a node is scrolled that goes on from an old one.
fn scroll_for(partner: Option<&Node>) -> u64
    ensures { result ≡ scroll_for (lent partner.entry) }
{
    match partner {
        None => 0,
        Some(node) => node.scroll,
    }
}

/// Enters a widget, and then what is below it, where so many depths are left and the inherited names have these values.
/// In the first phase no child of a lazy list is entered.
#[cycle(entering)]
pub(crate) fn enter<'a, L: Ledger>(
    from: &Basis<'a>,
    phase: Phase,
    left: u32,
    values: &mut [Value],
    arrival: &Arrival<'a>,
    walk: &mut BuildWalk<'a>,
    builds: &mut Steps<L>,
) -> Result<Node, FrameFault>
    requires holders { AreTypedHolders (declared_by from.now) (λ k. held from.now.holders k) }
    requires values { map type_of values.old ≡ (declared_by from.now).inherited }
    requires waiting { AreWaiting (declared_by from.now) (map lent walk.old.waiting.items) }
    requires arrival { IsTypedArrival (declared_by from.now) (plain_arrival arrival.now) }
    ensures ok { IfOk result (λ n. enter (basis_of from.now) (phase_of phase) left values.old (plain_arrival arrival.now) (progress_of walk.old) ≡ gives n (progress_of walk.new)) }
    ensures fault { IfErr result (λ f. IfSome (fault_of f) (λ g. enter (basis_of from.now) (phase_of phase) left values.old (plain_arrival arrival.now) (progress_of walk.old) ≡ stops g)) }
    ensures values { OnOk result (values.new ≡ values.old) }
    ensures waiting { OnOk result (AreWaiting (declared_by from.now) (map lent walk.new.waiting.items)) }
    ensures built { IfOk result (IsWellBuilt (declared_by from.now)) }
    ensures widget { IfOk result (λ n. widget_of n ≡ shared arrival.now.widget) }
{
    if left == 0 {
        return Err(FrameFault::TreeTooLarge);
    }
    let opening = open(from, values, arrival, walk, builds)?;
    let children = enter_below(
        from,
        phase,
        left - 1,
        values,
        &arrival.widget,
        opening.partner,
        opening.given.as_slice(),
        walk,
        builds,
    )?;
    Ok(Node {
        number: opening.number,
        widget: Rc::clone(&arrival.widget)?,
        fields: opening.fields,
        scroll: scroll_for(opening.partner),
        index: arrival.place,
        children,
    })
}

// The child widgets of a widget are entered, or put off.
#[cycle(entering)]
fn enter_below<'a, L: Ledger>(
    from: &Basis<'a>,
    phase: Phase,
    left: u32,
    values: &mut [Value],
    widget: &Widget,
    partner: Option<&'a Node>,
    given: &[Rc<Widget>],
    walk: &mut BuildWalk<'a>,
    builds: &mut Steps<L>,
) -> Result<Vec<Node>, FrameFault>
    requires holders { AreTypedHolders (declared_by from.now) (λ k. held from.now.holders k) }
    requires values { map type_of values.old ≡ (declared_by from.now).inherited }
    requires waiting { AreWaiting (declared_by from.now) (map lent walk.old.waiting.items) }
    requires widget { IsTypedWidget (declared_by from.now) (plain_of widget.now) }
    requires partner { IfSome (lent partner) (IsWellBuilt (declared_by from.now)) }
    requires given { AreTypedWidgets (declared_by from.now) (widgets_of (map shared given.now)) }
    ensures ok { IfOk result (λ ns. (n : ℕ) → (fields : List FieldValue) → entered_below (enter (basis_of from.now) (phase_of phase) left) (phase_of phase) values.old (plain_of widget.now) (opening (lent partner.entry) n fields (map shared given.now)) (progress_of walk.old) ≡ gives ns.items (progress_of walk.new)) }
    ensures fault { IfErr result (λ f. IfSome (fault_of f) (λ g. (n : ℕ) → (fields : List FieldValue) → entered_below (enter (basis_of from.now) (phase_of phase) left) (phase_of phase) values.old (plain_of widget.now) (opening (lent partner.entry) n fields (map shared given.now)) (progress_of walk.old) ≡ stops g)) }
    ensures values { OnOk result (values.new ≡ values.old) }
    ensures waiting { OnOk result (AreWaiting (declared_by from.now) (map lent walk.new.waiting.items)) }
    ensures built { IfOk result (λ ns. All (IsWellBuilt (declared_by from.now)) ns.items) }
    ensures below { IfOk result (λ ns. AreBelow (waits (phase_of phase) (build_role_of (look_in widget.now.kind))) (map shared given.now) ns.items) }
{
    if is_put_off(phase, widget) {
        return Ok(wait(from.alloc, walk, partner)?);
    }
    let arriving = arrivals(from.alloc, partner, given)?;
    enter_under(
        from,
        phase,
        left,
        values,
        widget,
        arriving.as_slice(),
        walk,
        builds,
    )
}

/// Enters widgets below a widget, which may give a value to an inherited name there.
#[cycle(entering)]
pub(crate) fn enter_under<'a, L: Ledger>(
    from: &Basis<'a>,
    phase: Phase,
    left: u32,
    values: &mut [Value],
    widget: &Widget,
    arriving: &[Arrival<'a>],
    walk: &mut BuildWalk<'a>,
    builds: &mut Steps<L>,
) -> Result<Vec<Node>, FrameFault>
    requires holders { AreTypedHolders (declared_by from.now) (λ k. held from.now.holders k) }
    requires values { map type_of values.old ≡ (declared_by from.now).inherited }
    requires waiting { AreWaiting (declared_by from.now) (map lent walk.old.waiting.items) }
    requires widget { IsTypedWidget (declared_by from.now) (plain_of widget.now) }
    requires arriving { All (IsTypedArrival (declared_by from.now)) (map plain_arrival arriving.now) }
    ensures ok { IfOk result (λ ns. each (enter (basis_of from.now) (phase_of phase) left (values_below (plain_of widget.now) values.old)) (map plain_arrival arriving.now) (progress_of walk.old) ≡ gives ns.items (progress_of walk.new)) }
    ensures fault { IfErr result (λ f. IfSome (fault_of f) (λ g. each (enter (basis_of from.now) (phase_of phase) left (values_below (plain_of widget.now) values.old)) (map plain_arrival arriving.now) (progress_of walk.old) ≡ stops g)) }
    ensures values { OnOk result (values.new ≡ values.old) }
    ensures waiting { OnOk result (AreWaiting (declared_by from.now) (map lent walk.new.waiting.items)) }
    ensures built { IfOk result (λ ns. All (IsWellBuilt (declared_by from.now)) ns.items) }
    ensures widgets { IfOk result (λ ns. map widget_of ns.items ≡ map (λ a. shared a.widget) arriving.now) }
{
    let outer = provide_below(values, widget)?;
    let nodes = enter_all(from, phase, left, values, arriving, walk, builds)?;
    restore(values, outer);
    Ok(nodes)
}

// Enters widgets, one after another.
#[cycle(entering)]
fn enter_all<'a, L: Ledger>(
    from: &Basis<'a>,
    phase: Phase,
    left: u32,
    values: &mut [Value],
    arriving: &[Arrival<'a>],
    walk: &mut BuildWalk<'a>,
    builds: &mut Steps<L>,
) -> Result<Vec<Node>, FrameFault>
    requires holders { AreTypedHolders (declared_by from.now) (λ k. held from.now.holders k) }
    requires values { map type_of values.old ≡ (declared_by from.now).inherited }
    requires waiting { AreWaiting (declared_by from.now) (map lent walk.old.waiting.items) }
    requires arriving { All (IsTypedArrival (declared_by from.now)) (map plain_arrival arriving.now) }
    ensures ok { IfOk result (λ ns. each (enter (basis_of from.now) (phase_of phase) left values.old) (map plain_arrival arriving.now) (progress_of walk.old) ≡ gives ns.items (progress_of walk.new)) }
    ensures fault { IfErr result (λ f. IfSome (fault_of f) (λ g. each (enter (basis_of from.now) (phase_of phase) left values.old) (map plain_arrival arriving.now) (progress_of walk.old) ≡ stops g)) }
    ensures values { OnOk result (values.new ≡ values.old) }
    ensures waiting { OnOk result (AreWaiting (declared_by from.now) (map lent walk.new.waiting.items)) }
    ensures built { IfOk result (λ ns. All (IsWellBuilt (declared_by from.now)) ns.items) }
    ensures widgets { IfOk result (λ ns. map widget_of ns.items ≡ map (λ a. shared a.widget) arriving.now) }
{
    let mut nodes = Vec::new(from.alloc);
    for i in 0..arriving.len() {
        let node = enter(from, phase, left, values, &arriving[i], walk, builds)?;
        nodes.push(node)?;
    }
    Ok(nodes)
}
