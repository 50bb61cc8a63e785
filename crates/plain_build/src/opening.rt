// What happens where a widget is entered, before what is below it.
ghost use Rattle.std.specs.Prelude.{◌≡◌, ◌<◌, map, IfOk, OnOk, IfErr, IfSome, IsTrue};
ghost use Rattle.fx_expr.specs.Value.{type_of};
ghost use Rattle.reconcile.specs.Keys.{NoKeyRepeats};
ghost use Rattle.widget_model.specs.Plain.{widgets_of};
ghost use Rattle.widget_model.specs.Typed.{sorts_of, AreTypedWidgets};
ghost use Rattle.widget_model.specs.Update.{same_type};
ghost use Rattle.widget_model.specs.View.{plain_of, look_in, shared};
ghost use Rattle.plain_tree.specs.PlainNode.{widget_of};
ghost use Rattle.build_form.specs.Step.{stops, gives};
ghost use Rattle.build_form.specs.BuildRole.{build_role_of};
ghost use Rattle.build_form.specs.Partner.{candidate, partner_of};
ghost use Rattle.build_form.specs.Entering.{opened};
ghost use Rattle.build_form.specs.FaultView.{fault_of};
ghost use Rattle.build_form.specs.Lent.{lent};
ghost use Rattle.plain_build.specs.PartnerView.{held, plain_arrival};
ghost use Rattle.plain_build.specs.WalkView.{progress_of};
ghost use Rattle.plain_build.specs.BasisView.{basis_of, declared_by};
ghost use Rattle.plain_build.specs.OpeningView.{plain_opening};
ghost use Rattle.build_form.specs.WellBuilt.{FitFields, FitBelow, IsWellBuilt, IsTypedArrival, AreTypedHolders};

use crate::basis::Basis;
use crate::holders::holder_of;
use crate::partners::Arrival;
use crate::program::{fields_for, given};
use crate::steps::{count, keep_apart, meet};
use crate::walk::BuildWalk;
use build_form::FrameFault;
use fx_expr::{Value, ValueList};
use fx_outside::Steps;
use plain_tree::Node;
use std::rc::Rc;
use std::sync::ledger::Ledger;
use widget_keys::Key;
use widget_model::{Widget, same_type};

/// What is known of a node before anything below it is entered: the old node that it goes on from, its number, its fields
/// and its child widgets.
#[derive(Drop)]
pub(crate) struct Opening<'a> {
    pub(crate) partner: Option<&'a Node>,
    pub(crate) number: u64,
    pub(crate) fields: ValueList,
    pub(crate) given: Vec<Rc<Widget>>,
}

// The node that a widget may go on from.
fn candidate<'a>(from: &Basis<'a>, arrival: &Arrival<'a>) -> Option<&'a Node>
    ensures { lent result ≡ candidate arrival.now.widget.value.key (λ k. held from.now.holders k) (lent arrival.now.beside) }
{
    match &arrival.widget.key {
        Key::None | Key::Local(_) => arrival.beside,
        Key::Global(key) => holder_of(&from.holders, key),
    }
}

// The node that it goes on from.
fn partner_of<'a>(from: &Basis<'a>, arrival: &Arrival<'a>) -> Option<&'a Node>
    requires holders { AreTypedHolders (declared_by from.now) (λ k. held from.now.holders k) }
    requires arrival { IsTypedArrival (declared_by from.now) (plain_arrival arrival.now) }
    ensures partner { lent result ≡ partner_of (λ k. held from.now.holders k) (plain_arrival arrival.now) }
    ensures typed { IfSome (lent result) (λ n. IsWellBuilt (declared_by from.now) n × IsTrue (same_type (widget_of n) (shared arrival.now.widget))) }
{
    let node = candidate(from, arrival)?;
    if same_type(&node.widget, &arrival.widget) {
        return Some(node);
    }
    None
}

/// Enters a widget, as far as it goes before what is below it: there isn't a node too many, its global key wasn't met
/// before, its output isn't too large, and its children have different keys.
pub(crate) fn open<'a, L: Ledger>(
    from: &Basis<'a>,
    values: &[Value],
    arrival: &Arrival<'a>,
    walk: &mut BuildWalk<'a>,
    builds: &mut Steps<L>,
) -> Result<Opening<'a>, FrameFault>
    requires holders { AreTypedHolders (declared_by from.now) (λ k. held from.now.holders k) }
    requires values { map type_of values.now ≡ (declared_by from.now).inherited }
    requires arrival { IsTypedArrival (declared_by from.now) (plain_arrival arrival.now) }
    ensures ok { IfOk result (λ o. opened (basis_of from.now) values.now (plain_arrival arrival.now) (progress_of walk.old) ≡ gives (plain_opening o) (progress_of walk.new)) }
    ensures fault { IfErr result (λ f. IfSome (fault_of f) (λ g. opened (basis_of from.now) values.now (plain_arrival arrival.now) (progress_of walk.old) ≡ stops g)) }
    ensures waiting { OnOk result (walk.new.waiting ≡ walk.old.waiting) }
    ensures partner { IfOk result (λ o. IfSome (lent o.partner) (IsWellBuilt (declared_by from.now))) }
    ensures fields { IfOk result (λ o. FitFields (declared_by from.now) (build_role_of (look_in arrival.now.widget.value.kind)) o.fields) }
    ensures keys { IfOk result (λ o. NoKeyRepeats (map shared o.given.items)) }
    ensures typed { IfOk result (λ o. AreTypedWidgets (declared_by from.now) (widgets_of (map shared o.given.items))) }
    ensures fits { IfOk result (λ o. FitBelow (declared_by from.now) (look_in arrival.now.widget.value.kind) (build_role_of (look_in arrival.now.widget.value.kind)) (sorts_of (declared_by from.now) (widgets_of (map shared o.given.items)))) }
{
    if walk.entered >= from.checked.scale().nodes {
        return Err(FrameFault::TreeTooLarge);
    }
    let widget: &Widget = &arrival.widget;
    meet(&widget.key, walk)?;
    let partner = partner_of(from, arrival);
    let number = count(walk, partner);
    let fields = fields_for(from.alloc, from.checked, widget, partner)?;
    let widgets = given(
        from.alloc,
        from.checked,
        widget,
        values,
        fields.get(),
        number,
        builds,
    )?;
    keep_apart(from.alloc, widgets.as_slice(), walk)?;
    Ok(Opening {
        partner,
        number,
        fields,
        given: widgets,
    })
}
