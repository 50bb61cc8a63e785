// The second phase of a build, where lazy lists wait for their items.
ghost use Rattle.std.specs.Prelude.{◌≡◌, ◌≤◌, ◌^◌, OnOk, IfErr, IfSome, map};
ghost use Rattle.fx_expr.specs.Value.{type_of};
ghost use Rattle.delegates.specs.Meaning.{Meaning};
ghost use Rattle.program_check.specs.CheckedView.{plain_checked};
ghost use Rattle.program_check.specs.WellChecked.{scale_of};
ghost use Rattle.plain_tree.specs.PlainNode.{count_of};
ghost use Rattle.build_form.specs.Step.{stops, gives};
ghost use Rattle.build_form.specs.FullBuild.{live_ranges, second_phase};
ghost use Rattle.build_form.specs.Program.{default_values};
ghost use Rattle.build_form.specs.FaultView.{fault_of};
ghost use Rattle.build_form.specs.Lent.{lent};
ghost use Rattle.plain_build.specs.PartnerView.{held};
ghost use Rattle.plain_build.specs.WalkView.{progress_of};
ghost use Rattle.plain_build.specs.BasisView.{basis_of, declared_by};
ghost use Rattle.build_form.specs.ScreenView.{screen_on};
ghost use Rattle.build_form.specs.WellBuilt.{IsWellBuilt, AreTypedHolders, AreWaiting};
ghost use Rattle.delegates.specs.Table.{meant_in};

use crate::basis::{Basis, DEPTH_LIMIT};
use crate::filling::fill;
use crate::ranges::ranges_in;
use crate::walk::BuildWalk;
use build_form::FrameFault;
use delegates::{Delegate, DelegateTable};
use fx_expr::Value;
use fx_geom::Size;
use fx_outside::Steps;
use plain_tree::Node;
use std::sync::ledger::Ledger;

/// Gives the first phase's tree the items of its lazy lists, if any wait: the tree is laid out in the view, and the children
/// that are near what is seen are entered.
pub(crate) fn second_phase<'a, L: Ledger>(
    from: &Basis<'a>,
    delegates: &DelegateTable,
    view: Size,
    values: &mut [Value],
    tree: &mut Node,
    walk: &mut BuildWalk<'a>,
    builds: &mut Steps<L>,
) -> Result<(), FrameFault>
    requires holders { AreTypedHolders (declared_by from.now) (λ k. held from.now.holders k) }
    requires values { values.old ≡ default_values (plain_checked from.now.checked.now) }
    requires typed { map type_of values.old ≡ (declared_by from.now).inherited }
    requires waiting { AreWaiting (declared_by from.now) (map lent walk.old.waiting.items) }
    requires tree { IsWellBuilt (declared_by from.now) tree.old }
    requires few { count_of tree.old ≤ 2 ^ 44 }
    ensures ok { OnOk result (second_phase (basis_of from.now) (live_ranges (screen_on (scale_of (plain_checked from.now.checked.now).version) (meant_in delegates.now ⟦<dyn Delegate as Delegate>⟧) view)) tree.old (map lent walk.old.waiting.items) (progress_of walk.old) ≡ gives tree.new (progress_of walk.new)) }
    ensures fault { IfErr result (λ f. IfSome (fault_of f) (λ g. second_phase (basis_of from.now) (live_ranges (screen_on (scale_of (plain_checked from.now.checked.now).version) (meant_in delegates.now ⟦<dyn Delegate as Delegate>⟧) view)) tree.old (map lent walk.old.waiting.items) (progress_of walk.old) ≡ stops g)) }
    ensures built { OnOk result (IsWellBuilt (declared_by from.now) tree.new) }
{
    if walk.waiting.is_empty() {
        return Ok(());
    }
    let scale = from.checked.scale();
    let ranges = ranges_in(from.alloc, tree, scale, delegates, view)?;
    fill(from, &ranges, DEPTH_LIMIT, values, tree, walk, builds)
}
