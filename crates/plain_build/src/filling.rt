// The second phase: lazy lists get their items (`SliverMultiBoxAdaptorElement.performRebuild`).
ghost use Rattle.std.specs.Prelude.{◌≡◌, IfOk, OnOk, IfErr, IfSome, map};
ghost use Rattle.std.specs.List.{All};
ghost use Rattle.fx_expr.specs.Value.{type_of};
ghost use Rattle.widget_model.specs.Typed.{IsTypedWidget};
ghost use Rattle.widget_model.specs.View.{plain_of, look_in};
ghost use Rattle.plain_tree.specs.PlainNode.{nodes_of, widget_of};
ghost use Rattle.build_form.specs.Step.{stops, gives};
ghost use Rattle.build_form.specs.BuildRole.{lists, build_role_of};
ghost use Rattle.build_form.specs.Entering.{values_below};
ghost use Rattle.build_form.specs.FullBuild.{items_entered, filled, all_filled};
ghost use Rattle.build_form.specs.FaultView.{fault_of};
ghost use Rattle.build_form.specs.Lent.{lent};
ghost use Rattle.plain_build.specs.PartnerView.{held};
ghost use Rattle.plain_build.specs.WalkView.{progress_of};
ghost use Rattle.plain_build.specs.BasisView.{basis_of, declared_by};
ghost use Rattle.plain_build.specs.RangesView.{ranges_of};
ghost use Rattle.build_form.specs.Filling.{AreBoxes};
ghost use Rattle.build_form.specs.WellBuilt.{IsWellBuilt, AreWellBuilt, AreTypedHolders, AreWaiting};

use crate::basis::{Basis, Phase};
use crate::entering::enter_under;
use crate::items::items;
use crate::providing::{provide_below, restore};
use crate::ranges::Ranges;
use crate::walk::BuildWalk;
use build_form::{BuildRole, FrameFault, build_role_of};
use fx_expr::Value;
use fx_outside::Steps;
use plain_tree::Node;
use std::sync::ledger::Ledger;
use widget_model::Widget;

// The items of the lazy list with a number, whose children have an extent, are entered.
fn enter_items<'a, L: Ledger>(
    from: &Basis<'a>,
    ranges: &Ranges,
    left: u32,
    values: &mut [Value],
    number: u64,
    extent: u64,
    widget: &Widget,
    walk: &mut BuildWalk<'a>,
    builds: &mut Steps<L>,
) -> Result<Vec<Node>, FrameFault>
    requires holders { AreTypedHolders (declared_by from.now) (λ k. held from.now.holders k) }
    requires values { map type_of values.old ≡ (declared_by from.now).inherited }
    requires waiting { AreWaiting (declared_by from.now) (map lent walk.old.waiting.items) }
    requires widget { IsTypedWidget (declared_by from.now) (plain_of widget.now) }
    requires lists { build_role_of (look_in widget.now.kind) ≡ lists extent }
    ensures ok { IfOk result (λ ns. items_entered (basis_of from.now) left (values_below (plain_of widget.now) values.old) (λ count. ranges_of ranges.now number extent count) widget.now.children (progress_of walk.old) ≡ gives (nodes_of ns.items) (progress_of walk.new)) }
    ensures fault { IfErr result (λ f. IfSome (fault_of f) (λ g. items_entered (basis_of from.now) left (values_below (plain_of widget.now) values.old) (λ count. ranges_of ranges.now number extent count) widget.now.children (progress_of walk.old) ≡ stops g)) }
    ensures values { OnOk result (values.new ≡ values.old) }
    ensures waiting { OnOk result (AreWaiting (declared_by from.now) (map lent walk.new.waiting.items)) }
    ensures built { IfOk result (λ ns. All (IsWellBuilt (declared_by from.now)) ns.items) }
    ensures boxes { IfOk result (λ ns. AreBoxes (declared_by from.now) ns.items) }
{
    let arriving = items(from, ranges, number, extent, widget, walk)?;
    enter_under(
        from,
        Phase::Second,
        left,
        values,
        widget,
        arriving.as_slice(),
        walk,
        builds,
    )
}

/// Gives a node of the first phase's tree, and those below it, the items of lazy lists, where so many depths are left, this
/// one's among them, and the inherited names have these values.
#[cycle(filling)]
pub(crate) fn fill<'a, L: Ledger>(
    from: &Basis<'a>,
    ranges: &Ranges,
    left: u32,
    values: &mut [Value],
    node: &mut Node,
    walk: &mut BuildWalk<'a>,
    builds: &mut Steps<L>,
) -> Result<(), FrameFault>
    requires holders { AreTypedHolders (declared_by from.now) (λ k. held from.now.holders k) }
    requires values { map type_of values.old ≡ (declared_by from.now).inherited }
    requires waiting { AreWaiting (declared_by from.now) (map lent walk.old.waiting.items) }
    requires node { IsWellBuilt (declared_by from.now) node.old }
    ensures ok { OnOk result (filled (basis_of from.now) (ranges_of ranges.now) left values.old node.old (progress_of walk.old) ≡ gives node.new (progress_of walk.new)) }
    ensures fault { IfErr result (λ f. IfSome (fault_of f) (λ g. filled (basis_of from.now) (ranges_of ranges.now) left values.old node.old (progress_of walk.old) ≡ stops g)) }
    ensures values { OnOk result (values.new ≡ values.old) }
    ensures waiting { OnOk result (AreWaiting (declared_by from.now) (map lent walk.new.waiting.items)) }
    ensures built { OnOk result (IsWellBuilt (declared_by from.now) node.new) }
    ensures widget { OnOk result (widget_of node.new ≡ widget_of node.old) }
{
    let below = left.saturating_sub(1);
    if let BuildRole::Lists(extent) = build_role_of(&node.widget.kind) {
        let children = enter_items(
            from,
            ranges,
            below,
            values,
            node.number,
            extent,
            &node.widget,
            walk,
            builds,
        )?;
        node.children = children;
        return Ok(());
    }
    let outer = provide_below(values, &node.widget)?;
    fill_all(
        from,
        ranges,
        below,
        values,
        node.children.as_mut_slice(),
        walk,
        builds,
    )?;
    restore(values, outer);
    Ok(())
}

// The same of the nodes of a list, one after another.
#[cycle(filling)]
fn fill_all<'a, L: Ledger>(
    from: &Basis<'a>,
    ranges: &Ranges,
    left: u32,
    values: &mut [Value],
    nodes: &mut [Node],
    walk: &mut BuildWalk<'a>,
    builds: &mut Steps<L>,
) -> Result<(), FrameFault>
    requires holders { AreTypedHolders (declared_by from.now) (λ k. held from.now.holders k) }
    requires values { map type_of values.old ≡ (declared_by from.now).inherited }
    requires waiting { AreWaiting (declared_by from.now) (map lent walk.old.waiting.items) }
    requires nodes { AreWellBuilt (declared_by from.now) (nodes_of nodes.old) }
    ensures ok { OnOk result (all_filled (basis_of from.now) (ranges_of ranges.now) left values.old (nodes_of nodes.old) (progress_of walk.old) ≡ gives (nodes_of nodes.new) (progress_of walk.new)) }
    ensures fault { IfErr result (λ f. IfSome (fault_of f) (λ g. all_filled (basis_of from.now) (ranges_of ranges.now) left values.old (nodes_of nodes.old) (progress_of walk.old) ≡ stops g)) }
    ensures values { OnOk result (values.new ≡ values.old) }
    ensures waiting { OnOk result (AreWaiting (declared_by from.now) (map lent walk.new.waiting.items)) }
    ensures built { OnOk result (AreWellBuilt (declared_by from.now) (nodes_of nodes.new)) }
    ensures widgets { OnOk result (map widget_of nodes.new ≡ map widget_of nodes.old) }
{
    for i in 0..nodes.len() {
        fill(from, ranges, left, values, &mut nodes[i], walk, builds)?;
    }
    Ok(())
}
