// The walk.
ghost use Rattle.std.specs.Prelude.{◌≡◌, ◌+◌, ◌≤◌, OnOk, length};
ghost use Rattle.delegates.specs.Table.{meant_in};
ghost use Rattle.layout_form.specs.Object.{setting_of};
ghost use Rattle.layout_walk.specs.Rules.{parts_of};
ghost use Rattle.layout_rules.specs.Flags.{FlagsListed};
ghost use Rattle.layout_rules.specs.Painting.{Leaves};
ghost use Rattle.layout_rules.specs.Plugs.{ArePlugged};
ghost use Rattle.layout_rules.specs.Serving.{IsReadyFor, Serves, ListsOnce};

use crate::asking::{first_of, rest_of};
use crate::duties::{Course, Duty};
use crate::ending::finish;
use crate::fixed::heard_at;
use crate::laws::layouts_are_lawful;
use crate::lone::finish_alone;
use crate::only::{only_at, run_only};
use crate::reading::child_at;
use crate::stepping::{course_of, first_duty, has_first, lay_duty};
use delegates::{Delegate, DelegateTable};
use fx_handles::Handle;
use fx_outside::Steps;
use layout_form::Ask;
use render_tree::RenderTree;
use std::alloc::{AllocError, Global};
use std::sync::ledger::Ledger;

// Does a duty at a node. Each child gets at most one duty in either round, and none in both but a sliver of a Viewport, which is
// measured first; where there is none, nobody is asked. It ticks once where the rule of the node is run, and stores what comes of it.
// The nodes that don't look as before are added to a list, and with them each lazy list that has to be laid out, and hadn't to.
pub(crate) fn serve<L: Ledger>(
    alloc: Global,
    r: &mut RenderTree,
    h: Handle,
    duty: Duty,
    table: &DelegateTable,
    outer: bool,
    changed: &mut Vec<Handle>,
    steps: &mut Steps<L>,
) -> Result<(), AllocError>
    requires { IsReadyFor (parts_of (setting_of r.old.scale (meant_in table.now ⟦<dyn Delegate as Delegate>⟧))) r.old.tree h duty }
    ensures served { OnOk result (Serves (parts_of (setting_of r.old.scale (meant_in table.now ⟦<dyn Delegate as Delegate>⟧))) outer duty r.old.tree r.new.tree h steps.old steps.new) }
    ensures paints { OnOk result (Leaves r.old.tree r.new.tree h changed.old.items changed.new.items) }
    ensures few { OnOk result (length changed.new.items + steps.old ≤ length changed.old.items + steps.new) }
    ensures lists { OnOk result (ListsOnce (parts_of (setting_of r.old.scale (meant_in table.now ⟦<dyn Delegate as Delegate>⟧))) outer duty r.old.tree h changed.old.items changed.new.items) }
    ensures flags { OnOk result (FlagsListed r.old.tree r.new.tree changed.old.items changed.new.items) }
    ensures plugs { OnOk result (ArePlugged (meant_in table.now ⟦<dyn Delegate as Delegate>⟧) r.old.tree r.new.tree) }
    ensures scale { r.new.scale ≡ r.old.scale }
    ensures spent { r.new.spent ≡ r.old.spent }
{
    r.tree().count_laws();
    layouts_are_lawful();
    let course = course_of(r, h, duty, outer);
    if let Course::Stay = course {
        return Ok(());
    }
    if r.children(h).is_empty() {
        return finish_alone(alloc, r, h, course, table, changed, steps);
    }
    if let Some(only) = only_at(alloc, r, h, course, table)? {
        let inner = Duty::Lay(Ask::AsBox(only.inner));
        serve(alloc, r, only.child, inner, table, outer, changed, steps)?;
        r.tree().count_laws();
        return run_only(r, h, only, table, changed, steps);
    }
    let tellings = heard_at(alloc, r, h)?;
    let told = tellings.as_slice();
    let asked = first_of(alloc, r, h, course, told, table)?;
    let first = &asked;
    for i in 0..r.children(h).len() {
        if !has_first(course, first, i) {
            continue;
        }
        let Some(inner) = first_duty(course, first, i) else {
            continue;
        };
        let child = child_at(r, h, i);
        serve(alloc, r, child, inner, table, outer, changed, steps)?;
    }
    r.tree().count_laws();
    let others = rest_of(alloc, r, h, course, told, first)?;
    let rest = &others;
    for i in 0..r.children(h).len() {
        let Some(inner) = lay_duty(rest, i) else {
            continue;
        };
        let child = child_at(r, h, i);
        serve(alloc, r, child, inner, table, outer, changed, steps)?;
    }
    finish(
        alloc, r, h, course, told, first, rest, table, changed, steps,
    )
}
