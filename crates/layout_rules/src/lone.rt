// What a course leaves of a node that nobody is below.
ghost use Rattle.std.specs.Prelude.{◌≡◌, [], OnOk, Some};
ghost use Rattle.delegates.specs.Table.{meant_in};
ghost use Rattle.node_tree.specs.Tree.{IsNode, children_at};
ghost use Rattle.layout_form.specs.declared.asks.Ask.TheVariants.{AsBox};
ghost use Rattle.layout_form.specs.Object.{setting_of};
ghost use Rattle.kind_rules.specs.Cursor.{look_of};
ghost use Rattle.kind_rules.specs.Lone.{lone_size};
ghost use Rattle.layout_rules.specs.Listing.{ListsChange};
ghost use Rattle.layout_rules.specs.Places.{render_at};
ghost use Rattle.layout_rules.specs.Serving.{IsSeen, EndsAs, RunsAs, CanEndAt, CanRunAt};

use crate::cursor::RenderCursor;
use crate::duties::Course;
use crate::ending::{NO_NOTES, finish, note, run, store_made};
use crate::reading::state_at;
use delegates::{Delegate, DelegateTable};
use fx_geom::{Bounds, Size};
use fx_handles::Handle;
use fx_outside::Steps;
use kind_rules::{Cursor, Few, lone_size};
use layout_form::Ask;
use plain_tree::Frame;
use render_tree::RenderTree;
use std::alloc::{AllocError, Global};
use std::sync::ledger::Ledger;

// What the rule of a box makes that nobody is below, where it makes no more than a size, is stored.
fn run_lone<L: Ledger>(
    r: &mut RenderTree,
    h: Handle,
    b: Bounds,
    size: Size,
    table: &DelegateTable,
    changed: &mut Vec<Handle>,
    steps: &mut Steps<L>,
) -> Result<(), AllocError>
    requires live { IsNode r.old.tree h }
    requires seen { IsSeen r.old.tree h }
    requires empty { children_at r.old.tree h ≡ [] }
    requires lone { Some size ≡ lone_size (setting_of r.old.scale (meant_in table.now ⟦<dyn Delegate as Delegate>⟧)) (look_of (render_at r.old.tree h)) b }
    ensures ends { OnOk result (RunsAs (setting_of r.old.scale (meant_in table.now ⟦<dyn Delegate as Delegate>⟧)) (AsBox b) [] [] []
        r.old.tree r.new.tree h steps.old steps.new) }
    ensures changes { OnOk result (ListsChange r.old.tree r.new.tree h changed.old.items changed.new.items steps.old steps.new) }
    ensures scale { r.new.scale ≡ r.old.scale }
    ensures spent { r.new.spent ≡ r.old.spent }
{
    r.tree().count_laws();
    let mut state = state_at(r, h);
    let cursor = RenderCursor::new(r, h);
    let kind = cursor.kind();
    let frame = Frame::Boxed { bounds: b, size };
    let remade = store_made(&mut state, kind, frame, NO_NOTES, 0, r.scale(), table);
    state.layout_below = false;
    note(changed, h, remade)?;
    r.set_layout_state(h, state);
    steps.tick();
    Ok(())
}

// The size of a box that nobody is below, where its rule makes no more.
fn lone_at(r: &RenderTree, h: Handle, b: Bounds, table: &DelegateTable) -> Option<Size>
    requires { IsNode r.now.tree h }
    ensures { result ≡ lone_size (setting_of r.now.scale (meant_in table.now ⟦<dyn Delegate as Delegate>⟧)) (look_of (render_at r.now.tree h)) b }
{
    let cursor = RenderCursor::new(r, h);
    lone_size(cursor.kind(), b, r.scale(), table)
}

// A rule is run at a node that nobody is below.
fn run_alone<L: Ledger>(
    alloc: Global,
    r: &mut RenderTree,
    h: Handle,
    ask: Ask,
    table: &DelegateTable,
    changed: &mut Vec<Handle>,
    steps: &mut Steps<L>,
) -> Result<(), AllocError>
    requires live { IsNode r.old.tree h }
    requires seen { IsSeen r.old.tree h }
    requires empty { children_at r.old.tree h ≡ [] }
    requires can { CanRunAt ask [] [] [] r.old.tree h }
    ensures ends { OnOk result (RunsAs (setting_of r.old.scale (meant_in table.now ⟦<dyn Delegate as Delegate>⟧)) ask [] [] []
        r.old.tree r.new.tree h steps.old steps.new) }
    ensures changes { OnOk result (ListsChange r.old.tree r.new.tree h changed.old.items changed.new.items steps.old steps.new) }
    ensures scale { r.new.scale ≡ r.old.scale }
    ensures spent { r.new.spent ≡ r.old.spent }
{
    match ask {
        Ask::AsBox(b) => match lone_at(r, h, b, table) {
            None => {}
            Some(size) => {
                return run_lone(r, h, b, size, table, changed, steps);
            }
        },
        Ask::AsSliver(_) => {}
    }
    run(
        alloc,
        r,
        h,
        ask,
        &[],
        &Few::Empty,
        &Few::Empty,
        &Few::Empty,
        table,
        changed,
        steps,
    )
}

// What a course leaves at a node that nobody is below.
pub(crate) fn finish_alone<L: Ledger>(
    alloc: Global,
    r: &mut RenderTree,
    h: Handle,
    course: Course,
    table: &DelegateTable,
    changed: &mut Vec<Handle>,
    steps: &mut Steps<L>,
) -> Result<(), AllocError>
    requires live { IsNode r.old.tree h }
    requires seen { IsSeen r.old.tree h }
    requires empty { children_at r.old.tree h ≡ [] }
    requires can { CanEndAt course [] [] [] r.old.tree h }
    ensures ends { OnOk result (EndsAs (setting_of r.old.scale (meant_in table.now ⟦<dyn Delegate as Delegate>⟧)) course [] [] []
        r.old.tree r.new.tree h steps.old steps.new) }
    ensures changes { OnOk result (ListsChange r.old.tree r.new.tree h changed.old.items changed.new.items steps.old steps.new) }
    ensures scale { r.new.scale ≡ r.old.scale }
    ensures spent { r.new.spent ≡ r.old.spent }
{
    match course {
        Course::Run(ask) => run_alone(alloc, r, h, ask, table, changed, steps),
        _ => finish(
            alloc,
            r,
            h,
            course,
            &[],
            &Few::Empty,
            &Few::Empty,
            table,
            changed,
            steps,
        ),
    }
}
