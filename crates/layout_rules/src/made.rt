// What the rule of a node makes, where these of its children are asked.
ghost use Rattle.std.specs.Prelude.{◌≡◌, IfOk};
ghost use Rattle.delegates.specs.Table.{meant_in};
ghost use Rattle.node_tree.specs.Tree.{IsNode, children_at};
ghost use Rattle.layout_form.specs.Framed.{last_asks};
ghost use Rattle.layout_form.specs.Object.{setting_of};
ghost use Rattle.kind_rules.specs.Asked.{found_of, ruling_for};
ghost use Rattle.kind_rules.specs.Cursor.{look_of, count_in};
ghost use Rattle.kind_rules.specs.Few.{items_of};
ghost use Rattle.kind_rules.specs.Ruling.{ruling_of};
ghost use Rattle.layout_rules.specs.Ending.{CanMake};
ghost use Rattle.layout_rules.specs.Heard.{all_told};
ghost use Rattle.layout_rules.specs.Places.{render_at};
ghost use Rattle.layout_rules.specs.Reads.{frames_at};

use crate::cursor::RenderCursor;
use crate::fixed::{list_at, list_made};
use crate::reading::frames_of;
use delegates::{Delegate, DelegateTable};
use fx_handles::Handle;
use kind_rules::{Cursor, Few, Found, Made, make};
use layout_form::Ask;
use plain_tree::ParentData;
use render_tree::RenderTree;
use std::alloc::{AllocError, Global};

// By lists of what the children were told, and of the frames of those that are asked.
fn made_of_lists(
    alloc: Global,
    r: &RenderTree,
    h: Handle,
    ask: Ask,
    found: Found,
    told: &[ParentData],
    before: &Few<Option<Ask>>,
    rest: &Few<Option<Ask>>,
    table: &DelegateTable,
) -> Result<Made, AllocError>
    requires live { IsNode r.now.tree h }
    requires can { CanMake (look_of (render_at r.now.tree h)) ask told.now (found_of found) (frames_at r.now.tree (last_asks (items_of before.now) (items_of rest.now)) (children_at r.now.tree h)) }
    ensures { IfOk result (λ m. ruling_of m ≡ ruling_for (setting_of r.now.scale (meant_in table.now ⟦<dyn Delegate as Delegate>⟧)) (look_of (render_at r.now.tree h)) (count_in (render_at r.now.tree h)) ask (found_of found)
        told.now (frames_at r.now.tree (last_asks (items_of before.now) (items_of rest.now)) (children_at r.now.tree h))) }
{
    let cursor = RenderCursor::new(r, h);
    let answers = frames_of(alloc, r, h, before, rest)?;
    make(
        alloc,
        cursor.kind(),
        cursor.count(),
        ask,
        found,
        told,
        answers.as_slice(),
        r.scale(),
        table,
    )
}

// By what is listed of what the children were told; a list whose children are all there is run over no list.
pub(crate) fn made_at(
    alloc: Global,
    r: &RenderTree,
    h: Handle,
    ask: Ask,
    found: Found,
    told: &[ParentData],
    before: &Few<Option<Ask>>,
    rest: &Few<Option<Ask>>,
    table: &DelegateTable,
) -> Result<Made, AllocError>
    requires live { IsNode r.now.tree h }
    requires can { CanMake (look_of (render_at r.now.tree h)) ask (all_told r.now.tree h told.now) (found_of found) (frames_at r.now.tree (last_asks (items_of before.now) (items_of rest.now)) (children_at r.now.tree h)) }
    ensures { IfOk result (λ m. ruling_of m ≡ ruling_for (setting_of r.now.scale (meant_in table.now ⟦<dyn Delegate as Delegate>⟧)) (look_of (render_at r.now.tree h)) (count_in (render_at r.now.tree h)) ask (found_of found)
        (all_told r.now.tree h told.now) (frames_at r.now.tree (last_asks (items_of before.now) (items_of rest.now)) (children_at r.now.tree h))) }
{
    match list_at(r, h) {
        None => made_of_lists(alloc, r, h, ask, found, told, before, rest, table),
        Some(extent) => match ask {
            Ask::AsBox(_) => made_of_lists(alloc, r, h, ask, found, &[], before, rest, table),
            Ask::AsSliver(b) => list_made(alloc, r, h, b, extent, before, rest),
        },
    }
}
