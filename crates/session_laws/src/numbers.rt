// Laws of the numbers of nodes in a run.
ghost use Rattle.std.specs.Prelude.{◌≡◌, ℕ, IfSome, List, [], ◌∷◌, Some, map, IsPermutation};
ghost use Rattle.delegates.specs.Table.{Plug};
ghost use Rattle.fx_geom.specs.Offset.{origin};
ghost use Rattle.fx_geom.specs.declared.shapes.Offset.{Offset};
ghost use Rattle.fx_geom.specs.declared.shapes.Size.{Size};
ghost use Rattle.layout_form.specs.Layout.{lay_view};
ghost use Rattle.layout_form.specs.Object.{Setting};
ghost use Rattle.plain_tree.specs.Laws.{AllDiffer};
ghost use Rattle.plain_tree.specs.Offsets.{corrected};
ghost use Rattle.plain_tree.specs.PlainNode.{PlainNode};
ghost use Rattle.plain_tree.specs.Projection.{render_of};
ghost use Rattle.plain_tree.specs.Render.{Render};
ghost use Rattle.program_check.specs.Checked.{PlainChecked};
ghost use Rattle.program_check.specs.TypedChecked.{IsTypedChecked};
ghost use Rattle.screen_form.specs.FocusOrder.{spots_of, number_of, focus_order_of};
ghost use Rattle.screen_form.specs.Hits.{hits_of};
ghost use Rattle.screen_form.specs.Semantics.{semantics_of};
ghost use Rattle.screen_form.specs.SemanticsLaws.{ids_of};
ghost use Rattle.script_lines.specs.declared.command.Command.{Command};
ghost use Rattle.script_lines.specs.declared.entry.Entry.{Entry};
ghost use Rattle.build_form.specs.FullBuild.{built};
ghost use Rattle.session_form.specs.Framing.{screen_of, built_of, shown_of, framed};
ghost use Rattle.session_form.specs.Outcome.{state_after};
ghost use Rattle.session_form.specs.State.{SessionState, Shown, first_state};
ghost use Rattle.session_form.specs.Step.{step};
ghost use Rattle.live_session.specs.EntryStep.{entry_step};
ghost use Rattle.live_session.specs.RunState.{RunState};
ghost use Rattle.live_session.specs.RunState as run;
ghost use Rattle.live_session.specs.Tweens.{with_values};
ghost use Rattle.session_laws.specs.Closed.{StaysChanged, StaysFramed};
ghost use Rattle.session_laws.specs.Numbers.{HasNumbers};
ghost use Rattle.session_laws.specs.Runs.{run_after};
ghost use Rattle.session_laws.specs.Sound.{IsSoundState};

use build_form::{
    builds_are_well_built, built_trees_vanish_alone, changes_keep_numbering,
    handlers_belong_to_nodes_above, numbers_differ, owned_handlers_fit, survivors,
};
use layout_form::{corrected_offsets_stay, layout_keeps_nodes};
use plain_tree::{one_root_is_laid_out, projection_keeps_order};
use program_check::checked_widgets_are_typed;
use screen_form::{hit_paths_keep_order, ids_differ, order_has_each_once};
use session_form::frames_show_their_tree;
use template_build::handlers_fit_their_owners;

// A sound state stays sound at each change, and each run begins with one.
pub(crate) fn sound_changes()
    ensures changed { StaysChanged IsSoundState }
    ensures framed { StaysFramed IsSoundState }
    ensures first { (c : PlainChecked) (delegates : List Plug) → IsTypedChecked c → IsSoundState (first_state c delegates) }
{
    changes_keep_numbering();
    numbers_differ();
    survivors();
    builds_are_well_built();
    handlers_belong_to_nodes_above();
    owned_handlers_fit();
    built_trees_vanish_alone();
    one_root_is_laid_out();
    projection_keeps_order();
    layout_keeps_nodes();
    checked_widgets_are_typed();
    handlers_fit_their_owners();
}

/// In each state of a run of a checked program no number stands twice in the tree, each is at least 1 and below the next free one, and
/// so it is with the laid tree that is shown. It goes with what else is sound of a state, from line to line.
pub fn numbers_stay_apart()
    ensures first { (c : PlainChecked) (delegates : List Plug) → IsTypedChecked c → IsSoundState (first_state c delegates) }
    ensures step { (s : SessionState) (command : Command) → IsSoundState s → IsSoundState (state_after s (step s command)) }
    ensures entry { (r : RunState) (entry : Entry) → IsSoundState r.session → IsSoundState (run.state_after r (entry_step r entry)).session }
    ensures values { (r : RunState) → IsSoundState r.session → IsSoundState (with_values r.session.time r.tweens r.session) }
    ensures sound { (c : PlainChecked) (delegates : List Plug) (entries : List Entry) → IsTypedChecked c → IsSoundState (run_after c delegates entries).session }
    ensures run { (c : PlainChecked) (delegates : List Plug) (entries : List Entry) → IsTypedChecked c → HasNumbers (run_after c delegates entries).session }
{
    sound_changes();
}

/// So in each state of a run: the focus order has each detector that can have the focus once; all ids of the semantics tree differ; no
/// hit path has a number twice; offsets that a layout of the tree corrects stay; and after a frame, with the values of its tweens, the
/// tree that there is then is shown.
pub fn runs_tell_nodes_apart()
    ensures focus { (c : PlainChecked) (delegates : List Plug) (entries : List Entry) (shown : Shown) → IsTypedChecked c
        → (run_after c delegates entries).session.shown ≡ Some shown
        → IsPermutation (map number_of (spots_of shown.laid origin)) (focus_order_of shown.laid) × AllDiffer (focus_order_of shown.laid) }
    ensures semantics { (c : PlainChecked) (delegates : List Plug) (entries : List Entry) (shown : Shown) → IsTypedChecked c
        → (run_after c delegates entries).session.shown ≡ Some shown → AllDiffer (ids_of (semantics_of shown.laid)) }
    ensures hits { (c : PlainChecked) (delegates : List Plug) (entries : List Entry) (shown : Shown) (at : Offset) → IsTypedChecked c
        → (run_after c delegates entries).session.shown ≡ Some shown → AllDiffer (hits_of shown.laid at) }
    ensures offsets { (c : PlainChecked) (delegates : List Plug) (entries : List Entry) (tree : PlainNode) (s : Setting) (r : Render) (view : Size) → IsTypedChecked c
        → (run_after c delegates entries).session.tree ≡ Some tree → render_of tree ≡ r ∷ []
        → map (λ q. lay_view s q view) (render_of (corrected (lay_view s r view) tree)) ≡ lay_view s r view ∷ [] }
    ensures frames { (c : PlainChecked) (delegates : List Plug) (entries : List Entry) (tree : PlainNode) (next : ℕ) → IsTypedChecked c
        → let r = run_after c delegates entries in let s = with_values r.session.time r.tweens r.session in built_of s ≡ built tree next
        → IfSome (framed s tree next).tree (λ t. (framed s tree next).shown ≡ Some (shown_of (screen_of (framed s tree next)) t)) }
{
    sound_changes();
    order_has_each_once();
    ids_differ();
    hit_paths_keep_order();
    corrected_offsets_stay();
    frames_show_their_tree();
}
