// How far Viewports are scrolled.
ghost use Rattle.std.specs.Prelude.{◌≡◌, ℕ, true, List, Option, Some, None, IfSome, option_map};
ghost use Rattle.delegates.specs.Table.{Plug};
ghost use Rattle.fx_handles.specs.declared.Handle.{Handle};
ghost use Rattle.fx_handles.specs.Arena.{used_count, retired_count, inserted_count};
ghost use Rattle.plain_tree.specs.At.{changed_at, having_scroll};
ghost use Rattle.plain_tree.specs.PlainNode.{PlainNode};
ghost use Rattle.plain_tree.specs.RenderRole.{render_role_of, is_window};
ghost use Rattle.program_check.specs.Checked.{PlainChecked};
ghost use Rattle.render_tree.specs.Object.{RenderObject as RenderObjectOf, is_viewport};
ghost use Rattle.render_tree.specs.Tree.{object_at};
ghost use Rattle.screen_owner.specs.Changes.{MarksScrolled};
ghost use Rattle.screen_owner.specs.Screen.{shown_in};
ghost use Rattle.widget_model.specs.View.{look_in};
ghost use Rattle.frame_owner.specs.Nodes.{window_at};
ghost use Rattle.frame_owner.specs.Rooms.{HasRoomAfter};
ghost use Rattle.frame_owner.specs.Standing.{FrameStandsFor};

use crate::owner::FrameOwner;
use fx_handles::Handle;
use kept_builds::lines_leave_standing_trees;
use kept_layouts::scrolls_keep_layouts;
use layout_form::projections_take_offsets;
use paint_owner::writes_keep_layers;
use plain_tree::projection_keeps_numbers_apart;
use settled_builds::{lines_leave_marked_trees, lines_leave_settled_trees};
use widget_model::Kind;

// Whether a kind can be scrolled: it is a Viewport.
fn scrolls(kind: &Kind) -> bool
    ensures { result ≡ is_window (render_role_of (look_in kind.now)) }
{
    match kind {
        Kind::Viewport { .. } => true,
        _ => false,
    }
}

impl FrameOwner {
    // The render node of the Viewport with a number.
    fn viewport(&self, number: u64) -> Option<Handle>
        ensures live { IfSome result (λ k. (o : RenderObjectOf) × (object_at self.now.screen.nodes k ≡ Some o) × (is_viewport o ≡ true)) }
        ensures there { (c : PlainChecked) (delegates : List Plug) (marks : List ℕ) (tree : Option PlainNode) (offset : ℕ) → FrameStandsFor c delegates marks tree self.now
            → window_at tree number ≡ Some offset
            → (k : Handle) × (o : RenderObjectOf) × (result ≡ Some k) × (object_at self.now.screen.nodes k ≡ Some o) × (o.number ≡ number) × (o.scroll ≡ offset) }
        ensures none { (c : PlainChecked) (delegates : List Plug) (marks : List ℕ) (tree : Option PlainNode) → FrameStandsFor c delegates marks tree self.now
            → window_at tree number ≡ None → result ≡ None }
    {
        projection_keeps_numbers_apart();
        self.elements.number_laws();
        let Some(h) = self.elements.find(number) else {
            return None;
        };
        let Some(widget) = self.elements.widget(h) else {
            return None;
        };
        if !scrolls(&widget.kind) {
            return None;
        }
        let Some(k) = self.elements.render(h) else {
            return None;
        };
        if self.nodes.scroll(k).is_none() {
            return None;
        }
        Some(k)
    }

    /// How far the Viewport with a number is scrolled, in u; none where no Viewport has it.
    pub fn scroll_at(&self, number: u64) -> Option<u64>
        ensures { (c : PlainChecked) (delegates : List Plug) (marks : List ℕ) (tree : Option PlainNode) → FrameStandsFor c delegates marks tree self.now
            → result ≡ window_at tree number }
    {
        match self.viewport(number) {
            Some(k) => self.nodes.scroll(k),
            None => None,
        }
    }

    /// Scrolls the Viewport with a number so far, in u, and marks it; where no Viewport has the number nothing changes. What the last
    /// frame shows stays.
    pub fn scroll(&mut self, number: u64, to: u64)
        ensures stands { (c : PlainChecked) (delegates : List Plug) (marks : List ℕ) (tree : Option PlainNode) (before : ℕ) → FrameStandsFor c delegates marks tree self.old
            → window_at tree number ≡ Some before → FrameStandsFor c delegates marks (option_map (changed_at (having_scroll to) number) tree) self.new }
        ensures missing { (c : PlainChecked) (delegates : List Plug) (marks : List ℕ) (tree : Option PlainNode) → FrameStandsFor c delegates marks tree self.old
            → window_at tree number ≡ None → self.new ≡ self.old }
        ensures marks { (c : PlainChecked) (delegates : List Plug) (marks : List ℕ) (tree : Option PlainNode) (before : ℕ) → FrameStandsFor c delegates marks tree self.old
            → window_at tree number ≡ Some before → MarksScrolled number to self.old.screen.nodes self.new.screen.nodes }
        ensures shown { (c : PlainChecked) (delegates : List Plug) (marks : List ℕ) (tree : Option PlainNode) → FrameStandsFor c delegates marks tree self.old
            → shown_in self.new.screen ≡ shown_in self.old.screen }
        ensures elements { self.new.elements ≡ self.old.elements }
        ensures settled { self.new.settled ≡ self.old.settled }
        ensures keys { self.new.keys ≡ self.old.keys }
        ensures layers { self.new.screen.layers ≡ self.old.screen.layers }
        ensures used { used_count self.new.screen.nodes.nodes ≡ used_count self.old.screen.nodes.nodes }
        ensures retired { retired_count self.new.screen.nodes.nodes ≡ retired_count self.old.screen.nodes.nodes }
        ensures made { inserted_count self.new.screen.nodes.nodes ≡ inserted_count self.old.screen.nodes.nodes }
        ensures scale { self.new.screen.scale ≡ self.old.screen.scale }
        ensures spent { self.new.screen.spent ≡ self.old.screen.spent }
        ensures room { (frames : ℕ) → HasRoomAfter frames self.old → HasRoomAfter frames self.new }
    {
        scrolls_keep_layouts();
        writes_keep_layers();
        lines_leave_standing_trees();
        projections_take_offsets();
        projection_keeps_numbers_apart();
        lines_leave_settled_trees();
        lines_leave_marked_trees();
        // Tells the proof that this is a tree.
        let _ = self.nodes.root();
        self.elements.number_laws();
        let Some(k) = self.viewport(number) else {
            return;
        };
        self.still = None;
        self.nodes.set_scroll(k, to);
        let changed = [k];
        self.nodes.mark_layouts(&changed);
    }
}
