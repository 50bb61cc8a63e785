// What lines between two frames plug and unplug.
ghost use Rattle.std.specs.Prelude.{◌≡◌, ℕ, List, Option, IfOk, OnOk, OnErr};
ghost use Rattle.delegates.specs.Meaning.{Meaning};
ghost use Rattle.delegates.specs.Table.{Plug, with_meaning};
ghost use Rattle.fx_handles.specs.Arena.{used_count, retired_count, inserted_count};
ghost use Rattle.plain_tree.specs.PlainNode.{PlainNode};
ghost use Rattle.program_check.specs.Checked.{PlainChecked};
ghost use Rattle.screen_owner.specs.Changes.{MarksUsers};
ghost use Rattle.screen_owner.specs.Screen.{shown_in};
ghost use Rattle.frame_owner.specs.Rooms.{HasRoomAfter};
ghost use Rattle.frame_owner.specs.Standing.{FrameStandsFor};

use crate::owner::FrameOwner;
use fx_handles::Handle;
use kept_builds::lines_leave_standing_trees;
use kept_layouts::{changed_delegates_keep_layouts, paint_marks_keep_layouts};
use paint_owner::{delegates_keep_layers, writes_keep_layers};
use std::alloc::{AllocError, Global};

// The same handles once more.
fn copied(alloc: Global, handles: &[Handle]) -> Result<Vec<Handle>, AllocError>
    ensures { IfOk result (λ hs. hs.items ≡ handles.now) }
{
    let mut copies = Vec::new(alloc);
    copies.extend_from_slice(handles)?;
    Ok(copies)
}

impl FrameOwner {
    /// Marks each node that uses the delegate of a name, for layout and for painting: from now on it may mean something else, or be
    /// unplugged. What the last frame shows stays. Where memory is short nothing changes.
    pub fn delegate_changed(&mut self, name: &str) -> Result<(), AllocError>
        ensures stands { (c : PlainChecked) (delegates : List Plug) (marks : List ℕ) (tree : Option PlainNode) (m : Option Meaning)
            → OnOk result (FrameStandsFor c delegates marks tree self.old → FrameStandsFor c (with_meaning delegates name.now m) marks tree self.new) }
        ensures shown { (c : PlainChecked) (delegates : List Plug) (marks : List ℕ) (tree : Option PlainNode)
            → OnOk result (FrameStandsFor c delegates marks tree self.old → shown_in self.new.screen ≡ shown_in self.old.screen) }
        ensures marks { OnOk result (MarksUsers name.now self.old.screen.nodes self.new.screen.nodes) }
        ensures elements { self.new.elements ≡ self.old.elements }
        ensures settled { self.new.settled ≡ self.old.settled }
        ensures keys { self.new.keys ≡ self.old.keys }
        ensures layers { self.new.screen.layers ≡ self.old.screen.layers }
        ensures used { used_count self.new.screen.nodes.nodes ≡ used_count self.old.screen.nodes.nodes }
        ensures retired { retired_count self.new.screen.nodes.nodes ≡ retired_count self.old.screen.nodes.nodes }
        ensures made { inserted_count self.new.screen.nodes.nodes ≡ inserted_count self.old.screen.nodes.nodes }
        ensures scale { self.new.screen.scale ≡ self.old.screen.scale }
        ensures spent { self.new.screen.spent ≡ self.old.screen.spent }
        ensures room { (frames : ℕ) → HasRoomAfter frames self.old → HasRoomAfter frames self.new }
        ensures err { OnErr result (self.new ≡ self.old) }
    {
        changed_delegates_keep_layouts();
        paint_marks_keep_layouts();
        writes_keep_layers();
        delegates_keep_layers();
        lines_leave_standing_trees();
        // Tells the proof that this is a tree.
        let _ = self.nodes.root();
        let users = copied(self.alloc, self.nodes.users(name))?;
        self.still = None;
        self.nodes.mark_layouts(users.as_slice());
        self.nodes.mark_paints(users.as_slice());
        Ok(())
    }
}
