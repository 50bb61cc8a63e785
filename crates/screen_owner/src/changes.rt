// What lines between two frames change of a screen.
ghost use Rattle.std.specs.Prelude.{◌≡◌, ◌⊎◌, true, false, List, Option, IfOk, OnOk, OnErr};
ghost use Rattle.delegates.specs.Meaning.{Meaning};
ghost use Rattle.delegates.specs.Table.{Plug, with_meaning};
ghost use Rattle.fx_handles.specs.Arena.{used_count, retired_count, inserted_count};
ghost use Rattle.layout_form.specs.Corrected.{renders_scrolled_by};
ghost use Rattle.render_tree.specs.Plain.{renders_of, root_tree};
ghost use Rattle.screen_owner.specs.Changes.{SameBuilt, Scrolls, MarksScrolled, MarksUsers};
ghost use Rattle.screen_owner.specs.Last.{only_at};
ghost use Rattle.screen_owner.specs.Screen.{shown_in, IsRight};
ghost use Rattle.screen_owner.specs.Standing.{StandsAlone};

use crate::owner::{ScreenOwner, find};
use fx_handles::Handle;
use kept_layouts::{
    changed_delegates_keep_layouts, paint_marks_keep_layouts, scrolls_keep_layouts,
};
use paint_owner::{delegates_keep_layers, writes_keep_layers};
use std::alloc::{AllocError, Global};

// The same handles once more.
fn copied(alloc: Global, handles: &[Handle]) -> Result<Vec<Handle>, AllocError>
    ensures { IfOk result (λ hs. hs.items ≡ handles.now) }
{
    let mut copies = Vec::new(alloc);
    copies.extend_from_slice(handles)?;
    Ok(copies)
}

impl ScreenOwner {
    /// Scrolls the Viewport with a number so far, in u, and marks it; where no Viewport has the number nothing changes. What the last
    /// frame shows stays.
    pub fn scroll(&mut self, number: u64, scroll: u64)
        ensures right { (delegates : List Plug) → self.old.spent ≡ false → IsRight delegates self.old → IsRight delegates self.new }
        ensures whole { self.old.spent ≡ false → StandsAlone self.old.nodes }
        ensures nodes { self.old.spent ≡ false → Scrolls number scroll self.old.nodes self.new.nodes }
        ensures renders { self.old.spent ≡ false → renders_of (root_tree self.new.nodes)
            ≡ renders_scrolled_by (only_at number scroll) (renders_of (root_tree self.old.nodes)) }
        ensures marks { self.old.spent ≡ false → (self.new.nodes ≡ self.old.nodes) ⊎ MarksScrolled number scroll self.old.nodes self.new.nodes }
        ensures shown { self.old.spent ≡ false → shown_in self.new ≡ shown_in self.old }
        ensures layers { self.new.layers ≡ self.old.layers }
        ensures used { used_count self.new.nodes.nodes ≡ used_count self.old.nodes.nodes }
        ensures retired { retired_count self.new.nodes.nodes ≡ retired_count self.old.nodes.nodes }
        ensures made { inserted_count self.new.nodes.nodes ≡ inserted_count self.old.nodes.nodes }
        ensures scale { self.new.scale ≡ self.old.scale }
        ensures spent { self.new.spent ≡ self.old.spent }
    {
        scrolls_keep_layouts();
        writes_keep_layers();
        // Tells the proof that this is a tree.
        let _ = self.tree.root();
        let Some(h) = find(&self.numbers, number) else {
            return;
        };
        if self.tree.scroll(h).is_none() {
            return;
        }
        self.tree.set_scroll(h, scroll);
        let changed = [h];
        self.tree.mark_layouts(&changed);
    }

    /// Marks each node that uses the delegate of a name, for layout and for painting: from now on it may mean something else, or be
    /// unplugged. What the last frame shows stays. Where memory is short nothing changes.
    pub fn delegate_changed(&mut self, name: &str) -> Result<(), AllocError>
        ensures right { (delegates : List Plug) (m : Option Meaning) → OnOk result (self.old.spent ≡ false → IsRight delegates self.old
            → IsRight (with_meaning delegates name.now m) self.new) }
        ensures whole { self.old.spent ≡ false → StandsAlone self.old.nodes }
        ensures nodes { OnOk result (self.old.spent ≡ false → SameBuilt self.old.nodes self.new.nodes) }
        ensures renders { OnOk result (self.old.spent ≡ false → renders_of (root_tree self.new.nodes) ≡ renders_of (root_tree self.old.nodes)) }
        ensures marks { OnOk result (MarksUsers name.now self.old.nodes self.new.nodes) }
        ensures shown { OnOk result (self.old.spent ≡ false → shown_in self.new ≡ shown_in self.old) }
        ensures layers { self.new.layers ≡ self.old.layers }
        ensures used { used_count self.new.nodes.nodes ≡ used_count self.old.nodes.nodes }
        ensures retired { retired_count self.new.nodes.nodes ≡ retired_count self.old.nodes.nodes }
        ensures made { inserted_count self.new.nodes.nodes ≡ inserted_count self.old.nodes.nodes }
        ensures scale { self.new.scale ≡ self.old.scale }
        ensures spent { self.new.spent ≡ self.old.spent }
        ensures err { OnErr result (self.new ≡ self.old) }
    {
        changed_delegates_keep_layouts();
        paint_marks_keep_layouts();
        writes_keep_layers();
        delegates_keep_layers();
        // Tells the proof that this is a tree.
        let _ = self.tree.root();
        let users = copied(self.alloc, self.tree.users(name))?;
        self.tree.mark_layouts(users.as_slice());
        self.tree.mark_paints(users.as_slice());
        Ok(())
    }
}
