// The one component that is marked is built anew in its place, and so are those that read what it gives.
ghost use Rattle.std.specs.Prelude.{◌≡◌, ◌+◌, ◌≤◌, ℕ, true, false, List, Option, Some, None, IfOk, IfErr, IfSome, OnOk, OnErr};
ghost use Rattle.fx_handles.specs.declared.Handle.{Handle as HandleOf};
ghost use Rattle.delegates.specs.Table.{Plug};
ghost use Rattle.plain_tree.specs.PlainNode.{PlainNode};
ghost use Rattle.program_check.specs.CheckedView.{plain_checked};
ghost use Rattle.widget_model.specs.Size.{count_of};
ghost use Rattle.widget_model.specs.View.{shared};
ghost use Rattle.build_form.specs.Entering.{output_limit};
ghost use Rattle.build_form.specs.FaultView.{fault_of};
ghost use Rattle.build_form.specs.FullBuild.{Screen, failed};
ghost use Rattle.renewed_builds.specs.Stale.{IsStaleElement};
ghost use Rattle.frame_owner.specs.Building.{BuildsFrame, LeavesBuild};
ghost use Rattle.frame_owner.specs.Frame.{next_in};
ghost use Rattle.frame_owner.specs.Framed.{built_after, builds_after};
ghost use Rattle.frame_owner.specs.InPlace.{CannotBuildInPlace};
ghost use Rattle.frame_owner.specs.Rooms.{HasRoomAfter};
ghost use Rattle.frame_owner.specs.Standing.{FrameStandsFor};

use crate::in_place::build_in_place;
use crate::owner::FrameOwner;
use crate::redrawing::redraw;
use crate::settling::is_root;
use build_form::{FrameFault, built_trees_vanish_alone};
use fx_handles::Handle;
use fx_outside::Steps;
use kept_phases::{layers_are_kept_whole, redraws_keep_layers, redraws_keep_layouts};
use plain_tree::{one_root_is_laid_out, projection_keeps_numbers_apart};
use program_check::Checked;
use settled_builds::{marked_trees_are_stale, steps_follow_on};
use std::rc::Rc;
use std::sync::ledger::Ledger;
use widget_model::Widget;

impl FrameOwner {
    // The element of the component that is marked, where the tree is settled for this root but for it, and has no global keys.
    fn stale_for(&self, root: &Rc<Widget>, again: bool) -> Option<Handle>
        requires { again ≡ true → IfSome self.now.settled (λ kept. kept ≡ shared root.now) }
        ensures known { IfSome result (λ h. (self.now.settled ≡ Some (shared root.now)) × (self.now.marked ≡ Some h) × (self.now.keyless ≡ true)) }
        ensures unknown { result ≡ None → self.now.settled ≡ Some (shared root.now) → self.now.keyless ≡ true → self.now.marked ≡ None }
    {
        let Some(kept) = &self.settled else {
            return None;
        };
        if !self.keyless {
            return None;
        }
        if !is_root(kept, root, again) {
            return None;
        }
        self.marked
    }

    /// Where the tree is settled for a root but for one component, that is built anew in its place, and so are those that read another value that
    /// it gives. Answers whether this was the build of the root; else the build is left to do.
    pub(crate) fn renew_marked<B: Ledger>(
        &mut self,
        checked: &Checked,
        root: &Rc<Widget>,
        again: bool,
        builds: &mut Steps<B>,
    ) -> Result<bool, FrameFault>
        requires stands { (delegates : List Plug) × (marks : List ℕ) × (tree : Option PlainNode) × FrameStandsFor (plain_checked checked.now) delegates marks tree self.old }
        requires unspent { self.old.screen.spent ≡ false }
        requires again { again ≡ true → IfSome self.old.settled (λ kept. kept ≡ shared root.now) }
        ensures renewed { IfOk result (λ done. done ≡ true → (screen : Screen) (marks : List ℕ) (tree : Option PlainNode) (layouts : ℕ) → FrameStandsFor (plain_checked checked.now) screen.delegates marks tree self.old
            → BuildsFrame (plain_checked checked.now) screen tree (shared root.now) self.old self.new layouts layouts) }
        ensures builds { IfOk result (λ done. done ≡ true → (screen : Screen) (marks : List ℕ) (tree : Option PlainNode) → FrameStandsFor (plain_checked checked.now) screen.delegates marks tree self.old
            → builds.new ≡ builds.old + builds_after (plain_checked checked.now) screen self.old tree marks (shared root.now)) }
        ensures kept { IfOk result (λ done. done ≡ true → (self.new.settled ≡ Some (shared root.now)) × (self.new.marked ≡ None)) }
        ensures left { IfOk result (λ done. done ≡ false → (delegates : List Plug) (marks : List ℕ) (tree : Option PlainNode) → FrameStandsFor (plain_checked checked.now) delegates marks tree self.old
            → LeavesBuild (plain_checked checked.now) delegates marks tree (shared root.now) self.old self.new builds.old builds.new) }
        // It is left exactly where no component is known that alone is to be built, or what it gives, and what those give that read it, can't be taken.
        ensures given_up { IfOk result (λ done. done ≡ false → (h : HandleOf) → self.old.settled ≡ Some (shared root.now) → self.old.keyless ≡ true → self.old.marked ≡ Some h
            → (x : IsStaleElement (plain_checked checked.now) self.old.elements h) → CannotBuildInPlace (plain_checked checked.now) self.old.elements self.new.elements h x) }
        ensures screen { IfOk result (λ done. done ≡ false → self.new.screen ≡ self.old.screen) }
        ensures fault { IfErr result (λ e. IfSome (fault_of e) (λ f. (screen : Screen) (marks : List ℕ) (tree : Option PlainNode) → FrameStandsFor (plain_checked checked.now) screen.delegates marks tree self.old
            → built_after (plain_checked checked.now) screen self.old tree (shared root.now) ≡ failed f)) }
        ensures builds_at_fault { IfErr result (λ e. IfSome (fault_of e) (λ f. (screen : Screen) (marks : List ℕ) (tree : Option PlainNode) → FrameStandsFor (plain_checked checked.now) screen.delegates marks tree self.old
            → builds.new ≡ builds.old + builds_after (plain_checked checked.now) screen self.old tree marks (shared root.now))) }
        // A root that is too large has no settled tree.
        ensures small { IfOk result (λ done. done ≡ true → count_of (shared root.now) ≤ output_limit) }
        ensures small_at_err { OnErr result (count_of (shared root.now) ≤ output_limit) }
        ensures next { OnOk result (next_in self.new ≡ next_in self.old) }
        ensures room { OnOk result ((frames : ℕ) → HasRoomAfter frames self.old → HasRoomAfter frames self.new) }
        ensures scale { self.new.screen.scale ≡ self.old.screen.scale }
        ensures spent { OnErr result (self.new.screen.spent ≡ true) }
        ensures ready { OnOk result (self.new.screen.spent ≡ false) }
    {
        marked_trees_are_stale();
        steps_follow_on();
        projection_keeps_numbers_apart();
        built_trees_vanish_alone();
        one_root_is_laid_out();
        redraws_keep_layouts();
        redraws_keep_layers();
        layers_are_kept_whole();
        let Some(h) = self.stale_for(root, again) else {
            return Ok(false);
        };
        self.elements.number_laws();
        self.spent = true;
        let built = build_in_place(self.alloc, checked, h, &mut self.elements, builds)?;
        let Some(changes) = built else {
            self.settled = None;
            self.spent = false;
            return Ok(false);
        };
        self.still = None;
        redraw(self.alloc, &mut self.nodes, changes.as_slice())?;
        self.marked = None;
        self.spent = false;
        Ok(true)
    }
}
