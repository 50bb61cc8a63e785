// A frame: the tree of a root is built and shown (`WidgetsBinding.drawFrame`).
ghost use Rattle.std.specs.Prelude.{◌≡◌, ◌+◌, ◌<◌, ◌^◌, ◌↔◌, IsTrue, ℕ, true, false, [], List, Option, Some, None, Err, IfOk, IfErr, IfSome, OnOk, OnErr};
ghost use Rattle.delegates.specs.Table.{meant_in};
ghost use Rattle.plain_tree.specs.PlainNode.{PlainNode};
ghost use Rattle.program_check.specs.CheckedView.{plain_checked};
ghost use Rattle.template_build.specs.Program.{declarations_of};
ghost use Rattle.widget_model.specs.Size.{count_of};
ghost use Rattle.widget_model.specs.Sized.{IsSized};
ghost use Rattle.widget_model.specs.Typed.{IsTypedWidget};
ghost use Rattle.widget_model.specs.View.{shared};
ghost use Rattle.layout_form.specs.Object.{setting_of};
ghost use Rattle.build_form.specs.Entering.{output_limit};
ghost use Rattle.build_form.specs.FaultView.{fault_of};
ghost use Rattle.build_form.specs.FullBuild.{built, failed};
ghost use Rattle.screen_owner.specs.Screen.{shown_in, layer_in};
ghost use Rattle.screen_owner.specs.Steps.{IsLaidIn};
ghost use Rattle.versioned_kinds.specs.Lists.{HasNoLists};
ghost use Rattle.frame_owner.specs.Building.{BuildsFrame};
ghost use Rattle.frame_owner.specs.Frame.{next_in};
ghost use Rattle.frame_owner.specs.Framed.{screen_for, built_after, builds_after, ShowsFrame};
ghost use Rattle.frame_owner.specs.Rooms.{HasRoomAfter};
ghost use Rattle.frame_owner.specs.Standing.{FrameStandsFor};
ghost use Rattle.frame_owner.specs.Working.{FrameWorks, LaidForFault};

use crate::building::build_tree;
use crate::owner::FrameOwner;
use crate::settling::{is_keyless, settled_root};
use build_form::{FrameFault, few_numbers_are_given, trees_keep_to_the_limit};
use delegates::{Delegate, DelegateTable};
use first_builds::has_no_lists;
use fx_geom::Size;
use fx_outside::Steps;
use kept_phases::layers_are_kept_whole;
use program_check::Checked;
use render_tree::render_marks_are_marks;
use std::rc::Rc;
use std::sync::ledger::Ledger;
use versioned_kinds::programs_without_lists_build_none;
use widget_model::Widget;

impl FrameOwner {
    // Builds the tree of a root from its widget on.
    fn build_anew<B: Ledger, L: Ledger>(
        &mut self,
        checked: &Checked,
        root: &Rc<Widget>,
        view: Size,
        table: &DelegateTable,
        builds: &mut Steps<B>,
        layouts: &mut Steps<L>,
    ) -> Result<(), FrameFault>
        requires stands { (marks : List ℕ) × (tree : Option PlainNode)
            × FrameStandsFor (plain_checked checked.now) (meant_in table.now ⟦<dyn Delegate as Delegate>⟧) marks tree self.old }
        requires room { (frames : ℕ) × (frames < 2 ^ 32) × HasRoomAfter frames self.old }
        requires root { IsTypedWidget (declarations_of (plain_checked checked.now)) (shared root.now) }
        requires size { IsSized root.now.value }
        ensures builds_frame { OnOk result ((marks : List ℕ) (tree : Option PlainNode)
            → FrameStandsFor (plain_checked checked.now) (meant_in table.now ⟦<dyn Delegate as Delegate>⟧) marks tree self.old
            → BuildsFrame (plain_checked checked.now) (screen_for self.old (meant_in table.now ⟦<dyn Delegate as Delegate>⟧) view) tree (shared root.now) self.old self.new layouts.old layouts.new) }
        ensures fault { IfErr result (λ e. IfSome (fault_of e) (λ f. (marks : List ℕ) (tree : Option PlainNode)
            → FrameStandsFor (plain_checked checked.now) (meant_in table.now ⟦<dyn Delegate as Delegate>⟧) marks tree self.old
            → built_after (plain_checked checked.now) (screen_for self.old (meant_in table.now ⟦<dyn Delegate as Delegate>⟧) view) self.old tree (shared root.now) ≡ failed f)) }
        ensures too_large { output_limit < count_of (shared root.now) → result ≡ Err FrameFault.OutputTooLarge }
        ensures builds { OnOk result ((marks : List ℕ) (tree : Option PlainNode)
            → FrameStandsFor (plain_checked checked.now) (meant_in table.now ⟦<dyn Delegate as Delegate>⟧) marks tree self.old
            → builds.new ≡ builds.old + builds_after (plain_checked checked.now) (screen_for self.old (meant_in table.now ⟦<dyn Delegate as Delegate>⟧) view) self.old tree marks (shared root.now)) }
        ensures builds_at_fault { IfErr result (λ e. IfSome (fault_of e) (λ f. (marks : List ℕ) (tree : Option PlainNode)
            → FrameStandsFor (plain_checked checked.now) (meant_in table.now ⟦<dyn Delegate as Delegate>⟧) marks tree self.old
            → builds.new ≡ builds.old + builds_after (plain_checked checked.now) (screen_for self.old (meant_in table.now ⟦<dyn Delegate as Delegate>⟧) view) self.old tree marks (shared root.now))) }
        ensures laid_at_fault { IfErr result (λ e. IfSome (fault_of e) (λ f. (marks : List ℕ) (tree : Option PlainNode)
            → FrameStandsFor (plain_checked checked.now) (meant_in table.now ⟦<dyn Delegate as Delegate>⟧) marks tree self.old
            → LaidForFault (plain_checked checked.now) (screen_for self.old (meant_in table.now ⟦<dyn Delegate as Delegate>⟧) view) tree (next_in self.old) (shared root.now)
            self.old.screen.nodes layouts.old layouts.new)) }
        // The root is kept, for which nothing is to be built then, unless the tree has a lazy list.
        ensures kept { OnOk result ((marks : List ℕ) (tree : Option PlainNode) (made : PlainNode) (next : ℕ)
            → FrameStandsFor (plain_checked checked.now) (meant_in table.now ⟦<dyn Delegate as Delegate>⟧) marks tree self.old
            → built_after (plain_checked checked.now) (screen_for self.old (meant_in table.now ⟦<dyn Delegate as Delegate>⟧) view) self.old tree (shared root.now) ≡ built made next
            → HasNoLists made → (self.new.settled ≡ Some (shared root.now)) × (self.new.marked ≡ None)) }
        ensures settles { OnOk result (IfSome self.new.settled (λ kept. kept ≡ shared root.now)) }
        ensures room { OnOk result ((frames : ℕ) → HasRoomAfter frames self.old → HasRoomAfter (frames + 1) self.new) }
        ensures scale { self.new.screen.scale ≡ self.old.screen.scale }
        ensures spent { OnErr result (self.new.screen.spent ≡ true) }
        ensures ready { OnOk result (self.new.screen.spent ≡ false) }
    {
        layers_are_kept_whole();
        few_numbers_are_given();
        trees_keep_to_the_limit();
        programs_without_lists_build_none();
        // Each of these tells the proof how many nodes there may be, and that they are a tree.
        self.elements.tree().count_laws();
        self.nodes.tree().count_laws();
        self.spent = true;
        self.settled = None;
        self.still = None;
        let listless = has_no_lists(checked, root);
        build_tree(
            self.alloc,
            checked,
            root,
            listless,
            view,
            table,
            &mut self.elements,
            &mut self.nodes,
            &mut self.keys,
            builds,
            layouts,
        )?;
        let _ = self.nodes.root();
        let kept = settled_root(&self.elements, root, listless)?;
        self.settled = kept;
        self.keyless = is_keyless(&self.keys);
        self.marked = None;
        self.spent = false;
        Ok(())
    }

    // Builds the tree of a root. Where nothing is to be built the one that stands is its tree; where one component alone is, that is built.
    fn build<B: Ledger, L: Ledger>(
        &mut self,
        checked: &Checked,
        root: &Rc<Widget>,
        again: bool,
        view: Size,
        table: &DelegateTable,
        builds: &mut Steps<B>,
        layouts: &mut Steps<L>,
    ) -> Result<(), FrameFault>
        requires stands { self.old.screen.spent ≡ false → (marks : List ℕ) × (tree : Option PlainNode)
            × FrameStandsFor (plain_checked checked.now) (meant_in table.now ⟦<dyn Delegate as Delegate>⟧) marks tree self.old }
        requires room { self.old.screen.spent ≡ false → (frames : ℕ) × (frames < 2 ^ 32) × HasRoomAfter frames self.old }
        requires root { IsTypedWidget (declarations_of (plain_checked checked.now)) (shared root.now) }
        requires size { IsSized root.now.value }
        requires again { again ≡ true → IfSome self.old.settled (λ kept. kept ≡ shared root.now) }
        ensures builds_frame { OnOk result ((marks : List ℕ) (tree : Option PlainNode)
            → FrameStandsFor (plain_checked checked.now) (meant_in table.now ⟦<dyn Delegate as Delegate>⟧) marks tree self.old
            → BuildsFrame (plain_checked checked.now) (screen_for self.old (meant_in table.now ⟦<dyn Delegate as Delegate>⟧) view) tree (shared root.now) self.old self.new layouts.old layouts.new) }
        ensures fault { IfErr result (λ e. IfSome (fault_of e) (λ f. (marks : List ℕ) (tree : Option PlainNode)
            → FrameStandsFor (plain_checked checked.now) (meant_in table.now ⟦<dyn Delegate as Delegate>⟧) marks tree self.old
            → built_after (plain_checked checked.now) (screen_for self.old (meant_in table.now ⟦<dyn Delegate as Delegate>⟧) view) self.old tree (shared root.now) ≡ failed f)) }
        ensures too_large { self.old.screen.spent ≡ false → output_limit < count_of (shared root.now) → result ≡ Err FrameFault.OutputTooLarge }
        ensures builds { OnOk result ((marks : List ℕ) (tree : Option PlainNode)
            → FrameStandsFor (plain_checked checked.now) (meant_in table.now ⟦<dyn Delegate as Delegate>⟧) marks tree self.old
            → builds.new ≡ builds.old + builds_after (plain_checked checked.now) (screen_for self.old (meant_in table.now ⟦<dyn Delegate as Delegate>⟧) view) self.old tree marks (shared root.now)) }
        ensures builds_at_fault { IfErr result (λ e. IfSome (fault_of e) (λ f. (marks : List ℕ) (tree : Option PlainNode)
            → FrameStandsFor (plain_checked checked.now) (meant_in table.now ⟦<dyn Delegate as Delegate>⟧) marks tree self.old
            → builds.new ≡ builds.old + builds_after (plain_checked checked.now) (screen_for self.old (meant_in table.now ⟦<dyn Delegate as Delegate>⟧) view) self.old tree marks (shared root.now))) }
        ensures laid_at_fault { IfErr result (λ e. IfSome (fault_of e) (λ f. (marks : List ℕ) (tree : Option PlainNode)
            → FrameStandsFor (plain_checked checked.now) (meant_in table.now ⟦<dyn Delegate as Delegate>⟧) marks tree self.old
            → LaidForFault (plain_checked checked.now) (screen_for self.old (meant_in table.now ⟦<dyn Delegate as Delegate>⟧) view) tree (next_in self.old) (shared root.now)
            self.old.screen.nodes layouts.old layouts.new)) }
        // The root is kept, for which nothing is to be built then, unless the tree has a lazy list.
        ensures kept { OnOk result ((marks : List ℕ) (tree : Option PlainNode) (made : PlainNode) (next : ℕ)
            → FrameStandsFor (plain_checked checked.now) (meant_in table.now ⟦<dyn Delegate as Delegate>⟧) marks tree self.old
            → built_after (plain_checked checked.now) (screen_for self.old (meant_in table.now ⟦<dyn Delegate as Delegate>⟧) view) self.old tree (shared root.now) ≡ built made next
            → HasNoLists made → (self.new.settled ≡ Some (shared root.now)) × (self.new.marked ≡ None)) }
        ensures settles { OnOk result (IfSome self.new.settled (λ kept. kept ≡ shared root.now)) }
        // Where nothing is to be built nothing changes.
        ensures idle { OnOk result (self.old.settled ≡ Some (shared root.now) → self.old.marked ≡ None → self.new ≡ self.old) }
        ensures room { OnOk result ((frames : ℕ) → HasRoomAfter frames self.old → HasRoomAfter (frames + 1) self.new) }
        ensures scale { self.new.screen.scale ≡ self.old.screen.scale }
        ensures spent { OnErr result (self.new.screen.spent ≡ true) }
        ensures unspent { OnOk result (self.old.screen.spent ≡ false) }
        ensures ready { OnOk result (self.new.screen.spent ≡ false) }
        ensures refused { self.old.screen.spent ≡ true → result ≡ Err FrameFault.OutOfMemory }
    {
        if self.spent {
            return Err(FrameFault::OutOfMemory);
        }
        if self.is_settled(root, again) {
            return Ok(());
        }
        let renewed = self.renew_marked(checked, root, again, builds)?;
        if renewed {
            return Ok(());
        }
        self.build_anew(checked, root, view, table, builds, layouts)?;
        Ok(())
    }

    // Whether it is known that a frame of a root in a view builds nothing, and shows what is shown.
    fn is_idle(&self, root: &Rc<Widget>, again: bool, view: Size) -> bool
        requires { again ≡ true → IfSome self.now.settled (λ kept. kept ≡ shared root.now) }
        ensures { IsTrue result ↔ ((self.now.settled ≡ Some (shared root.now)) × (self.now.marked ≡ None) × (self.now.still ≡ Some view)) }
    {
        let Some(shown) = self.still else {
            return false;
        };
        if shown != view {
            return false;
        }
        self.is_settled(root, again)
    }

    /// Builds the tree of a root after the tree for which the owner stands, and shows it in a view of this size, in u: only the components
    /// that changed are built, and of the render nodes only what is marked or changed is laid out and painted. Each build of a component
    /// counts as one step, each rule of a layout that is run, and each painted node.
    ///
    /// The numbers that are marked are those whose fields were set since the last frame; the delegates mean what they meant when they were
    /// last marked. Where it is said that this is the root for which the tree is settled, if it is for any, they aren't compared.
    ///
    /// Answers whether nothing was due: then what is shown is what was. The first fault of the build is answered, and want of memory, which
    /// a spent owner always answers. After either the owner is spent.
    pub fn frame<B: Ledger, L: Ledger, P: Ledger>(
        &mut self,
        checked: &Checked,
        root: &Rc<Widget>,
        again: bool,
        view: Size,
        table: &DelegateTable,
        builds: &mut Steps<B>,
        layouts: &mut Steps<L>,
        paints: &mut Steps<P>,
    ) -> Result<bool, FrameFault>
        requires stands { self.old.screen.spent ≡ false → (marks : List ℕ) × (tree : Option PlainNode)
            × FrameStandsFor (plain_checked checked.now) (meant_in table.now ⟦<dyn Delegate as Delegate>⟧) marks tree self.old }
        requires room { self.old.screen.spent ≡ false → (frames : ℕ) × (frames < 2 ^ 32) × HasRoomAfter frames self.old }
        requires root { IsTypedWidget (declarations_of (plain_checked checked.now)) (shared root.now) }
        requires size { IsSized root.now.value }
        requires again { again ≡ true → IfSome self.old.settled (λ kept. kept ≡ shared root.now) }
        // What the full build gives is shown, by full layout and full painting; and it stands then, with the offsets of its layout.
        ensures shows { OnOk result ((marks : List ℕ) (tree : Option PlainNode)
            → FrameStandsFor (plain_checked checked.now) (meant_in table.now ⟦<dyn Delegate as Delegate>⟧) marks tree self.old
            → ShowsFrame (plain_checked checked.now) (screen_for self.old (meant_in table.now ⟦<dyn Delegate as Delegate>⟧) view)
            (built_after (plain_checked checked.now) (screen_for self.old (meant_in table.now ⟦<dyn Delegate as Delegate>⟧) view) self.old tree (shared root.now)) self.new) }
        ensures fault { IfErr result (λ e. IfSome (fault_of e) (λ f. (marks : List ℕ) (tree : Option PlainNode)
            → FrameStandsFor (plain_checked checked.now) (meant_in table.now ⟦<dyn Delegate as Delegate>⟧) marks tree self.old
            → built_after (plain_checked checked.now) (screen_for self.old (meant_in table.now ⟦<dyn Delegate as Delegate>⟧) view) self.old tree (shared root.now) ≡ failed f)) }
        // A root that is too large is told before anything takes memory.
        ensures too_large { self.old.screen.spent ≡ false → output_limit < count_of (shared root.now) → result ≡ Err FrameFault.OutputTooLarge }
        // Exactly the components are built that are new, marked, have another widget, or read another value.
        ensures builds { OnOk result ((marks : List ℕ) (tree : Option PlainNode)
            → FrameStandsFor (plain_checked checked.now) (meant_in table.now ⟦<dyn Delegate as Delegate>⟧) marks tree self.old
            → builds.new ≡ builds.old + builds_after (plain_checked checked.now) (screen_for self.old (meant_in table.now ⟦<dyn Delegate as Delegate>⟧) view) self.old tree marks (shared root.now)) }
        ensures builds_at_fault { IfErr result (λ e. IfSome (fault_of e) (λ f. (marks : List ℕ) (tree : Option PlainNode)
            → FrameStandsFor (plain_checked checked.now) (meant_in table.now ⟦<dyn Delegate as Delegate>⟧) marks tree self.old
            → builds.new ≡ builds.old + builds_after (plain_checked checked.now) (screen_for self.old (meant_in table.now ⟦<dyn Delegate as Delegate>⟧) view) self.old tree marks (shared root.now))) }
        ensures steps { OnOk result ((marks : List ℕ) (tree : Option PlainNode)
            → FrameStandsFor (plain_checked checked.now) (meant_in table.now ⟦<dyn Delegate as Delegate>⟧) marks tree self.old
            → FrameWorks (setting_of self.old.screen.scale (meant_in table.now ⟦<dyn Delegate as Delegate>⟧)) view
            (built_after (plain_checked checked.now) (screen_for self.old (meant_in table.now ⟦<dyn Delegate as Delegate>⟧) view) self.old tree (shared root.now))
            self.old.screen.nodes self.new.screen.nodes layouts.old layouts.new paints.old paints.new) }
        // Up to a fault nothing is painted, and at most the lazy lists of the first phase are laid out.
        ensures unpainted { IfErr result (λ e. IfSome (fault_of e) (λ f. paints.new ≡ paints.old)) }
        ensures laid_at_fault { IfErr result (λ e. IfSome (fault_of e) (λ f. (marks : List ℕ) (tree : Option PlainNode)
            → FrameStandsFor (plain_checked checked.now) (meant_in table.now ⟦<dyn Delegate as Delegate>⟧) marks tree self.old
            → LaidForFault (plain_checked checked.now) (screen_for self.old (meant_in table.now ⟦<dyn Delegate as Delegate>⟧) view) tree (next_in self.old) (shared root.now)
            self.old.screen.nodes layouts.old layouts.new)) }
        ensures laid { OnOk result (IsLaidIn view self.new.screen.nodes) }
        // The root is kept, for which nothing is to be built then, unless the tree has a lazy list.
        ensures kept { OnOk result ((marks : List ℕ) (tree : Option PlainNode) (made : PlainNode) (next : ℕ)
            → FrameStandsFor (plain_checked checked.now) (meant_in table.now ⟦<dyn Delegate as Delegate>⟧) marks tree self.old
            → built_after (plain_checked checked.now) (screen_for self.old (meant_in table.now ⟦<dyn Delegate as Delegate>⟧) view) self.old tree (shared root.now) ≡ built made next
            → HasNoLists made → (self.new.settled ≡ Some (shared root.now)) × (self.new.marked ≡ None)) }
        // And it is kept for no other.
        ensures settles { OnOk result (IfSome self.new.settled (λ kept. kept ≡ shared root.now)) }
        // Nothing is due exactly where the tree is settled for the root, nothing of it is marked, and in this view what is shown is what stands,
        // as it is after each frame.
        ensures idle { IfOk result (λ idle. IsTrue idle ↔ ((self.old.settled ≡ Some (shared root.now)) × (self.old.marked ≡ None) × (self.old.still ≡ Some view))) }
        ensures again { IfOk result (λ idle. idle ≡ true → (marks : List ℕ) (tree : Option PlainNode)
            → FrameStandsFor (plain_checked checked.now) (meant_in table.now ⟦<dyn Delegate as Delegate>⟧) marks tree self.old
            → (shown_in self.new.screen ≡ shown_in self.old.screen) × (layer_in self.new.screen ≡ layer_in self.old.screen)) }
        ensures still { OnOk result (self.new.still ≡ Some view) }
        // The next frame has room for its nodes.
        ensures room { OnOk result ((frames : ℕ) → HasRoomAfter frames self.old → HasRoomAfter (frames + 1) self.new) }
        ensures scale { self.new.screen.scale ≡ self.old.screen.scale }
        ensures spent { OnErr result (self.new.screen.spent ≡ true) }
        ensures ready { OnOk result (self.new.screen.spent ≡ false) }
        ensures refused { self.old.screen.spent ≡ true → result ≡ Err FrameFault.OutOfMemory }
    {
        render_marks_are_marks();
        let idle = self.is_idle(root, again, view);
        self.build(checked, root, again, view, table, builds, layouts)?;
        self.show(view, table, layouts, paints)?;
        Ok(idle)
    }
}
