// What was built is laid out and painted.
ghost use Rattle.std.specs.Prelude.{◌≡◌, true, false, [], Some, OnOk, OnErr};
ghost use Rattle.std.specs.Result.{is_err};
ghost use Rattle.delegates.specs.Table.{meant_in};
ghost use Rattle.fx_handles.specs.Arena.{used_count, retired_count, inserted_count};
ghost use Rattle.node_tree.specs.Tree.{Tree as TreeOf};
ghost use Rattle.plain_tree.specs.PlainNode.{PlainNode};
ghost use Rattle.plain_tree.specs.Render.{Render};
ghost use Rattle.program_check.specs.Checked.{PlainChecked};
ghost use Rattle.layout_form.specs.Object.{setting_of};
ghost use Rattle.render_tree.specs.Object.{RenderObject as RenderObjectOf};
ghost use Rattle.screen_owner.specs.Screen.{shown_in, layer_in};
ghost use Rattle.screen_owner.specs.Steps.{Brings, FrameSteps, StepsOver, IsLaidIn};
ghost use Rattle.frame_owner.specs.Standing.{FrameStandsFor};
ghost use Rattle.frame_owner.specs.Framed.{screen_for, ShowsBuild};

use crate::owner::FrameOwner;
use build_form::{built_trees_can_be_laid_out, built_trees_vanish_alone};
use delegates::{Delegate, DelegateTable};
use fx_geom::Size;
use fx_outside::Steps;
use kept_builds::lines_leave_standing_trees;
use layout_form::projections_take_offsets;
use layout_owner::calm_trees_show_full_layout;
use plain_tree::{one_root_is_laid_out, projection_keeps_numbers_apart};
use render_tree::render_marks_are_marks;
use screen_owner::draw;
use settled_builds::{lines_leave_marked_trees, lines_leave_settled_trees};
use std::alloc::AllocError;
use std::sync::ledger::Ledger;

impl FrameOwner {
    /// ShowsBuild the tree that was built, in a view of this size, in u: it is laid out and painted, of both only what is marked or changed.
    /// Each rule of a layout that is run counts as one step, and so does each painted node. Viewports stand scrolled afterwards where
    /// the layout left them.
    ///
    /// The owner stands for a tree of which no number is marked. The error is want of memory, which a spent owner always answers; after
    /// it the owner is spent.
    pub fn show<L: Ledger, P: Ledger>(
        &mut self,
        view: Size,
        table: &DelegateTable,
        layouts: &mut Steps<L>,
        paints: &mut Steps<P>,
    ) -> Result<(), AllocError>
        requires stands { self.old.screen.spent ≡ false → (c : PlainChecked) × (built : PlainNode)
            × FrameStandsFor c (meant_in table.now ⟦<dyn Delegate as Delegate>⟧) [] (Some built) self.old }
        ensures shows { OnOk result ((c : PlainChecked) (built : PlainNode) → FrameStandsFor c (meant_in table.now ⟦<dyn Delegate as Delegate>⟧) [] (Some built) self.old
            → ShowsBuild c (screen_for self.old (meant_in table.now ⟦<dyn Delegate as Delegate>⟧) view) built self.new) }
        ensures steps { OnOk result ((nodes : TreeOf RenderObjectOf) (top : Render) → Brings nodes self.old.screen.nodes top
            → FrameSteps (setting_of self.old.screen.scale (meant_in table.now ⟦<dyn Delegate as Delegate>⟧)) view nodes top self.new.screen.nodes
            layouts.old layouts.new paints.old paints.new) }
        // They are steps over the render nodes that are there.
        ensures over { OnOk result ((nodes : TreeOf RenderObjectOf) (top : Render) → Brings nodes self.old.screen.nodes top
            → StepsOver (setting_of self.old.screen.scale (meant_in table.now ⟦<dyn Delegate as Delegate>⟧)) view nodes self.old.screen.nodes top self.new.screen.nodes
            layouts.old layouts.new paints.old paints.new) }
        // Nothing in the window has to be laid out then, and the root was asked to be as large as the view.
        ensures laid { OnOk result (IsLaidIn view self.new.screen.nodes) }
        // Where what was shown in this view is what stands, it is shown again.
        ensures again { OnOk result ((c : PlainChecked) (built : PlainNode) → FrameStandsFor c (meant_in table.now ⟦<dyn Delegate as Delegate>⟧) [] (Some built) self.old
            → self.old.still ≡ Some view → (shown_in self.new.screen ≡ shown_in self.old.screen) × (layer_in self.new.screen ≡ layer_in self.old.screen)) }
        // And what is shown then is what stands.
        ensures still { OnOk result (self.new.still ≡ Some view) }
        ensures elements { self.new.elements ≡ self.old.elements }
        ensures keys { self.new.keys ≡ self.old.keys }
        ensures settled { self.new.settled ≡ self.old.settled }
        ensures marked { self.new.marked ≡ self.old.marked }
        ensures used { OnOk result (used_count self.new.screen.nodes.nodes ≡ used_count self.old.screen.nodes.nodes) }
        ensures retired { OnOk result (retired_count self.new.screen.nodes.nodes ≡ retired_count self.old.screen.nodes.nodes) }
        ensures made { OnOk result (inserted_count self.new.screen.nodes.nodes ≡ inserted_count self.old.screen.nodes.nodes) }
        ensures scale { self.new.screen.scale ≡ self.old.screen.scale }
        ensures spent { OnErr result (self.new.screen.spent ≡ true) }
        ensures ready { OnOk result (self.new.screen.spent ≡ false) }
        ensures refused { self.old.screen.spent ≡ true → is_err result ≡ true }
    {
        built_trees_vanish_alone();
        built_trees_can_be_laid_out();
        one_root_is_laid_out();
        projection_keeps_numbers_apart();
        projections_take_offsets();
        lines_leave_standing_trees();
        lines_leave_settled_trees();
        lines_leave_marked_trees();
        calm_trees_show_full_layout();
        render_marks_are_marks();
        if self.spent {
            return Err(AllocError);
        }
        // Each of these tells the proof that this is a tree, and how many nodes it has.
        let _ = self.nodes.root();
        self.elements.tree().count_laws();
        self.spent = true;
        draw(
            self.alloc,
            &mut self.nodes,
            &mut self.layers,
            view,
            table,
            layouts,
            paints,
        )?;
        let _ = self.nodes.root();
        self.still = Some(view);
        self.spent = false;
        Ok(())
    }
}
