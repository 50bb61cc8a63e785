// Removals, and plans for the tree or a part of it, which keep the users of delegates. They set no marks.
ghost use Rattle.std.specs.Prelude.{◌≡◌, ◌++◌, ℕ, List, Option, true, false, [], OnOk, OnErr};
ghost use Rattle.std.specs.Result.{is_err};
ghost use Rattle.fx_handles.specs.declared.Handle.{Handle};
ghost use Rattle.fx_handles.specs.Handle.{AreDistinct};
ghost use Rattle.fx_handles.specs.Arena.{used_count};
ghost use Rattle.handle_groups.specs.Groups.{stands_under};
ghost use Rattle.node_tree.specs.Forest.{Forest, size, append};
ghost use Rattle.node_tree.specs.Tree.{IsNode, Is};
ghost use Rattle.node_tree.specs.Edits.{RemovesBelow, DropsInactive};
ghost use Rattle.node_tree.specs.Plan.{IsPlan, IsUpdated, Commits, planned};
ghost use Rattle.node_tree.specs.Part.{IsPartPlan, CommitsPart, left_tops, left_forest};
ghost use Rattle.render_tree.specs.Object.{RenderObject as RenderObjectOf};
ghost use Rattle.render_tree.specs.Redraw.{Redraw as RedrawOf, redrawn};
ghost use Rattle.render_tree.specs.Tree.{object_at};
ghost use Rattle.render_tree.specs.Users.{is_called};
ghost use Rattle.render_tree.specs.Renamed.{Renames, RenamesAll};

use crate::RenderTree;
use crate::dropping::{drop_at, drop_inactive_users};
use crate::object::{Redraw, RenderObject};
use crate::users::{drop_user, put_user, reserve_user};
use fx_handles::Handle;
use handle_groups::Groups;
use node_tree::{PlanEntry, Tree};
use std::alloc::AllocError;

// Notes that a node uses another kind's delegate.
fn rename(
    users: &mut Groups,
    tree: &Tree<RenderObject>,
    entry: &PlanEntry<Redraw>,
) -> Result<(), AllocError>
    ensures { OnOk result (Renames tree.now entry.now users.old users.new) }
{
    let at = entry.at();
    let Some(object) = tree.value(at) else {
        return Ok(());
    };
    let update = entry.update();
    drop_user(users, &object.widget.kind, at);
    reserve_user(users, &update.widget.kind)?;
    put_user(users, &update.widget.kind, at);
    Ok(())
}

// So it is of each node of a plan.
fn rename_all(
    users: &mut Groups,
    tree: &Tree<RenderObject>,
    plan: &[PlanEntry<Redraw>],
) -> Result<(), AllocError>
    requires { AreDistinct (planned plan.now) }
    ensures { OnOk result (RenamesAll tree.now plan.now users.old users.new) }
{
    for entry in plan {
        rename(users, tree, entry)?;
    }
    Ok(())
}

impl RenderTree {
    // Takes a node away with all that is below it, and gives the number of these nodes.
    pub(crate) fn remove_unmarked(&mut self, h: Handle) -> u32
        ensures removes { IsNode self.old.tree h → RemovesBelow self.old.tree self.new.tree h result }
        ensures absent { (IsNode self.old.tree h → ⊥) → (result ≡ 0) × (self.new ≡ self.old) }
        ensures spent { self.new.spent ≡ self.old.spent }
        ensures scale { self.new.scale ≡ self.old.scale }
    {
        Tree::<RenderObject>::edit_laws();
        self.tree.count_laws();
        if !self.tree.contains(h) {
            return 0;
        }
        drop_at(&mut self.users, &self.tree, h);
        let count = self.tree.remove(h);
        count as u32
    }

    /// Takes all inactive subtrees away, and gives the number of their nodes.
    pub fn drop_inactive(&mut self) -> u32
        ensures drops { DropsInactive self.old.tree self.new.tree result }
        ensures spent { self.new.spent ≡ self.old.spent }
        ensures scale { self.new.scale ≡ self.old.scale }
    {
        Tree::<RenderObject>::edit_laws();
        Tree::<RenderObject>::walk_laws();
        Tree::<RenderObject>::child_laws();
        Tree::<RenderObject>::keep_laws();
        self.tree.count_laws();
        drop_inactive_users(&mut self.users, &self.tree);
        let count = self.tree.drop_inactive();
        count as u32
    }

    /// Makes a plan the whole tree, with this root, if there is one: every node that the plan doesn't name is taken away, and
    /// each that it names gets its place there, its widget, and what its parent takes from the widgets between them. The plan is
    /// empty afterwards, and no mark is set. After want of memory, which a spent tree always answers, nothing has changed, nor
    /// has the plan.
    pub fn commit(
        &mut self,
        root: Option<Handle>,
        plan: &mut Vec<PlanEntry<Redraw>>,
    ) -> Result<(), AllocError>
        requires { (g : Forest RedrawOf) × IsPlan self.old.tree plan.old.items root [] g }
        ensures commits { OnOk result (Commits redrawn plan.old.items self.old.tree.nodes self.new.tree.nodes) }
        ensures used { OnOk result ((g : Forest RedrawOf) → IsPlan self.old.tree plan.old.items root [] g
            → used_count self.new.tree.nodes ≡ size g) }
        ensures root { OnOk result (self.new.tree.root ≡ root) }
        ensures inactive { OnOk result (self.new.tree.inactive ≡ []) }
        ensures plain { OnOk result ((g : Forest RedrawOf) (f : Forest RenderObjectOf) → IsPlan self.old.tree plan.old.items root [] g
            → IsUpdated redrawn (object_at self.old.tree) g f → Is self.new.tree f) }
        ensures taken { OnOk result (plan.new.items ≡ []) }
        ensures refused { self.old.spent ≡ true → is_err result ≡ true }
        ensures spent { self.new.spent ≡ self.old.spent }
        ensures scale { self.new.scale ≡ self.old.scale }
        ensures err { OnErr result ((self.new ≡ self.old) × (plan.new.items ≡ plan.old.items)) }
    {
        if self.spent {
            return Err(AllocError);
        }
        let mut users = Groups::new(self.alloc);
        rename_all(&mut users, &self.tree, plan.as_slice())?;
        let mut inactive = Vec::new(self.alloc);
        self.tree.commit(root, &mut inactive, plan)?;
        self.users = users;
        Ok(())
    }

    /// Makes a plan a part of the tree, with this root, if there is one, and these inactive tops: each node that the plan names
    /// gets its place there, its widget, and what its parent takes from the widgets between them. Every other node keeps what is
    /// stored at it, and its children but for the named ones; what the plan doesn't list stands beside the part, in inactive
    /// subtrees, whose tops come last. The plan and the list of tops are empty afterwards, and no mark is set. After want of
    /// memory, which a spent tree always answers, nothing has changed, neither the tree nor the two lists.
    pub fn commit_part(
        &mut self,
        root: Option<Handle>,
        inactive: &mut Vec<Handle>,
        plan: &mut Vec<PlanEntry<Redraw>>,
    ) -> Result<(), AllocError>
        requires { (g : Forest RenderObjectOf) × IsPartPlan redrawn self.old.tree plan.old.items root inactive.old.items g }
        ensures commits { OnOk result (CommitsPart redrawn plan.old.items self.old.tree.nodes self.new.tree.nodes) }
        ensures root { OnOk result (self.new.tree.root ≡ root) }
        ensures inactive { OnOk result (self.new.tree.inactive ≡ inactive.old.items ++ left_tops self.old.tree plan.old.items) }
        ensures plain { OnOk result ((f g : Forest RenderObjectOf) → Is self.old.tree f
            → IsPartPlan redrawn self.old.tree plan.old.items root inactive.old.items g
            → Is self.new.tree (append g (left_forest plan.old.items f (left_tops self.old.tree plan.old.items)))) }
        ensures taken { OnOk result ((inactive.new.items ≡ []) × (plan.new.items ≡ [])) }
        ensures refused { self.old.spent ≡ true → is_err result ≡ true }
        ensures spent { self.new.spent ≡ self.old.spent }
        ensures scale { self.new.scale ≡ self.old.scale }
        ensures err { OnErr result ((self.new ≡ self.old) × (inactive.new.items ≡ inactive.old.items)
            × (plan.new.items ≡ plan.old.items)) }
    {
        if self.spent {
            return Err(AllocError);
        }
        let mut users = self.users.copied()?;
        rename_all(&mut users, &self.tree, plan.as_slice())?;
        self.tree.commit_part(root, inactive, plan)?;
        self.users = users;
        Ok(())
    }

    /// Makes the tree spent: from now on each call that takes memory answers that there is none.
    pub fn spend(&mut self)
        ensures { self.new ≡ record self.old { spent = true } }
    {
        self.spent = true;
    }
}
