// Where nothing is to be built: a build of the root gives the tree that stands.
ghost use Rattle.std.specs.Prelude.{◌≡◌, ℕ, ◌≤◌, ◌↔◌, IsTrue, true, not, [], List, Option, Some, None, is_some, option_map, IfSome, IfOk};
ghost use Rattle.node_tree.specs.Tree.{Holds, subtree_at, Tree as TreeOf};
ghost use Rattle.element_tree.specs.Element.{Element as ElementOf};
ghost use Rattle.global_keys.specs.Holders.{Registry as RegistryOf};
ghost use Rattle.plain_tree.specs.PlainNode.{PlainNode};
ghost use Rattle.program_check.specs.Checked.{PlainChecked};
ghost use Rattle.build_form.specs.Entering.{output_limit};
ghost use Rattle.build_form.specs.FullBuild.{Screen, built, full_build};
ghost use Rattle.build_form.specs.Program.{blueprint_of};
ghost use Rattle.render_tree.specs.Object.{RenderObject as RenderObjectOf};
ghost use Rattle.widget_model.specs.Size.{count_of};
ghost use Rattle.widget_model.specs.View.{look_in, shared};
ghost use Rattle.work_sets.specs.Due.{names_read};
ghost use Rattle.build_owner.specs.Standing.{StandsFor};
ghost use Rattle.frame_owner.specs.Building.{BuildsFrame};
ghost use Rattle.frame_owner.specs.Framed.{builds_after};
ghost use Rattle.frame_owner.specs.Nodes.{lists_among, root_to_keep, globals_below, is_alone};
ghost use Rattle.frame_owner.specs.Standing.{IsSettledIn, FrameStandsFor};

use crate::owner::FrameOwner;
use build_form::{build_role_of, built_trees_vanish_alone};
use element_tree::{Element, ElementTree};
use fx_handles::Handle;
use global_keys::Registry;
use node_tree::Tree;
use plain_tree::{one_root_is_laid_out, projection_keeps_numbers_apart};
use render_tree::render_marks_are_marks;
use settled_builds::{builds_leave_settled_trees, settled_trees_stay};
use std::alloc::AllocError;
use std::rc::Rc;
use widget_model::{Kind, Widget, same};

// Whether an element or one below it is a lazy list.
#[cycle(listing)]
fn has_lists(tree: &ElementTree, h: Handle) -> bool
    requires { Holds tree.now.tree h }
    ensures { result ≡ lists_among (subtree_at tree.now.tree h) }
{
    Tree::<Element>::child_laws();
    let Some(widget) = tree.widget(h) else {
        return false;
    };
    if build_role_of(&widget.kind).is_lazy() {
        return true;
    }
    let children = tree.children(h);
    for child in children {
        if has_lists(tree, *child) {
            return true;
        }
    }
    false
}

/// Whether no widget of the tree for which a registry stands has a global key: so it is where no key is recorded.
pub(crate) fn is_keyless(keys: &Registry) -> bool
    ensures { (c : PlainChecked) (made : Option PlainNode) (scrolled : ℕ → ℕ) (t : TreeOf ElementOf) (r : TreeOf RenderObjectOf)
        → StandsFor c [] made scrolled t r keys.now → result ≡ not (globals_below t t.root) }
{
    keys.is_empty()
}

// Whether a kind is a component.
fn is_component(kind: &Kind) -> bool
    ensures { result ≡ is_some (names_read (look_in kind.now)) }
{
    match kind {
        Kind::Use { .. } => true,
        _ => false,
    }
}

/// Whether a component is marked alone once that of an element is, where one was marked before, or none.
pub(crate) fn is_alone(tree: &ElementTree, marked: Option<Handle>, h: Handle) -> bool
    ensures { result ≡ is_alone tree.now.tree marked h }
{
    match marked {
        Some(k) => k == h,
        None => match tree.widget(h) {
            Some(widget) => is_component(&widget.kind),
            None => false,
        },
    }
}

/// The root of a build, if the tree that it gave is settled for it: it is unless there is a lazy list, whose items depend on more. Where it
/// is said that there is none the elements aren't looked through.
pub(crate) fn settled_root(
    tree: &ElementTree,
    root: &Rc<Widget>,
    listless: bool,
) -> Result<Option<Rc<Widget>>, AllocError>
    requires { listless ≡ true → root_to_keep (shared root.now) tree.now.tree ≡ Some (shared root.now) }
    ensures settled { IfOk result (λ o. IfSome o (λ kept. (c : PlainChecked) (screen : Screen) (old : Option PlainNode) (next after : ℕ) (made : PlainNode) (scrolled : ℕ → ℕ) (r : TreeOf RenderObjectOf) (g : RegistryOf)
        → StandsFor c [] (Some made) scrolled tree.now.tree r g → full_build (blueprint_of c) screen old next (shared root.now) ≡ built made after → IsSettledIn c [] (Some made) (shared kept))) }
    // It is kept exactly where no lazy list is among the elements.
    ensures kept { IfOk result (λ o. option_map shared o ≡ root_to_keep (shared root.now) tree.now.tree) }
{
    builds_leave_settled_trees();
    if listless {
        let kept = Rc::clone(root)?;
        return Ok(Some(kept));
    }
    let Some(top) = tree.root() else {
        return Ok(None);
    };
    if has_lists(tree, top) {
        return Ok(None);
    }
    let kept = Rc::clone(root)?;
    Ok(Some(kept))
}

/// Whether the root that is kept is this one: where that isn't known they are compared.
pub(crate) fn is_root(kept: &Rc<Widget>, root: &Rc<Widget>, again: bool) -> bool
    requires { again ≡ true → shared kept.now ≡ shared root.now }
    ensures { IsTrue result ↔ (shared kept.now ≡ shared root.now) }
{
    if again {
        return true;
    }
    same(kept, root)
}

impl FrameOwner {
    /// Whether it is known that the tree is settled for a root, and nothing of it is marked. Then a build of it gives that tree and builds
    /// nothing. Where it is said that this is the root that is kept, if any is, they aren't compared.
    pub(crate) fn is_settled(&self, root: &Rc<Widget>, again: bool) -> bool
        requires again { again ≡ true → IfSome self.now.settled (λ kept. kept ≡ shared root.now) }
        ensures known { IsTrue result ↔ ((self.now.settled ≡ Some (shared root.now)) × (self.now.marked ≡ None)) }
        ensures stays { result ≡ true → (c : PlainChecked) (screen : Screen) (marks : List ℕ) (tree : Option PlainNode) (layouts : ℕ) → FrameStandsFor c screen.delegates marks tree self.now
            → BuildsFrame c screen tree (shared root.now) self.now self.now layouts layouts }
        ensures builds { result ≡ true → (c : PlainChecked) (screen : Screen) (marks : List ℕ) (tree : Option PlainNode) → FrameStandsFor c screen.delegates marks tree self.now
            → builds_after c screen self.now tree marks (shared root.now) ≡ 0 }
        ensures small { result ≡ true → (c : PlainChecked) (screen : Screen) (marks : List ℕ) (tree : Option PlainNode) → FrameStandsFor c screen.delegates marks tree self.now
            → count_of (shared root.now) ≤ output_limit }
    {
        settled_trees_stay();
        built_trees_vanish_alone();
        one_root_is_laid_out();
        projection_keeps_numbers_apart();
        render_marks_are_marks();
        if self.marked.is_some() {
            return false;
        }
        match &self.settled {
            Some(kept) => is_root(kept, root, again),
            None => false,
        }
    }
}
