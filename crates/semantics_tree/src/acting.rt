// The actions of a semantics tree (`SemanticsOwner.performAction`).
ghost use Rattle.std.specs.Prelude.{◌≡◌, Some, None, IfSome, IfNone, map};
ghost use Rattle.screen_form.specs.Acts.{sem_at, sem_in, doer_of, acted};
ghost use Rattle.screen_form.specs.Sem.{sems_of};
ghost use Rattle.semantics_tree.specs.View.{sem_of};

use crate::nodes::SemNode;
use screen_form::ActFault;
use script_lines::Action;

impl SemNode {
    /// The first node in preorder that has an id, this one or one below it; `None` exactly where there is none. It takes
    /// time in the tree's nodes.
    #[cycle(finding)]
    pub fn find(&self, id: u64) -> Option<&SemNode>
        ensures found { IfSome result (λ n. sem_at id (sem_of self.now) ≡ Some (sem_of n.now)) }
        ensures missing { IfNone result (sem_at id (sem_of self.now) ≡ None) }
    {
        if self.id == id {
            return Some(self);
        }
        find_in(self.children.get(), id)
    }

    // The detector that does an action of this node.
    fn doer(&self, action: Action) -> Option<u64>
        ensures { result ≡ doer_of action (sem_of self.now) }
    {
        match action {
            Action::Tap => self.tap,
            Action::Long => self.long,
        }
    }
}

// The first node in a list, in preorder, that has an id.
#[cycle(finding)]
fn find_in(nodes: &[SemNode], id: u64) -> Option<&SemNode>
    ensures found { IfSome result (λ n. sem_in id (sems_of (map sem_of nodes.now)) ≡ Some (sem_of n.now)) }
    ensures missing { IfNone result (sem_in id (sems_of (map sem_of nodes.now)) ≡ None) }
{
    for node in nodes {
        match node.find(id) {
            None => continue,
            Some(found) => return Some(found),
        }
    }
    None
}

/// The number of the detector that does an action of the node with an id. It is refused with `NoSemanticsNode` exactly
/// where the tree has no node with this id, and with `NoAction` exactly where the node hasn't the action.
pub fn act(root: &SemNode, id: u64, action: Action) -> Result<u64, ActFault>
    ensures { result ≡ acted (sem_of root.now) id action }
{
    match root.find(id) {
        None => Err(ActFault::NoSemanticsNode),
        Some(node) => match node.doer(action) {
            None => Err(ActFault::NoAction),
            Some(number) => Ok(number),
        },
    }
}
