// How far the mark of a node reaches.
ghost use Rattle.std.specs.Prelude.{◌≡◌, List, ◌≤◌, length, Some, IfSome};
ghost use Rattle.fx_handles.specs.declared.Handle.{Handle};
ghost use Rattle.fx_handles.specs.declared.TheConstants.{SLOTS_MAX};
ghost use Rattle.node_tree.specs.Tree.{IsNode, IsTree, node_at};
ghost use Rattle.tree_marks.specs.Ways.{IsWay, place_of, reach, stepped};

use crate::marks::Marks;
use fx_handles::Handle;
use node_tree::Tree;

// What is known of a way that was gone up: how many nodes it has, how many of them get the flag, and whether the next one gets
// it too.
#[derive(Clone, Copy)]
pub(crate) struct Climb {
    pub(crate) steps: usize,
    pub(crate) flags: usize,
    pub(crate) rising: bool,
}

// One node more. One that asks takes all that are below it along, after the fact.
fn one_more(climb: Climb, asks: bool, ends: bool) -> Climb
    requires { climb.steps ≤ SLOTS_MAX }
    ensures { result ≡ stepped climb asks ends }
{
    let steps = climb.steps + 1;
    if climb.rising || asks {
        Climb {
            steps,
            flags: steps,
            rising: !ends,
        }
    } else {
        Climb {
            steps,
            flags: climb.flags,
            rising: false,
        }
    }
}

// Whether what a node with this value comes to tells nothing above it, where it stands below this parent.
fn ends_mark<T, M: Marks<T>>(marks: &M, tree: &Tree<T>, value: &T, parent: Option<Handle>) -> bool
    requires { IfSome parent (λ p. IsNode tree.now p) }
    ensures { (es : List (Handle × T)) → IsWay (node_at tree.now) parent es
        → result ≡ M.marking.ends (place_of M.marking es).top (place_of M.marking es).hidden value.now }
{
    match parent {
        None => marks.ends(value, true, false),
        Some(p) => {
            let Some(above) = tree.value(p) else {
                unreachable!()
            };
            marks.ends(value, false, marks.hides(above))
        }
    }
}

// How long the way up from a node is, and how many of its nodes get the flag.
pub(crate) fn climb_of<T, M: Marks<T>>(marks: &M, tree: &Tree<T>, h: Handle) -> Climb
    requires { IsNode tree.now h }
    ensures tree { IsTree tree.now }
    ensures steps { (es : List (Handle × T)) → IsWay (node_at tree.now) (Some h) es → result.steps ≡ length es }
    ensures flags { (es : List (Handle × T)) → IsWay (node_at tree.now) (Some h) es → result.flags ≡ reach M.marking es }
{
    tree.count_laws();
    let mut climb = Climb {
        steps: 0,
        flags: 0,
        rising: true,
    };
    let mut next = Some(h);
    while let Some(at) = next {
        let Some(value) = tree.value(at) else {
            unreachable!()
        };
        next = tree.parent(at);
        let ends = ends_mark(marks, tree, value, next);
        climb = one_more(climb, marks.asks(value), ends);
    }
    climb
}
