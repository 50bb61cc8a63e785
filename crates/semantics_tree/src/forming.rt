// A semantics node in the making.
ghost use Rattle.std.specs.Prelude.{◌≡◌, true, false, None, map, OnOk, string_bytes};
ghost use Rattle.semantics_tree.specs.Forming.{heard, begun, after, side_by_side, made, with_line};
ghost use Rattle.screen_form.specs.Fragment.{own, alone};
ghost use Rattle.semantics_tree.specs.View.{sem_of};

use crate::nodes::{SemList, SemNode};
use fx_expr::Txt;
use fx_geom::Rect;
use std::alloc::{AllocError, Global};

// A semantics node in the making: whether it merges all that is below it, its label so far, whether it is a button, the
// detectors that do its actions, and the nodes below it so far.
#[derive(Drop)]
pub(crate) struct Forming {
    merging: bool,
    label: String,
    button: bool,
    tap: Option<u64>,
    long: Option<u64>,
    nodes: Vec<SemNode>,
}

// Adds a label to those that are joined.
fn push_label(joined: &mut String, label: &str) -> Result<(), AllocError>
    ensures { OnOk result (string_bytes joined.new ≡ with_line (string_bytes joined.old) label.now) }
{
    if label.is_empty() {
        return Ok(());
    }
    if !joined.is_empty() {
        joined.push('\n')?;
    }
    joined.push_str(label)
}

impl Forming {
    // A node that has heard nothing, with its own detectors.
    pub(crate) fn new(alloc: Global, tap: Option<u64>, long: Option<u64>) -> Forming
        ensures { heard result ≡ begun false tap long }
    {
        Forming {
            merging: false,
            label: String::new(alloc),
            button: false,
            tap,
            long,
            nodes: Vec::new(alloc),
        }
    }

    // A merging node that has heard nothing.
    pub(crate) fn merging(alloc: Global) -> Forming
        ensures { heard result ≡ begun true None None }
    {
        Forming {
            merging: true,
            label: String::new(alloc),
            button: false,
            tap: None,
            long: None,
            nodes: Vec::new(alloc),
        }
    }

    // Takes a label, which may be empty, and whether it is a button's.
    pub(crate) fn say(&mut self, label: &str, button: bool) -> Result<(), AllocError>
        ensures { OnOk result (heard self.new ≡ after (heard self.old) (own label.now button)) }
    {
        self.button = self.button || button;
        push_label(&mut self.label, label)
    }

    // Takes a semantics node.
    pub(crate) fn add(&mut self, node: SemNode) -> Result<(), AllocError>
        ensures { OnOk result (heard self.new ≡ after (heard self.old) (alone (sem_of node))) }
    {
        if self.merging {
            return self.merge(&node);
        }
        self.nodes.push(node)?;
        Ok(())
    }

    // Takes all that a node and those below it have.
    #[cycle(merging)]
    fn merge(&mut self, node: &SemNode) -> Result<(), AllocError>
        requires { self.old.merging ≡ true }
        ensures { OnOk result (heard self.new ≡ after (heard self.old) (alone (sem_of node.now))) }
    {
        self.say(node.label.get(), node.button)?;
        self.tap = self.tap.or(node.tap);
        self.long = self.long.or(node.long);
        self.merge_all(node.children.get())
    }

    // The same of the nodes in a list.
    #[cycle(merging)]
    fn merge_all(&mut self, nodes: &[SemNode]) -> Result<(), AllocError>
        requires { self.old.merging ≡ true }
        ensures { OnOk result (heard self.new ≡ after (heard self.old) (side_by_side (map sem_of nodes.now))) }
    {
        for node in nodes {
            self.merge(node)?;
        }
        Ok(())
    }

    // The node, with its number and where it stands in the view.
    pub(crate) fn finish(self, id: u64, rect: Rect) -> SemNode
        ensures { sem_of result ≡ made (heard self) id rect }
    {
        let Forming {
            merging: _,
            label,
            button,
            tap,
            long,
            nodes,
        } = self;
        SemNode {
            id,
            rect,
            label: Txt::of(label),
            button,
            tap,
            long,
            children: SemList::of(nodes),
        }
    }
}
