// A tree with one node changed.
ghost use Rattle.std.specs.Prelude.{◌≡◌, true, false, IfNone, IfSome};
ghost use Rattle.plain_tree.specs.At.{is_there, is_there_in, changed_at, changed_in, having_fields, having_scroll, applied};
ghost use Rattle.plain_tree.specs.PlainNode.{nodes_of};
ghost use Rattle.plain_tree.specs.declared.changing.Change.TheVariants as change;

use crate::nodes::Node;
use fx_expr::ValueList;

// What of a node is to change.
#[derive(Drop)]
pub(crate) enum Change {
    Fields(ValueList),
    Scroll(u64),
}

impl Node {
    /// Gives other fields to the first node in preorder that has a number, and leaves all else as it is. Where there is
    /// no such node, nothing changes and the fields are handed back.
    pub fn set_fields(&mut self, number: u64, fields: ValueList) -> Option<ValueList>
        ensures there { IfNone result (is_there number self.old ≡ true) }
        ensures changed { IfNone result (self.new ≡ changed_at (having_fields fields) number self.old) }
        ensures missing { IfSome result (λ back. (is_there number self.old ≡ false) × (back ≡ fields) × (self.new ≡ self.old)) }
    {
        match self.change(number, Change::Fields(fields)) {
            None => None,
            Some(Change::Fields(fields)) => Some(fields),
            Some(Change::Scroll(_)) => unreachable!(),
        }
    }

    /// Scrolls the first node in preorder that has a number to an offset, in u, and leaves all else as it is. Whether
    /// there is such a node; where there is none, nothing changes.
    pub fn set_scroll(&mut self, number: u64, scroll: u64) -> bool
        ensures there { result ≡ is_there number self.old }
        ensures changed { self.new ≡ changed_at (having_scroll scroll) number self.old }
    {
        self.change(number, Change::Scroll(scroll)).is_none()
    }

    // Changes the first node in preorder that has a number, or hands the change back.
    #[cycle(changing)]
    fn change(&mut self, number: u64, change: Change) -> Option<Change>
        ensures there { IfNone result (is_there number self.old ≡ true) }
        ensures changed { IfNone result (self.new ≡ changed_at (applied change) number self.old) }
        ensures missing { IfSome result (λ back. (is_there number self.old ≡ false) × (back ≡ change) × (self.new ≡ self.old)) }
    {
        if self.number != number {
            return change_in(self.children.as_mut_slice(), number, change);
        }
        match change {
            Change::Fields(fields) => self.fields = fields,
            Change::Scroll(scroll) => self.scroll = scroll,
        }
        None
    }
}

// The same of the nodes in a list.
#[cycle(changing)]
fn change_in(nodes: &mut [Node], number: u64, change: Change) -> Option<Change>
    ensures there { IfNone result (is_there_in number (nodes_of nodes.old) ≡ true) }
    ensures changed { IfNone result (nodes_of nodes.new ≡ changed_in (applied change) number (nodes_of nodes.old)) }
    ensures missing { IfSome result (λ back. (is_there_in number (nodes_of nodes.old) ≡ false) × (back ≡ change) × (nodes.new ≡ nodes.old)) }
{
    let mut change = change;
    for i in 0..nodes.len() {
        match nodes[i].change(number, change) {
            None => return None,
            Some(back) => change = back,
        }
    }
    Some(change)
}
