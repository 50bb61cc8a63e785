// What lines between two frames read and change: each finds its node by the number.
ghost use Rattle.std.specs.Prelude.{◌≡◌, ◌++◌, ◌∷◌, [], List, ℕ, true, false, Option, Some, None, IfSome, option_map, option_copied, map};
ghost use Rattle.fx_expr.specs.declared.values.Value.{Value as ValueOf};
ghost use Rattle.fx_expr.specs.Value.{type_of};
ghost use Rattle.delegates.specs.Table.{Plug};
ghost use Rattle.plain_tree.specs.At.{changed_at, having_fields};
ghost use Rattle.plain_tree.specs.PlainNode.{PlainNode, widget_of, fields_of};
ghost use Rattle.program_check.specs.Checked.{PlainChecked};
ghost use Rattle.session_form.specs.Handlers.{node_in};
ghost use Rattle.widget_model.specs.View.{shared};
ghost use Rattle.element_tree.specs.Element.{number_at};
ghost use Rattle.fx_handles.specs.declared.Handle.{Handle as HandleOf};
ghost use Rattle.frame_owner.specs.Frame.{next_in};
ghost use Rattle.frame_owner.specs.Nodes.{is_alone};
ghost use Rattle.frame_owner.specs.Rooms.{HasRoomAfter};
ghost use Rattle.frame_owner.specs.Standing.{FrameStandsFor};

use crate::owner::FrameOwner;
use crate::settling::is_alone;
use fx_expr::Value;
use kept_builds::{elements_are_nodes, lines_leave_standing_trees};
use settled_builds::lines_leave_marked_trees;
use std::rc::Rc;
use widget_model::Widget;

// Forgets for which root a tree is settled, unless the component that is marked alone is.
fn forget_unless(alone: bool, root: &mut Option<Rc<Widget>>)
    ensures alone { alone ≡ true → root.new ≡ root.old }
    ensures other { alone ≡ false → root.new ≡ None }
{
    if alone {
        return;
    }
    *root = None;
}

impl FrameOwner {
    /// The widget of the node with a number: its type and its members, the handlers among them. None where no node has it.
    pub fn widget(&self, number: u64) -> Option<&Rc<Widget>>
        ensures { (c : PlainChecked) (delegates : List Plug) (marks : List ℕ) (tree : Option PlainNode) → FrameStandsFor c delegates marks tree self.now
            → option_map shared (option_copied result) ≡ option_map widget_of (node_in tree number) }
    {
        elements_are_nodes();
        self.elements.number_laws();
        match self.elements.find(number) {
            Some(h) => self.elements.widget(h),
            None => None,
        }
    }

    /// The values of the fields of the node with a number; none where no node has it.
    pub fn fields(&self, number: u64) -> &[Value]
        ensures there { (c : PlainChecked) (delegates : List Plug) (marks : List ℕ) (tree : Option PlainNode) (n : PlainNode) → FrameStandsFor c delegates marks tree self.now
            → node_in tree number ≡ Some n → result.now ≡ fields_of n }
        ensures none { (c : PlainChecked) (delegates : List Plug) (marks : List ℕ) (tree : Option PlainNode) → FrameStandsFor c delegates marks tree self.now
            → node_in tree number ≡ None → result.now ≡ [] }
    {
        elements_are_nodes();
        self.elements.number_laws();
        match self.elements.find(number) {
            Some(h) => self.elements.fields(h),
            None => &[],
        }
    }

    /// Sets the fields of the node with a number to values of their types, and marks it: the next frame builds it. Where no node has the
    /// number nothing changes.
    pub fn set_fields(&mut self, number: u64, fields: Vec<Value>)
        ensures stands { (c : PlainChecked) (delegates : List Plug) (marks : List ℕ) (tree : Option PlainNode) (n : PlainNode) (change : List ValueOf → List ValueOf)
            → FrameStandsFor c delegates marks tree self.old → node_in tree number ≡ Some n → fields.items ≡ change (fields_of n) → map type_of fields.items ≡ map type_of (fields_of n)
            → FrameStandsFor c delegates (marks ++ number ∷ []) (option_map (changed_at (λ m. having_fields (change (fields_of m)) m) number) tree) self.new }
        ensures missing { (c : PlainChecked) (delegates : List Plug) (marks : List ℕ) (tree : Option PlainNode) → FrameStandsFor c delegates marks tree self.old
            → node_in tree number ≡ None → self.new ≡ self.old }
        ensures next { next_in self.new ≡ next_in self.old }
        // The root is kept while one component alone is marked; no other ever is, and what is shown stands still.
        ensures kept { (h : HandleOf) → number_at self.old.elements h ≡ Some number → is_alone self.old.elements self.old.marked h ≡ true
            → (self.new.settled ≡ self.old.settled) × (self.new.marked ≡ Some h) }
        ensures settled { IfSome self.new.settled (λ root. self.old.settled ≡ Some root) }
        ensures still { self.new.still ≡ self.old.still }
        ensures screen { self.new.screen ≡ self.old.screen }
        ensures keys { self.new.keys ≡ self.old.keys }
        ensures room { (c : PlainChecked) (delegates : List Plug) (marks : List ℕ) (tree : Option PlainNode) (n : PlainNode) (frames : ℕ) → FrameStandsFor c delegates marks tree self.old
            → node_in tree number ≡ Some n → map type_of fields.items ≡ map type_of (fields_of n) → HasRoomAfter frames self.old → HasRoomAfter frames self.new }
    {
        elements_are_nodes();
        lines_leave_standing_trees();
        lines_leave_marked_trees();
        self.elements.number_laws();
        let Some(h) = self.elements.find(number) else {
            return;
        };
        // Where it is the only component that is marked, it alone is to be built.
        forget_unless(is_alone(&self.elements, self.marked, h), &mut self.settled);
        self.marked = Some(h);
        let _ = self.elements.set_fields(h, fields);
    }
}
