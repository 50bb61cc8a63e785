//! A tree of elements: what a build keeps from one frame to the next. Each element has a number, a widget, the values of its
//! fields, and what its body gave when it was built last (`Element`, `BuildOwner`).
#![tactic(auto)]

ghost use Rattle.std.specs.Prelude.{◌≡◌, ◌↔◌, ℕ, ◌<◌, Option, Some, None, [], IfSome, option_map, option_and_then, option_copied, false};
ghost use Rattle.fx_handles.specs.Handle.{Among};
ghost use Rattle.fx_handles.specs.Arena.{IsNew};
ghost use Rattle.node_tree.specs.Forest.{size};
ghost use Rattle.node_tree.specs.Forest.Forest.{none};
ghost use Rattle.node_tree.specs.Tree.{parent_at, children_at, Is, IsTree, Holds, subtree_at};
ghost use Rattle.widget_model.specs.View.{shared};
ghost use Rattle.element_tree.specs.Element.{element_at, number_at, made_count, is_flagged};
ghost use Rattle.element_tree.specs.Index.{AreMade};

mod edits;
mod element;
mod fields;
mod laws;
mod mounting;
mod numbers;
mod setters;

pub use edits::TreeFault;
pub use element::{Element, Renewal};
pub use fields::SetFault;
use fx_expr::Value;
use fx_handles::Handle;
pub use laws::{
    edits_keep_numbers, fields_change_nodes, spent_handles_stay_dead, unseen_changes_keep_nodes,
};
use node_tree::Tree;
use numbers::Numbered;
use std::alloc::Global;
use std::marker::Model;
use std::rc::Rc;
use widget_model::Widget;

/// Elements by their handles, and by their numbers. Numbers are given from 1 on, in the order in which elements are made, and
/// are never used again.
#[derive(Drop)]
pub struct ElementTree {
    pub(crate) tree: Tree<Element>,
    // The number and the handle of each element, in the order of the numbers.
    pub(crate) numbers: Vec<Numbered>,
    // The number of the next element.
    pub(crate) next: u64,
    pub(crate) spent: bool,
    pub(crate) alloc: Global,
}

impl Model for ElementTree {
    ghost use Rattle.element_tree.specs.Element.{Elements, elements_code};
    ghost use Rattle.element_tree.specs.Index.{IsIndexed};

    ghost Value = { Elements };

    ghost coded = { elements_code };

    ghost view = { λ t. record { tree = t.tree; spent = t.spent } };

    ghost invariant = { λ t. IsIndexed t.numbers.items t.tree t.next };
}

impl ElementTree {
    /// A tree without elements, over this allocator.
    pub fn new(alloc: Global) -> ElementTree
        ensures root { result.tree.root ≡ None }
        ensures made { made_count result.tree ≡ 0 }
        ensures nodes { IsNew result.tree.nodes }
        ensures plain { Is result.tree none }
        ensures spent { result.spent ≡ false }
    {
        ElementTree {
            tree: Tree::new(alloc),
            numbers: Vec::new(alloc),
            next: 1,
            spent: false,
            alloc,
        }
    }

    /// The elements with their handles, as they stand in the tree.
    pub fn tree(&self) -> &Tree<Element>
        ensures { result.now ≡ self.now.tree }
    {
        &self.tree
    }

    /// The root's handle, or `None` where there is no root, also where inactive subtrees are left.
    pub fn root(&self) -> Option<Handle>
        ensures value { result ≡ self.now.tree.root }
        ensures tree { IsTree self.now.tree }
        ensures holds { IfSome result (λ h. Holds self.now.tree h) }
    {
        self.tree.root()
    }

    /// The handle of the element with a number; `None` exactly where no element has it. It takes log n steps for n elements.
    pub fn find(&self, number: u64) -> Option<Handle>
        ensures { (h : _) → (result ≡ Some h) ↔ (number_at self.now.tree h ≡ Some number) }
    {
        numbers::find(&self.numbers, number)
    }

    /// What holds of the numbers of each tree: no two elements have one number, each number is one of those given so far, and
    /// fields are those that the widget declares. It does nothing.
    pub fn number_laws(&self)
        ensures once { (n : ℕ) (h k : _) → number_at self.now.tree h ≡ Some n → number_at self.now.tree k ≡ Some n → h ≡ k }
        ensures made { AreMade self.now.tree }
        ensures tree { IsTree self.now.tree }
    {
        // Tells the proof what the fields keep.
        let _ = self.tree.root();
    }

    /// The parent's handle, or `None` for the root, for the top of an inactive subtree, and where the handle isn't live.
    pub fn parent(&self, h: Handle) -> Option<Handle>
        ensures value { result ≡ parent_at self.now.tree h }
        ensures holds { IfSome result (λ p. Holds self.now.tree p) }
        ensures larger { IfSome result (λ p. size (subtree_at self.now.tree h) < size (subtree_at self.now.tree p)) }
        ensures listed { IfSome result (λ p. Among h (children_at self.now.tree p)) }
    {
        self.tree.parent(h)
    }

    /// The children's handles from first to last; none where the handle isn't live.
    pub fn children(&self, h: Handle) -> &[Handle]
        ensures value { result.now ≡ children_at self.now.tree h }
        ensures holds { (k : _) → Among k result.now → Holds self.now.tree k }
        ensures smaller { (k : _) → Among k result.now
            → size (subtree_at self.now.tree k) < size (subtree_at self.now.tree h) }
        ensures parent { (k : _) → Among k result.now → parent_at self.now.tree k ≡ Some h }
    {
        self.tree.children(h)
    }

    /// The element's number, or `None` where the handle isn't live.
    pub fn number(&self, h: Handle) -> Option<u64>
        ensures { result ≡ number_at self.now.tree h }
    {
        let element = self.tree.value(h)?;
        Some(element.number)
    }

    /// The element's widget, or `None` where the handle isn't live.
    pub fn widget(&self, h: Handle) -> Option<&Rc<Widget>>
        ensures { option_map shared (option_copied result) ≡ option_map (λ e. e.widget) (element_at self.now.tree h) }
    {
        let element = self.tree.value(h)?;
        Some(&element.widget)
    }

    /// The values of the element's fields; none where the handle isn't live.
    pub fn fields(&self, h: Handle) -> &[Value]
        ensures live { (e : _) → element_at self.now.tree h ≡ Some e → result.now ≡ e.fields }
        ensures dead { element_at self.now.tree h ≡ None → result.now ≡ [] }
    {
        match self.tree.value(h) {
            Some(element) => element.fields.as_slice(),
            None => &[],
        }
    }

    /// The place of the element among its parent's child widgets, as it was set last, or `None` where the handle isn't live.
    pub fn place(&self, h: Handle) -> Option<u64>
        ensures { result ≡ option_map (λ e. e.index) (element_at self.now.tree h) }
    {
        let element = self.tree.value(h)?;
        Some(element.index)
    }

    /// Whether the element is to be built anew; `false` where the handle isn't live.
    pub fn is_dirty(&self, h: Handle) -> bool
        ensures { result ≡ is_flagged (element_at self.now.tree h) }
    {
        match self.tree.value(h) {
            Some(element) => element.dirty,
            None => false,
        }
    }

    /// What the element's body gave when it was built last; `None` exactly where the handle isn't live, or nothing was stored.
    pub fn output(&self, h: Handle) -> Option<&Rc<Widget>>
        ensures { option_map shared (option_copied result) ≡ option_and_then (λ e. e.output) (element_at self.now.tree h) }
    {
        let element = self.tree.value(h)?;
        element.output.as_ref()
    }

    /// The handle of the element's render node; `None` where the handle isn't live, or none was stored.
    pub fn render(&self, h: Handle) -> Option<Handle>
        ensures { result ≡ option_and_then (λ e. e.render) (element_at self.now.tree h) }
    {
        let element = self.tree.value(h)?;
        element.render
    }
}
