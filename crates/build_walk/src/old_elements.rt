// Laws of the elements of the last frame from which a walk goes on, and of what becomes of them. None of these calls does anything.
ghost use Rattle.std.specs.Prelude.{◌≡◌, ℕ, List, Option, Some, IfSome, map, option_map};
ghost use Rattle.std.specs.Option.{option_to_list};
ghost use Rattle.std.specs.List.{All};
ghost use Rattle.fx_expr.specs.declared.values.Value.{Value};
ghost use Rattle.fx_handles.specs.declared.Handle.{Handle};
ghost use Rattle.node_tree.specs.Children.{Keeps};
ghost use Rattle.node_tree.specs.Forest.{Forest, below};
ghost use Rattle.node_tree.specs.Tree.{Tree as TreeOf, IsNode, children_at, tops_at, Is, subtree_at, Holds};
ghost use Rattle.plain_tree.specs.At.{numbers_in};
ghost use Rattle.plain_tree.specs.Laws.{AllDiffer};
ghost use Rattle.plain_tree.specs.PlainNode.{PlainNode, widget_of, index_of, nodes_of as listed};
ghost use Rattle.plain_tree.specs.Projection.{scroll_in};
ghost use Rattle.plain_tree.specs.RenderRole.{render_role_of, vanishes};
ghost use Rattle.widget_model.specs.Plain.{PlainWidget, look_of};
ghost use Rattle.widget_model.specs.Update.{IsSameType};
ghost use Rattle.build_form.specs.Entering.{values_below};
ghost use Rattle.build_form.specs.Numbered.{IsNumbered};
ghost use Rattle.build_form.specs.Partner.{nodes_had};
ghost use Rattle.element_tree.specs.Element.{Element as ElementOf, element_at};
ghost use Rattle.element_tree.specs.Nodes.{nodes_of};
ghost use Rattle.render_tree.specs.Object.{RenderObject as ObjectOf};
ghost use Rattle.render_tree.specs.Tree.{object_at};
ghost use Rattle.build_walk.specs.Counting.{TellsEntered};
ghost use Rattle.build_walk.specs.Past.{Pasts, past_at};
ghost use Rattle.build_walk.specs.Renewing.{role_of, IsDrawn, Unless, AreDrawn};
ghost use Rattle.build_walk.specs.Telling.{element_past, TellPasts, element_pasts, FlagsAre};
ghost use Rattle.build_walk.specs.Kept.{node_over, plain_at, IsOldElement};

use element_tree::Element;
use node_tree::Tree;
use render_tree::RenderObject;

/// What an element from which a walk may go on says: its plain node, with those of its children in order, what is known of its number,
/// and its render node. Such elements are the tops of a tree whose elements tell what is known, where the inherited names have their
/// defaults, and the children of each, where they have the values below it.
pub fn kept_elements_are_known()
    ensures live { (t : TreeOf ElementOf) (h : Handle) → Holds t h → IsNode t h }
    ensures node { (scrolled : ℕ → ℕ) (t : TreeOf ElementOf) (h : Handle) (e : ElementOf) → Holds t h → element_at t h ≡ Some e
        → plain_at scrolled t h ≡ Some (node_over scrolled e (below (subtree_at t h))) }
    ensures widget { (scrolled : ℕ → ℕ) (t : TreeOf ElementOf) (h : Handle) → Holds t h
        → option_map widget_of (plain_at scrolled t h) ≡ option_map (λ e. e.widget) (element_at t h) }
    ensures place { (scrolled : ℕ → ℕ) (t : TreeOf ElementOf) (h : Handle) → Holds t h
        → option_map index_of (plain_at scrolled t h) ≡ option_map (λ e. e.index) (element_at t h) }
    ensures nodes { (scrolled : ℕ → ℕ) (t : TreeOf ElementOf) (h : Handle) (e : ElementOf) → Holds t h → element_at t h ≡ Some e
        → map (plain_at scrolled t) (children_at t h) ≡ map Some (nodes_had (plain_at scrolled t h)) }
    ensures past { (pasts : Pasts) (scrolled : ℕ → ℕ) (olds : List Value) (t : TreeOf ElementOf) (r : TreeOf ObjectOf) (h : Handle) (e : ElementOf)
        → IsOldElement pasts scrolled olds t r h → element_at t h ≡ Some e → pasts e.number ≡ Some (element_past olds e) }
    ensures drawn { (pasts : Pasts) (scrolled : ℕ → ℕ) (olds : List Value) (t : TreeOf ElementOf) (r : TreeOf ObjectOf) (h : Handle) (e : ElementOf)
        → IsOldElement pasts scrolled olds t r h → element_at t h ≡ Some e → Unless (vanishes (role_of e)) (IsDrawn (object_at r) (scrolled e.number) e) }
    ensures tops { (pasts : Pasts) (scrolled : ℕ → ℕ) (defaults : List Value) (t : TreeOf ElementOf) (r : TreeOf ObjectOf) (f : Forest ElementOf)
        → Is t f → TellPasts pasts defaults f → AreDrawn (object_at r) scrolled f → All (IsOldElement pasts scrolled defaults t r) (tops_at t) }
    ensures below { (pasts : Pasts) (scrolled : ℕ → ℕ) (olds : List Value) (t : TreeOf ElementOf) (r : TreeOf ObjectOf) (h : Handle) (e : ElementOf)
        → IsOldElement pasts scrolled olds t r h → element_at t h ≡ Some e → All (IsOldElement pasts scrolled (values_below e.widget olds) t r) (children_at t h) }
{
    Tree::<Element>::walk_laws();
    Tree::<Element>::child_laws();
}

/// A widget of a type has a render node where another one of that type has one, and is scrolled where that one is.
pub fn types_draw_alike()
    ensures vanish { (a b : PlainWidget) → IsSameType a b → vanishes (render_role_of (look_of a)) ≡ vanishes (render_role_of (look_of b)) }
    ensures scroll { (a b : PlainWidget) (scroll : ℕ) → IsSameType a b → scroll_in (render_role_of (look_of a)) scroll ≡ scroll_in (render_role_of (look_of b)) scroll }
{}

/// Such an element stays one, and the same plain node, where elements and render nodes are added.
pub fn kept_elements_stay()
    ensures kept { (pasts : Pasts) (scrolled : ℕ → ℕ) (olds : List Value) (t u : TreeOf ElementOf) (r s : TreeOf ObjectOf) (h : Handle) → Keeps t u → Keeps r s
        → IsOldElement pasts scrolled olds t r h → IsOldElement pasts scrolled olds u s h }
    ensures node { (scrolled : ℕ → ℕ) (t u : TreeOf ElementOf) (h : Handle) → Keeps t u → Holds t h → plain_at scrolled u h ≡ plain_at scrolled t h }
{
    Tree::<Element>::keep_laws();
    Tree::<RenderObject>::keep_laws();
}

/// What the elements of a tree in which no number stands twice tell, found by number, is what is known of them; and it is what was
/// entered in the last frame, where the flagged elements are those whose numbers are marked.
pub fn elements_have_pasts()
    ensures tells { (defaults : List Value) (scrolled : ℕ → ℕ) (f : Forest ElementOf) → AllDiffer (numbers_in (listed (nodes_of scrolled f)))
        → TellPasts (past_at (element_pasts defaults f)) defaults f }
    ensures entered { (marks : List ℕ) (defaults : List Value) (old : Option PlainNode) (next : ℕ) (scrolled : ℕ → ℕ) (f : Forest ElementOf) → option_to_list old ≡ nodes_of scrolled f
        → FlagsAre marks f → IfSome old (IsNumbered next) → TellsEntered (past_at (element_pasts defaults f)) defaults old marks next }
{}
