// Laws of what stands between two frames. None of these calls does anything.
ghost use Rattle.std.specs.Prelude.{◌≡◌, ℕ, ◌++◌, true, Option, Some, None, option_map, List, [], ◌∷◌, map};
ghost use Rattle.fx_expr.specs.declared.values.Value.{Value};
ghost use Rattle.fx_expr.specs.Value.{type_of};
ghost use Rattle.fx_handles.specs.declared.Handle.{Handle};
ghost use Rattle.node_tree.specs.Tree.{Tree as TreeOf};
ghost use Rattle.program_check.specs.Checked.{PlainChecked};
ghost use Rattle.plain_tree.specs.At.{changed_at, having_fields, having_scroll};
ghost use Rattle.plain_tree.specs.Offsets.{scrolled_by};
ghost use Rattle.plain_tree.specs.PlainNode.{PlainNode, widget_of, fields_of, scroll_of};
ghost use Rattle.element_tree.specs.Edits.{Writes, Changes, with_flag};
ghost use Rattle.element_tree.specs.Element.{Element as ElementOf, element_at, number_at};
ghost use Rattle.element_tree.specs.Fields.{with_fields};
ghost use Rattle.global_keys.specs.Holders.{Registry as RegistryOf};
ghost use Rattle.render_tree.specs.Object.{RenderObject as ObjectOf};
ghost use Rattle.session_form.specs.Handlers.{node_in};
ghost use Rattle.kept_builds.specs.Offsets.{offsets_in};
ghost use Rattle.kept_builds.specs.Projected.{HasProjection, KeepsNumbers};
ghost use Rattle.build_owner.specs.Standing.{StandsFor};
ghost use Rattle.kept_builds.specs.Standing.{NumbersOnce};

use build_form::changes_keep_numbering;
use element_tree::{fields_change_nodes, unseen_changes_keep_nodes};
use plain_tree::{fields_leave_the_projection, projection_keeps_numbers_apart};

/// The node with an element's number, in the tree for which the elements stand, has the element's widget, the values of its fields, and
/// the offset that is known of its number. Where no element has a number no node has it.
pub fn elements_are_nodes()
    ensures found { (c : PlainChecked) (marks : List ℕ) (old : Option PlainNode) (scrolled : ℕ → ℕ) (t : TreeOf ElementOf) (r : TreeOf ObjectOf) (g : RegistryOf) (h : Handle) (e : ElementOf)
        → StandsFor c marks old scrolled t r g → NumbersOnce t → element_at t h ≡ Some e
        → (n : PlainNode) × (node_in old e.number ≡ Some n) × (widget_of n ≡ e.widget) × (fields_of n ≡ e.fields) × (scroll_of n ≡ scrolled e.number) }
    ensures missing { (c : PlainChecked) (marks : List ℕ) (old : Option PlainNode) (scrolled : ℕ → ℕ) (t : TreeOf ElementOf) (r : TreeOf ObjectOf) (g : RegistryOf) (number : ℕ)
        → StandsFor c marks old scrolled t r g → ((h : Handle) → number_at t h ≡ Some number → ⊥) → node_in old number ≡ None }
{}

/// What stands goes on standing, for the tree that a line leaves: where the fields of an element are set, with its number as one mark
/// more; where an element is marked; where render nodes are marked, painted or laid out; and where they are scrolled, by a line or as a
/// layout corrects it. The render nodes are given by the tree of which they are the projection.
pub fn lines_leave_standing_trees()
    ensures set { (c : PlainChecked) (marks : List ℕ) (old : Option PlainNode) (scrolled : ℕ → ℕ) (t u : TreeOf ElementOf) (r : TreeOf ObjectOf) (g : RegistryOf) (h : Handle) (e : ElementOf)
        (change : List Value → List Value) → StandsFor c marks old scrolled t r g → NumbersOnce t → element_at t h ≡ Some e → map type_of (change e.fields) ≡ map type_of e.fields
        → Writes t u h (with_fields (change e.fields) e)
        → StandsFor c (marks ++ e.number ∷ []) (option_map (changed_at (λ n. having_fields (change (fields_of n)) n) e.number) old) scrolled u r g }
    ensures marked { (c : PlainChecked) (marks : List ℕ) (old : Option PlainNode) (scrolled : ℕ → ℕ) (t u : TreeOf ElementOf) (r : TreeOf ObjectOf) (g : RegistryOf) (h : Handle) (e : ElementOf)
        → StandsFor c marks old scrolled t r g → NumbersOnce t → element_at t h ≡ Some e → Changes t u h (with_flag true) → StandsFor c (marks ++ e.number ∷ []) old scrolled u r g }
    ensures redrawn { (c : PlainChecked) (marks : List ℕ) (old : Option PlainNode) (scrolled : ℕ → ℕ) (t : TreeOf ElementOf) (r s : TreeOf ObjectOf) (g : RegistryOf)
        → StandsFor c marks old scrolled t r g → KeepsNumbers r s → HasProjection old s → StandsFor c marks old scrolled t s g }
    ensures scroll { (c : PlainChecked) (marks : List ℕ) (old : Option PlainNode) (scrolled : ℕ → ℕ) (t : TreeOf ElementOf) (r s : TreeOf ObjectOf) (g : RegistryOf) (number offset : ℕ)
        → StandsFor c marks old scrolled t r g → KeepsNumbers r s → HasProjection (option_map (changed_at (having_scroll offset) number) old) s
        → StandsFor c marks (option_map (changed_at (having_scroll offset) number) old) (offsets_in (option_map (changed_at (having_scroll offset) number) old)) t s g }
    ensures offsets { (c : PlainChecked) (marks : List ℕ) (old : Option PlainNode) (scrolled : ℕ → ℕ) (t : TreeOf ElementOf) (r s : TreeOf ObjectOf) (g : RegistryOf) (offset : ℕ → Option ℕ)
        → StandsFor c marks old scrolled t r g → KeepsNumbers r s → HasProjection (option_map (scrolled_by offset) old) s
        → StandsFor c marks (option_map (scrolled_by offset) old) (offsets_in (option_map (scrolled_by offset) old)) t s g }
{
    changes_keep_numbering();
    fields_change_nodes();
    unseen_changes_keep_nodes();
    fields_leave_the_projection();
    projection_keeps_numbers_apart();
}
