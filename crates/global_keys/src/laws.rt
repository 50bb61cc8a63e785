// Laws of registries. None of these calls does anything.
ghost use Rattle.std.specs.Prelude.{◌≡◌, ◌≢◌, ◌↔◌, ℕ, List, Option, false, true, Some, None};
ghost use Rattle.fx_handles.specs.declared.Handle.{Handle};
ghost use Rattle.fx_expr.specs.declared.values.Value.{Value};
ghost use Rattle.widget_model.specs.Plain.{PlainWidget, key_of};
ghost use Rattle.node_tree.specs.Tree.{Tree, IsNode};
ghost use Rattle.node_tree.specs.Edits.{KeepsValues, Adds, RemovesBelow, DropsInactive};
ghost use Rattle.node_tree.specs.Plan.{PlanEntry, planned, Commits};
ghost use Rattle.element_tree.specs.Element.{Element as ElementOf, element_at};
ghost use Rattle.element_tree.specs.Edits.{Changes};
ghost use Rattle.element_tree.specs.Renewal.{Renewal, renewed, FollowsIn};
ghost use Rattle.global_keys.specs.declared.registry.Claim.TheVariants.{Taken};
ghost use Rattle.global_keys.specs.Holders.{Registry, recorded, is_met, Notes};
ghost use Rattle.global_keys.specs.Claims.{is_of_type, claim_of};
ghost use Rattle.global_keys.specs.Named.{global_in, global_at, NamesExactly, NamesAll, NamesAmong};

use element_tree::Element;
use node_tree::Tree;

/// Where a registry names exactly the elements with global keys, a key that wasn't met is taken exactly from the element that has
/// this key and the widget's type.
pub fn claims_take_holders()
    ensures { (r : Registry) (t : Tree ElementOf) (k : Value) (w : PlainWidget) (h : Handle) → NamesExactly r t
        → is_met r k ≡ false → (claim_of t (recorded r k) w ≡ Taken h) ↔ ((global_at t h ≡ Some k) × (is_of_type (element_at t h) w ≡ true)) }
{}

/// A registry that names exactly the elements with global keys still does where each element keeps its value, where one element is
/// changed but for its key, and where an element without a global key is added.
pub fn edits_keep_names()
    ensures kept { (r : Registry) (old new : Tree ElementOf) → KeepsValues old new → NamesExactly r old → NamesExactly r new }
    ensures changed { (r : Registry) (old new : Tree ElementOf) (h : Handle) (change : ElementOf → ElementOf) → Changes old new h change
        → ((e : ElementOf) → element_at old h ≡ Some e → key_of (change e).widget ≡ key_of e.widget) → NamesExactly r old → NamesExactly r new }
    ensures added { (r : Registry) (old new : Tree ElementOf) (q : Option Handle) (i : ℕ) (h : Handle) (e : ElementOf)
        → Adds old.nodes new.nodes q i h e → global_in (key_of e.widget) ≡ None → NamesExactly r old → NamesExactly r new }
{
    Tree::<Element>::edit_laws();
}

/// A new element whose global key no other has is named once it was noted.
pub fn notes_name_new()
    ensures { (r s : Registry) (old new : Tree ElementOf) (q : Option Handle) (i : ℕ) (h : Handle) (e : ElementOf) (k : Value)
        → Adds old.nodes new.nodes q i h e → global_in (key_of e.widget) ≡ Some k → ((x : Handle) → global_at old x ≢ Some k)
        → Notes r s k h → NamesExactly r old → NamesExactly s new }
{
    Tree::<Element>::edit_laws();
}

/// What names exactly the elements with global keys names each of them, and else only elements that are no more.
pub fn names_cover()
    ensures { (r : Registry) (t : Tree ElementOf) → NamesExactly r t → NamesAll r t }
{}

/// Where elements are taken away a registry still names each that has a global key, and else only elements that are no more. So it
/// does once a plan became the tree, if it was right about those elements that the plan names.
pub fn removals_leave_covered()
    ensures removed { (r : Registry) (old new : Tree ElementOf) (h : Handle) (n : ℕ) → RemovesBelow old new h n
        → NamesAll r old → NamesAll r new }
    ensures dropped { (r : Registry) (old new : Tree ElementOf) (n : ℕ) → DropsInactive old new n → NamesAll r old → NamesAll r new }
    ensures committed { (r : Registry) (old new : Tree ElementOf) (es : List (PlanEntry Renewal)) → FollowsIn old es
        → Commits renewed es old.nodes new.nodes → NamesAmong r old (planned es) → NamesAll r new }
{
    Tree::<Element>::edit_laws();
}
