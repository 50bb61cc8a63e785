// Laws of edits. None of these calls does anything.
ghost use Rattle.std.specs.Prelude.{◌≡◌, ℕ, List, Some, None, Option, if◌then◌else◌};
ghost use Rattle.fx_handles.specs.declared.Handle.{Handle};
ghost use Rattle.fx_handles.specs.Handle.{same};
ghost use Rattle.fx_handles.specs.Arena.{IsSpent};
ghost use Rattle.fx_expr.specs.declared.values.Value.{Value};
ghost use Rattle.node_tree.specs.Forest.{Forest, In, set_value};
ghost use Rattle.node_tree.specs.Tree.{Tree, Is, subtree_at};
ghost use Rattle.node_tree.specs.Edits.{Adds, RemovesBelow, DropsInactive, KeepsValues};
ghost use Rattle.node_tree.specs.Plan.{PlanEntry, Commits};
ghost use Rattle.element_tree.specs.Element.{Element, element_at, number_at};
ghost use Rattle.plain_tree.specs.At.{changed_in, having_fields};
ghost use Rattle.plain_tree.specs.PlainNode.{nodes_of as listed};
ghost use Rattle.element_tree.specs.Edits.{Changes};
ghost use Rattle.element_tree.specs.Renewal.{Renewal, renewed};
ghost use Rattle.element_tree.specs.Fields.{with_fields};
ghost use Rattle.element_tree.specs.Nodes.{nodes_of, IsLike};

/// A handle whose element was taken away reaches none, also once its slot was used again.
pub fn spent_handles_stay_dead()
    ensures dead { (t : Tree Element) (h : Handle) → IsSpent t.nodes h → element_at t h ≡ None }
    ensures used { (old new : Tree Element) (q : Option Handle) (i : ℕ) (h k : Handle) (e : Element) → Adds old.nodes new.nodes q i h e
        → IsSpent old.nodes k → element_at new k ≡ None }
{}

/// What edits leave of the numbers by which elements are found: those that keep all values, or change one element but for its
/// number, leave each; a new element has its own beside them; removals and plans take away those of the elements that go.
pub fn edits_keep_numbers()
    ensures kept { (old new : Tree Element) (k : Handle) → KeepsValues old new → number_at new k ≡ number_at old k }
    ensures changed { (old new : Tree Element) (h k : Handle) (change : Element → Element) → Changes old new h change
        → ((e : Element) → (change e).number ≡ e.number) → number_at new k ≡ number_at old k }
    ensures added { (old new : Tree Element) (q : Option Handle) (i : ℕ) (h k : Handle) (e : Element) → Adds old.nodes new.nodes q i h e
        → number_at new k ≡ (if same k h then Some e.number else number_at old k) }
    ensures removed { (old new : Tree Element) (h k : Handle) (n m : ℕ) → RemovesBelow old new h n → number_at new k ≡ Some m
        → (In k (subtree_at old h) → ⊥) × (number_at old k ≡ Some m) }
    ensures dropped { (old new : Tree Element) (k : Handle) (n m : ℕ) → DropsInactive old new n → number_at new k ≡ Some m
        → number_at old k ≡ Some m }
    ensures committed { (old new : Tree Element) (es : List (PlanEntry Renewal)) (k : Handle) (m : ℕ)
        → Commits renewed es old.nodes new.nodes → number_at new k ≡ Some m → number_at old k ≡ Some m }
{}

/// The plain nodes that elements stand for don't depend on build flags, outputs and render nodes.
pub fn unseen_changes_keep_nodes()
    ensures { (t : Tree Element) (f : Forest Element) (h : Handle) (e w : Element) (scrolled : ℕ → ℕ) → Is t f → element_at t h ≡ Some e → IsLike e w
        → nodes_of scrolled (set_value h w f) ≡ nodes_of scrolled f }
{}

/// A change of one element's fields is that of the node with its number, in the plain nodes that the elements stand for.
pub fn fields_change_nodes()
    ensures { (t : Tree Element) (f : Forest Element) (h : Handle) (e : Element) (fields : List Value) (scrolled : ℕ → ℕ) → Is t f → element_at t h ≡ Some e
        → ((k : Handle) → number_at t k ≡ Some e.number → k ≡ h)
        → listed (nodes_of scrolled (set_value h (with_fields fields e) f)) ≡ changed_in (having_fields fields) e.number (listed (nodes_of scrolled f)) }
{}
