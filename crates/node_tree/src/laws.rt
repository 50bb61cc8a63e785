ghost use Rattle.std.specs.Prelude.{◌≡◌, ◌≢◌, ℕ, ◌+◌, ◌<◌, ◌≤◌, ◌↔◌, ◌++◌, List, length, map, slice_index_or, Option, Some, None};
ghost use Rattle.std.specs.List.{All};
ghost use Rattle.std.specs.Option.{option_to_list};
ghost use Rattle.fx_handles.specs.declared.Handle.{Handle};
ghost use Rattle.fx_handles.specs.Handle.{times, Among, AreDistinct};
ghost use Rattle.fx_handles.specs.Arena.{used_count};
ghost use Rattle.node_tree.specs.Forest.{Forest, tops, size, count, In, IsDistinct, append, below, skip, first_trees, map_values, tree_of, in_order, trees_at, reorder_under, reordered, set_value, Stands, SameShape};
ghost use Rattle.node_tree.specs.Forest.Forest.{none, tree};
ghost use Rattle.node_tree.specs.Children.{Nth, Keeps, MapsValues};
ghost use Rattle.node_tree.specs.Plan.{PlanEntry as PlanEntryOf, entries, entry_at, planned, IsPlan, IsUpdated};
ghost use Rattle.node_tree.specs.Part.{IsPartPlan, left_tops, left_forest};
ghost use Rattle.node_tree.specs.Tree.{Tree as TreeOf, node_at, IsNode, parent_at, children_at, value_at, tops_at, Is, IsTree, subtree_at, StandsAt, Holds};
ghost use Rattle.node_tree.specs.Edits.{Adds, Takes, Hooks, Lifts, Reorders, CanReorder, ReordersAll, CanReorderAll, and_order, WritesValue, RemovesBelow, DropsInactive, KeepsValues, KeepsOtherValues};

use crate::{Tree, Update};

impl<T> Tree<T> {
    /// What walks over a tree stand on. It does nothing.
    pub fn walk_laws()
        // Each node's subtree stands, and what stands at a node is its subtree.
        ensures holds { (t : TreeOf T) (h : Handle) → IsTree t → IsNode t h → Holds t h }
        ensures subtree { (t : TreeOf T) (h : Handle) (s : Forest T) → StandsAt t h s → subtree_at t h ≡ s }
        ensures part { (t : TreeOf T) (f : Forest T) (h : Handle) → Is t f → IsNode t h
            → subtree_at t h ≡ tree_of h f }

        // On the way down the subtree is smaller, and part of the one above. Two children have nothing in
        // common, and neither has the parent.
        ensures smaller { (t : TreeOf T) (h k : Handle) → IsTree t → Among k (children_at t h)
            → size (subtree_at t k) < size (subtree_at t h) }
        ensures inside { (t : TreeOf T) (h k x : Handle) → IsTree t → Among k (children_at t h)
            → In x (subtree_at t k) → In x (subtree_at t h) }
        ensures above { (t : TreeOf T) (h k : Handle) → IsTree t → Among k (children_at t h)
            → In h (subtree_at t k) → ⊥ }
        ensures apart { (t : TreeOf T) (h k c x : Handle) → IsTree t → Among k (children_at t h)
            → Among c (children_at t h) → k ≢ c → In x (subtree_at t k) → In x (subtree_at t c) → ⊥ }

        // On the way up it is larger, up to a top, and never more than all nodes.
        ensures larger { (t : TreeOf T) (h p : Handle) → IsTree t → parent_at t h ≡ Some p
            → size (subtree_at t h) < size (subtree_at t p) }
        ensures tops { (t : TreeOf T) (h : Handle) → IsTree t → IsNode t h
            → ((parent_at t h ≡ None) ↔ Among h (tops_at t)) }
        ensures few { (t : TreeOf T) (h : Handle) → IsTree t → size (subtree_at t h) ≤ used_count t.nodes }

        // A subtree stands where no node of it has changed, and where one value of it has been written.
        ensures frame { (old new : TreeOf T) (h : Handle) (s : Forest T) → StandsAt old h s
            → ((k : Handle) → In k s → node_at new k ≡ node_at old k) → StandsAt new h s }
        ensures writes { (old new : TreeOf T) (h k : Handle) (w : T) (s : Forest T) → StandsAt old h s
            → WritesValue old.nodes new.nodes k w → StandsAt new h (set_value k w s) }

        // What writes values alone keeps the shape, and with it the tops, the size and the handles.
        ensures shape { (h : Handle) (w : T) (f : Forest T) → SameShape f (set_value h w f) }
        ensures same_tops { (f g : Forest T) → SameShape f g → tops f ≡ tops g }
        ensures same_size { (f g : Forest T) → SameShape f g → size f ≡ size g }
        ensures same_handles { (f g : Forest T) (h : Handle) → SameShape f g → count h f ≡ count h g }
    {}

    /// What edits leave: every node but the edited ones has its value as before, and no other handle comes or goes. It does
    /// nothing.
    pub fn edit_laws()
        ensures adds { (old new : TreeOf T) (q : Option Handle) (i : ℕ) (h : Handle) (v : T)
            → Adds old.nodes new.nodes q i h v → KeepsOtherValues old new h }
        ensures takes { (old new : TreeOf T) (h : Handle) (v : T)
            → Takes old.nodes new.nodes h v → KeepsOtherValues old new h }
        ensures writes { (old new : TreeOf T) (h : Handle) (v : T)
            → WritesValue old.nodes new.nodes h v → KeepsOtherValues old new h }
        ensures hooks { (old new : TreeOf T) (h : Handle) (q : Option Handle) (i : ℕ) → IsNode old h
            → Hooks old.nodes new.nodes h q i → KeepsValues old new }
        ensures lifts { (old new : TreeOf T) (h : Handle) (q : Option Handle) → IsNode old h
            → Lifts old.nodes new.nodes h q → KeepsValues old new }
        ensures reorders { (old new : TreeOf T) (h : Handle) (hs : List Handle)
            → Reorders old.nodes new.nodes h hs → KeepsValues old new }
        ensures removes { (old new : TreeOf T) (h k : Handle) (n : ℕ) → RemovesBelow old new h n
            → (In k (subtree_at old h) → ⊥) → value_at new k ≡ value_at old k }
        ensures drops { (old new : TreeOf T) (k : Handle) (n : ℕ) → DropsInactive old new n
            → IsNode new k → value_at new k ≡ value_at old k }
    {}

    /// What children in another order leave: the same tops and handles, and each subtree but for the order. A list of other handles that
    /// are all children, and as many, is such an order; and an order that is given by places has the trees at these. It does nothing.
    pub fn order_laws()
        ensures tops { (h : Handle) (hs : List Handle) (f : Forest T) → tops (reorder_under h hs f) ≡ tops f }
        ensures handles { (t : TreeOf T) (h x : Handle) (hs : List Handle) (f : Forest T) → Is t f → CanReorder t h hs
            → count x (reorder_under h hs f) ≡ count x f }
        ensures subtree { (old new : TreeOf T) (h k : Handle) (hs : List Handle) (s : Forest T) → StandsAt old k s
            → CanReorder old h hs → Reorders old.nodes new.nodes h hs → StandsAt new k (reorder_under h hs s) }
        ensures values { (g : Handle → T → T) (h : Handle) (hs : List Handle) (f : Forest T)
            → map_values g (reorder_under h hs f) ≡ reorder_under h hs (map_values g f) }
        // Several nodes, one after another.
        ensures begin { (t : TreeOf T) → ReordersAll t.nodes t.nodes (λ k. None) }
        ensures more { (a b c : TreeOf T) (orders : Handle → Option (List Handle)) (h : Handle) (hs : List Handle)
            → ReordersAll a.nodes b.nodes orders → Reorders b.nodes c.nodes h hs → ReordersAll a.nodes c.nodes (and_order h hs orders) }
        ensures all { (old new : TreeOf T) (orders : Handle → Option (List Handle)) (f : Forest T) → Is old f → CanReorderAll old orders
            → ReordersAll old.nodes new.nodes orders → tops_at new ≡ tops_at old → Is new (reordered orders f) }
        ensures same { (hs ks : List Handle) (x : Handle) → AreDistinct hs → ((k : Handle) → Among k hs → Among k ks)
            → length hs ≡ length ks → times x hs ≡ times x ks }
        ensures places { (f : Forest T) (is : List ℕ) (z : Handle) → AreDistinct (tops f) → All (λ i. i < length (tops f)) is
            → in_order (map (λ i. slice_index_or (tops f) i z) is) f ≡ trees_at is f }
    {}

    /// What a walk over the children of a node stands on: the node's subtree is its value over what is below it, and its children
    /// are the trees there, one after another. It does nothing.
    pub fn child_laws()
        ensures opened { (t : TreeOf T) (h : Handle) (v : T) → Holds t h → value_at t h ≡ Some v
            → subtree_at t h ≡ tree h v (below (subtree_at t h)) none }
        ensures stands { (t : TreeOf T) (h : Handle) → Holds t h → Stands (node_at t) (Some h) (below (subtree_at t h)) }
        ensures listed { (t : TreeOf T) (h : Handle) → Holds t h → tops (below (subtree_at t h)) ≡ children_at t h }
        ensures nth { (t : TreeOf T) (h : Handle) (i : ℕ) (z : Handle) → Holds t h → i < length (children_at t h)
            → Nth t (below (subtree_at t h)) i (slice_index_or (children_at t h) i z) }
        ensures all { (i : ℕ) (f : Forest T) → length (tops f) ≤ i → skip i f ≡ none }
        ensures parts { (i : ℕ) (f : Forest T) → append (first_trees i f) (skip i f) ≡ f }
        ensures joined { (f g k : Forest T) → append (append f g) k ≡ append f (append g k) }
        ensures ends { (f : Forest T) → append f none ≡ f }
    {}

    /// What keeps the nodes that are there, and what changes values alone. It does nothing.
    pub fn keep_laws()
        ensures again { (a b c : TreeOf T) → Keeps a b → Keeps b c → Keeps a c }
        ensures loose { (old new : TreeOf T) (h : Handle) (v : T) → Adds old.nodes new.nodes None 0 h v → Keeps old new }
        ensures value { (old new : TreeOf T) (k : Handle) (v : T) → Keeps old new → value_at old k ≡ Some v
            → value_at new k ≡ Some v }
        ensures stands { (old new : TreeOf T) (p : Option Handle) (f : Forest T) → Keeps old new
            → Stands (node_at old) p f → Stands (node_at new) p f }
        ensures subtree { (old new : TreeOf T) (h : Handle) → Keeps old new → IsNode old h → Holds old h
            → (subtree_at new h ≡ subtree_at old h) × Holds new h }
        ensures live { (t : TreeOf T) (p : Option Handle) (f : Forest T) (k : Handle) → Stands (node_at t) p f → In k f
            → IsNode t k }
        ensures maps { (old new : TreeOf T) (g : Handle → T → T) (f : Forest T) → Is old f → MapsValues g old new
            → tops_at new ≡ tops_at old → Is new (map_values g f) }
    {}

    /// What follows of plans. It does nothing.
    pub fn plan_laws<U: Update<T>>()
        // The entries of a forest are its plan, in any order.
        ensures entries { (t : TreeOf T) (es : List (PlanEntryOf U)) (root : Option Handle) (inactive : List Handle) (g : Forest U)
            → es ≡ entries None g → option_to_list root ++ inactive ≡ tops g → IsDistinct g
            → ((k : Handle) → In k g → IsNode t k) → IsPlan t es root inactive g }
        ensures order { (t : TreeOf T) (es fs : List (PlanEntryOf U)) (root : Option Handle) (inactive : List Handle) (g : Forest U)
            → IsPlan t es root inactive g → ((k : Handle) → entry_at fs k ≡ entry_at es k) → AreDistinct (planned fs)
            → IsPlan t fs root inactive g }
        ensures joined { (p : Option Handle) (f g : Forest U) → entries p (append f g) ≡ entries p f ++ entries p g }

        // A plan of the whole tree is one for a part, and then what it doesn't name is in the inactive subtrees.
        ensures part { (t : TreeOf T) (es : List (PlanEntryOf U)) (root : Option Handle) (inactive : List Handle)
            (g : Forest U) (f : Forest T) → IsPlan t es root inactive g → IsUpdated U.updated (value_at t) g f
            → IsPartPlan U.updated t es root inactive f }
        ensures beside { (t u : TreeOf T) (es : List (PlanEntryOf U)) (root : Option Handle) (inactive : List Handle)
            (g : Forest U) (f0 f : Forest T) (k : Handle) → IsPlan t es root inactive g → IsUpdated U.updated (value_at t) g f
            → Is u (append f (left_forest es f0 (left_tops t es))) → IsNode u k → times k (planned es) ≡ 0
            → In k (left_forest es f0 (left_tops t es)) }
    {}
}
