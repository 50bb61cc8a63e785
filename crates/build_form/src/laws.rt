// Laws of the definitions.
ghost use Rattle.std.specs.Prelude.{◌≡◌, ℕ, ◌+◌, ◌^◌, ◌≤◌, Option, Some, IfSome, List, [], ◌∷◌, map};
ghost use Rattle.std.specs.List.{All};
ghost use Rattle.fx_expr.specs.declared.handlers.Handler.{Handler};
ghost use Rattle.fx_expr.specs.declared.values.Value.{Value};
ghost use Rattle.fx_expr.specs.Sets.{FitFields};
ghost use Rattle.fx_expr.specs.Value.{type_of};
ghost use Rattle.widget_model.specs.Plain.{PlainWidget, look_of};
ghost use Rattle.widget_model.specs.Typed.{Declarations, IsTypedWidget};
ghost use Rattle.program_check.specs.Checked.{PlainChecked};
ghost use Rattle.program_check.specs.TypedChecked.{IsTypedChecked};
ghost use Rattle.template_build.specs.HandlersIn.{HandlersMeet, SetsNothing};
ghost use Rattle.template_build.specs.Program.{declarations_of};
ghost use Rattle.plain_tree.specs.At.{numbers_of, node_at, changed_at, having_fields, having_scroll};
ghost use Rattle.plain_tree.specs.PlainNode.{PlainNode, count_of, fields_of, widget_of};
ghost use Rattle.plain_tree.specs.Offsets.{scrolled_by};
ghost use Rattle.plain_tree.specs.Projection.{render_of};
ghost use Rattle.layout_form.specs.Fits.{CanBeLaidOut};
ghost use Rattle.plain_tree.specs.Laws.{AllDiffer, VanishAlone};
ghost use Rattle.build_form.specs.Step.{Progress, gives};
ghost use Rattle.build_form.specs.Entering.{Blueprint};
ghost use Rattle.build_form.specs.FullBuild.{Screen, built, first_tree, full_build};
ghost use Rattle.build_form.specs.Laws.{NumbersAre, IsOldOrNew, HasSurvivors};
ghost use Rattle.build_form.specs.KeptStates.{HadOrIsNew, EachIs};
ghost use Rattle.build_form.specs.Numbered.{IsNumbered};
ghost use Rattle.build_form.specs.Owned.{AreOwned, HasHandler};
ghost use Rattle.build_form.specs.Program.{blueprint_of};
ghost use Rattle.build_form.specs.WellBuilt.{IsWellBuilt};
ghost use Rattle.build_form.specs.Worked.{Works};

/// Builds of small trees are as they were worked out by hand.
pub fn worked_builds()
    ensures { Works }
{}

/// Each number of the tree that a build gives was in the old tree or was free, and the next free number never falls.
pub fn numbers_are_old_or_new()
    ensures { (b : Blueprint) (screen : Screen) (old : Option PlainNode) (next after : ℕ) (root : PlainWidget) (tree : PlainNode)
        → full_build b screen old next root ≡ built tree after → NumbersAre (IsOldOrNew old next) tree × (next ≤ after) }
{}

/// Which states survive: in the tree of each phase of a build all numbers differ, and each was in the old tree or was free. So
/// no node of the old tree is gone on from twice.
pub fn survivors()
    ensures first { (b : Blueprint) (old : Option PlainNode) (next : ℕ) (root : PlainWidget) (tree : PlainNode) (s : Progress)
        → IfSome old (IsNumbered next) → first_tree b old next root ≡ gives tree s → HasSurvivors old next s.next tree }
    ensures whole { (b : Blueprint) (screen : Screen) (old : Option PlainNode) (next after : ℕ) (root : PlainWidget) (tree : PlainNode)
        → IfSome old (IsNumbered next) → full_build b screen old next root ≡ built tree after → HasSurvivors old next after tree }
{}

/// What survives of each state: in the tree of each phase of a build a node whose number was in the old tree has a widget of the
/// type and the key that it had there, and the values of its fields and the offset that it had; each other one has a number that was
/// free, the first values of its fields, and the offset 0.
pub fn states_survive()
    ensures first { (b : Blueprint) (old : Option PlainNode) (next : ℕ) (root : PlainWidget) (tree : PlainNode) (s : Progress)
        → IfSome old (IsNumbered next) → first_tree b old next root ≡ gives tree s → EachIs (HadOrIsNew b old next) tree }
    ensures whole { (b : Blueprint) (screen : Screen) (old : Option PlainNode) (next after : ℕ) (root : PlainWidget) (tree : PlainNode)
        → IfSome old (IsNumbered next) → full_build b screen old next root ≡ built tree after
        → EachIs (HadOrIsNew b old next) tree }
{}

/// The tree of each phase of a build is well built over the program, where the old tree was and the root is typed.
pub fn builds_are_well_built()
    ensures first { (c : PlainChecked) (old : Option PlainNode) (next : ℕ) (root : PlainWidget) (tree : PlainNode) (s : Progress)
        → IsTypedChecked c → IfSome old (IsWellBuilt (declarations_of c)) → IsTypedWidget (declarations_of c) root
        → first_tree (blueprint_of c) old next root ≡ gives tree s → IsWellBuilt (declarations_of c) tree }
    ensures whole { (c : PlainChecked) (screen : Screen) (old : Option PlainNode) (next after : ℕ) (root : PlainWidget) (tree : PlainNode)
        → IsTypedChecked c → IfSome old (IsWellBuilt (declarations_of c)) → IsTypedWidget (declarations_of c) root
        → full_build (blueprint_of c) screen old next root ≡ built tree after → IsWellBuilt (declarations_of c) tree }
{}

/// In a tree that is well built each node without a render node has one child, so that it gives one render node.
pub fn built_trees_vanish_alone()
    ensures { (d : Declarations) (n : PlainNode) → IsWellBuilt d n → VanishAlone n }
{}

/// A tree that is well built, of at most 2^44 nodes, can be laid out.
pub fn built_trees_can_be_laid_out()
    ensures { (d : Declarations) (n : PlainNode) → IsWellBuilt d n → count_of n ≤ 2 ^ 44 → All CanBeLaidOut (render_of n) }
{}

/// A tree that a build gives, and the first phase's, has at most as many nodes as the program's version allows.
pub fn trees_keep_to_the_limit()
    ensures first { (b : Blueprint) (old : Option PlainNode) (next : ℕ) (root : PlainWidget) (tree : PlainNode) (s : Progress)
        → first_tree b old next root ≡ gives tree s → count_of tree ≤ b.nodes }
    ensures whole { (b : Blueprint) (screen : Screen) (old : Option PlainNode) (next after : ℕ) (root : PlainWidget) (tree : PlainNode)
        → full_build b screen old next root ≡ built tree after → count_of tree ≤ b.nodes }
{}

/// Each handler in the tree that a build gives belongs to a node above it and fits that one's fields, where those of the root
/// widget set nothing.
pub fn handlers_belong_to_nodes_above()
    ensures { (c : PlainChecked) (screen : Screen) (old : Option PlainNode) (next after : ℕ) (root : PlainWidget) (tree : PlainNode)
        → IsTypedChecked c → full_build (blueprint_of c) screen old next root ≡ built tree after → IsWellBuilt (declarations_of c) tree
        → HandlersMeet SetsNothing root → AreOwned ((0, []) ∷ []) tree }
{}

/// A handler's sets fit the fields of the node with its owner's number, where all numbers of the tree differ.
pub fn owned_handlers_fit()
    ensures { (tree : PlainNode) → AreOwned ((0, []) ∷ []) tree → AllDiffer (numbers_of tree)
        → (number : ℕ) (n owner : PlainNode) (h : Handler) → node_at number tree ≡ Some n → HasHandler h (look_of (widget_of n))
        → node_at h.owner tree ≡ Some owner → FitFields (map type_of (fields_of owner)) h.sets }
{}

/// A build gives at most as many numbers as the program's version allows nodes.
pub fn few_numbers_are_given()
    ensures { (b : Blueprint) (screen : Screen) (old : Option PlainNode) (next after : ℕ) (root : PlainWidget) (tree : PlainNode)
        → full_build b screen old next root ≡ built tree after → after ≤ next + b.nodes }
{}

/// In the tree that a build gives no number stands twice, and each is below the next free one, where this was so in the old
/// tree, of which each node stands in place; so does each of the new one.
pub fn numbers_differ()
    ensures { (b : Blueprint) (screen : Screen) (old : Option PlainNode) (next after : ℕ) (root : PlainWidget) (tree : PlainNode)
        → IfSome old (IsNumbered next) → full_build b screen old next root ≡ built tree after → IsNumbered after tree }
{}

/// A change of fields or of an offset, and the offsets that a layout gives, leave the numbers of a tree as they are.
pub fn changes_keep_numbering()
    ensures fields { (f : PlainNode → List Value) (wanted next : ℕ) (n : PlainNode)
        → IsNumbered next n → IsNumbered next (changed_at (λ m. having_fields (f m) m) wanted n) }
    ensures scroll { (scroll wanted next : ℕ) (n : PlainNode) → IsNumbered next n → IsNumbered next (changed_at (having_scroll scroll) wanted n) }
    ensures offsets { (offset : ℕ → Option ℕ) (next : ℕ) (n : PlainNode) → IsNumbered next n → IsNumbered next (scrolled_by offset n) }
{}
