// Laws of the definitions.
ghost use Rattle.std.specs.Prelude.{◌≡◌, ℕ, List, length};
ghost use Rattle.fx_expr.specs.declared.values.Value.{Value};
ghost use Rattle.plain_tree.specs.PlainNode.{PlainNode};
ghost use Rattle.plain_tree.specs.Render.{renders_of};
ghost use Rattle.plain_tree.specs.Projection.{render_of};
ghost use Rattle.plain_tree.specs.At.{numbers_of, changed_at, having_fields, having_scroll};
ghost use Rattle.plain_tree.specs.Laws.{render_numbers_in, IsLeftOf, AllDiffer, VanishAlone};

/// The projection keeps the order of numbers, and has no other numbers than the tree.
pub fn projection_keeps_order()
    ensures { (n : PlainNode) → IsLeftOf (render_numbers_in (renders_of (render_of n))) (numbers_of n) }
{}

/// Where all numbers of a tree differ, so do those of its projection.
pub fn projection_keeps_numbers_apart()
    ensures { (n : PlainNode) → AllDiffer (numbers_of n) → AllDiffer (render_numbers_in (renders_of (render_of n))) }
{}

/// A tree whose vanishing nodes have one child each gives one render node.
pub fn one_root_is_laid_out()
    ensures { (n : PlainNode) → VanishAlone n → length (render_of n) ≡ 1 }
{}

/// The projection doesn't depend on fields.
pub fn fields_leave_the_projection()
    ensures { (fields : List Value) (wanted : ℕ) (n : PlainNode) → render_of (changed_at (having_fields fields) wanted n) ≡ render_of n }
{}

/// A change of fields, or of an offset, leaves the numbers as they are.
pub fn changes_keep_numbers()
    ensures fields { (fields : List Value) (wanted : ℕ) (n : PlainNode) → numbers_of (changed_at (having_fields fields) wanted n) ≡ numbers_of n }
    ensures scroll { (scroll wanted : ℕ) (n : PlainNode) → numbers_of (changed_at (having_scroll scroll) wanted n) ≡ numbers_of n }
{}
