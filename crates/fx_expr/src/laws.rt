//! Laws of values and expressions. None of these calls does anything: their contracts say what holds of all of them. Proofs of
//! the crates above cite the same laws by their names in `specs/ValueLaws.antt`, `specs/TypeLaws.antt`,
//! `specs/ClosingLaws.antt` and `specs/PlaceLaws.antt`.
ghost use Rattle.std.specs.Prelude.{◌≡◌, ◌↔◌, ◌||◌, ℕ, Bool, IsTrue, List, map};
ghost use Rattle.std.specs.declared.cmp.Ordering.TheVariants as Ordering;
ghost use Rattle.fx_expr.specs.declared.values.Ty.{Ty};
ghost use Rattle.fx_expr.specs.declared.values.Value.{Value};
ghost use Rattle.fx_expr.specs.Value.{type_of, value_eq};
ghost use Rattle.fx_expr.specs.Exp.{Exp};
ghost use Rattle.fx_expr.specs.Scope.{Env, types_in, with_names, field_types_alone};
ghost use Rattle.fx_expr.specs.ValueOf.{value_of};
ghost use Rattle.fx_expr.specs.Typed.{IsTyped};
ghost use Rattle.fx_expr.specs.Closed.{closed, IsClosed};
ghost use Rattle.fx_expr.specs.Places.{AddsPlaces};

use crate::values::Value;

/// The test whether two values are equal holds exactly where they are.
pub fn value_eq_means()
    ensures { (a b : Value) → IsTrue (value_eq a b) ↔ (a ≡ b) }
{}

/// The order of values ties exactly equal ones.
pub fn order_ties_equals()
    ensures { (a b : Value) → (⟦<Value as Ord>⟧.cmp a b ≡ Ordering.Equal) ↔ (a ≡ b) }
{}

/// The value of a typed expression has the expression's type.
pub fn values_have_their_types()
    ensures { (e : Exp) (s : Env) (t : Ty) → IsTyped (types_in s) e t → type_of (value_of e s) ≡ t }
{}

/// A closed expression names no prop, loop variable or inherited value; it has the type that the expression had, over the
/// fields alone; and its value in a later scope is the expression's there with the names of the earlier one.
pub fn closing_keeps_types_and_values()
    ensures names { (e : Exp) (s : Env) → IsClosed (closed e s) }
    ensures types { (e : Exp) (s : Env) (t : Ty) → IsTyped (types_in s) e t
        → IsTyped (field_types_alone (map type_of s.fields)) (closed e s) t }
    ensures values { (e : Exp) (s later : Env) → value_of (closed e s) later ≡ value_of e (with_names s later) }
{}

/// What is added to a list of places in two steps are the places that pass either step's test.
pub fn added_places_join()
    ensures { (first second third : List ℕ) (P Q : ℕ → Bool) → AddsPlaces first second P → AddsPlaces second third Q
        → AddsPlaces first third (λ i. P i || Q i) }
{}
