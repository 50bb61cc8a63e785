// What the definitions of this crate imply.
ghost use Rattle.std.specs.Prelude.{◌≡◌, ℕ, List, Ok};
ghost use Rattle.fx_expr.specs.Exp.{Exp};
ghost use Rattle.program_form.specs.Form.{PlainForm};
ghost use Rattle.program_form.specs.Handler.{PlainSet};
ghost use Rattle.expr_check.specs.Names.{PlainNames, types_of};
ghost use Rattle.expr_check.specs.Sight.{sight_of, IsTypedIn};
ghost use Rattle.expr_check.specs.Exprs.{TypedExp, typed_form};
ghost use Rattle.expr_check.specs.Handlers.{checked_handler, AreTypedSets};

/// What the check of an expression gives has its type, and reads the event of a gesture only where that is seen.
pub fn checked_expressions_are_typed()
    ensures { (names : PlainNames) (f : PlainForm) (e : TypedExp) → typed_form names f ≡ Ok e → IsTypedIn (sight_of names) e.exp e.ty }
{}

/// What the check of a handler gives sets fields to expressions of their types.
pub fn checked_handlers_are_typed()
    ensures { (names : PlainNames) (handler : List PlainSet) (sets : List (ℕ × Exp)) → checked_handler names handler ≡ Ok sets → AreTypedSets (types_of names) sets }
{}
