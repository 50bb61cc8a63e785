// The calls that check a program, and a template that takes the root's place.
ghost use Rattle.std.specs.Prelude.{◌≡◌, ℕ, Option, Ok, Err, IfOk};
ghost use Rattle.program_form.specs.TemplateView.{plain_template};
ghost use Rattle.program_form.specs.ProgramView.{plain_program};
ghost use Rattle.program_check.specs.BodyView.{plain_body};
ghost use Rattle.program_check.specs.CheckedView.{plain_checked};
ghost use Rattle.program_check.specs.ProgramCheck.{bad_with, checked_program, checked_widget};
ghost use Rattle.program_check.specs.TypedChecked.{IsTypedChecked, IsTypedRoot};

use crate::checked::{Body, Checked};
use crate::programs::{check_program, check_root};
use crate::refusals::CheckFault;
use program_form::{Program, Template};
use std::alloc::Global;

/// Checks a program: finds its names, and tests its types and sorts.
///
/// `Bad` comes exactly where a rule is broken, with the first fault: the inherited names come first, then the
/// components, each its name, props, fields, slots and body, and then the root. Other programs are given with each
/// name that they use as its place; they are typed.
pub fn check(alloc: Global, p: Program) -> Result<Checked, CheckFault>
    ensures ok { IfOk result (λ c. checked_program (plain_program p) ≡ Ok (plain_checked c)) }
    ensures typed { IfOk result (λ c. IsTypedChecked (plain_checked c)) }
    ensures bad { (code : ℕ) (component : Option ℕ) → result ≡ Err (CheckFault.Bad code component)
        → checked_program (plain_program p) ≡ Err (bad_with code component) }
{
    check_program(alloc, p)
}

/// Checks a template that takes the place of the program's root. `Bad` comes exactly where a rule is broken, with the
/// first fault, and outside components. What is given is typed.
pub fn check_widget(alloc: Global, c: &Checked, t: Template) -> Result<Body, CheckFault>
    ensures ok { IfOk result (λ b. checked_widget (plain_checked c.now) (plain_template t) ≡ Ok (plain_body b)) }
    ensures typed { IfOk result (λ b. IsTypedRoot (plain_checked c.now) (plain_body b)) }
    ensures bad { (code : ℕ) (component : Option ℕ) → result ≡ Err (CheckFault.Bad code component)
        → checked_widget (plain_checked c.now) (plain_template t) ≡ Err (bad_with code component) }
{
    let parts = c.parts();
    check_root(
        alloc,
        t,
        &parts.inherited.names,
        parts.components.as_slice(),
    )
}
