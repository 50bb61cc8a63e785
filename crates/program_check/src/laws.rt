// What the definitions of this crate give at programs worked by hand, and what they imply.
ghost use Rattle.std.specs.Prelude.{◌≡◌, ℕ, List, Ok, Some, slice_get};
ghost use Rattle.program_form.specs.Program.{PlainProgram};
ghost use Rattle.program_form.specs.Template.{PlainTemplate};
ghost use Rattle.program_check.specs.Body.{PlainBody, BodyMembers, part_at};
ghost use Rattle.program_check.specs.Checked.{PlainChecked};
ghost use Rattle.program_check.specs.ProgramCheck.{checked_program, checked_widget};
ghost use Rattle.program_check.specs.TypedBody.{Surroundings, WantedMember, AreTypedMembers, IsTypedMember};
ghost use Rattle.program_check.specs.TypedChecked.{IsTypedChecked, IsTypedRoot};
ghost use Rattle.program_check.specs.Distinct.{NamesOnce};
ghost use Rattle.program_check.specs.WorkedTyped.{TypedCases};

/// What the check of a program gives is typed.
pub fn checked_programs_are_typed()
    ensures { (p : PlainProgram) (c : PlainChecked) → checked_program p ≡ Ok c → IsTypedChecked c }
{}

/// In what the check of a program gives no inherited name, no component's name, and no prop, field or slot of a
/// component stands twice.
pub fn checked_names_differ()
    ensures { (p : PlainProgram) (c : PlainChecked) → checked_program p ≡ Ok c → NamesOnce c }
{}

/// A widget that takes the root's place in a checked program is typed there.
pub fn checked_widgets_are_typed()
    ensures { (c : PlainChecked) (t : PlainTemplate) (b : PlainBody) → checked_widget c t ≡ Ok b → IsTypedRoot c b }
{}

/// The member at a place of a typed template is what is wanted there.
pub fn typed_members_are_wanted()
    ensures { (S : Surroundings) (ws : List WantedMember) (ms : BodyMembers) (i : ℕ) (w : WantedMember)
        → AreTypedMembers S ws ms → slice_get ws i ≡ Some w → IsTypedMember S w (part_at ms i) }
{}

/// Which checked templates are typed, by cases worked by hand.
pub fn worked_typed_bodies()
    ensures { TypedCases }
{}
