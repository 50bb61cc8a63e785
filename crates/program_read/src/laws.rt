// What the definitions of this crate give at programs worked by hand.
ghost use Rattle.program_read.specs.Worked.{Works};

/// The walks of templates and of programs give what was worked by hand.
pub fn worked_programs()
    ensures { Works }
{}
