// The reading of the program part: its form and its check.
ghost use Rattle.std.specs.Prelude.{◌≡◌, List, Ok, Err, ◌++◌, map, IfOk, OnOk, string_bytes};
ghost use Rattle.program_form.specs.Program.{PlainComponent};
ghost use Rattle.program_form.specs.ProgramView.{plain_program};
ghost use Rattle.program_read.specs.ProgramWalk as walk;
ghost use Rattle.program_read.specs.Reading.{read_as};
ghost use Rattle.program_check.specs.CheckedView.{plain_checked};
ghost use Rattle.program_check.specs.ProgramCheck.{checked_program};
ghost use Rattle.versioned_kinds.specs.Versions.{KeepsToVersion};
ghost use Rattle.frame_run.specs.Program.{name_at, after_check, checked_of, component_count};
ghost use Rattle.frame_run.specs.Text.{name_or_dash, shape_line, check_line, fault_line, checked_text};

use fx_expr::Txt;
use program_check::{CheckFault, Checked, check};
use program_form::Component;
use std::alloc::{AllocError, Global};
use versioned_kinds::programs_keep_to_their_version;

/// Why a program part is refused.
#[derive(Debug, PartialEq, Eq, Drop)]
pub enum ProgramFault {
    /// It isn't JSON.
    Json,
    /// Its form breaks a rule, whose number this is, first at this place: the path of member names and indices from the
    /// top, each after `/`.
    Shape { code: u8, place: Txt },
    /// A name, a type or a sort in it is wrong, by the rule of this number, first in this component, or outside
    /// components.
    Check { code: u8, component: Option<Txt> },
}

/// Why no program was read.
#[derive(Drop)]
pub enum BeginFault {
    /// The program part is refused.
    Refused(ProgramFault),
    /// Want of memory.
    OutOfMemory,
}

impl From<AllocError> for BeginFault {
    ghost use Rattle.frame_run.specs.declared.program.BeginFault.TheVariants.{OutOfMemory};

    ghost from_gives = { λ _ s. s ≡ OutOfMemory };

    fn from(_error: AllocError) -> Self {
        BeginFault::OutOfMemory
    }
}

// The names of components, in order.
fn names_of(alloc: Global, components: &[Component]) -> Result<Vec<Txt>, AllocError>
    ensures { IfOk result (λ names. names.items ≡ map (λ c. c.name) components.now) }
{
    let mut names = Vec::new(alloc);
    for component in components {
        names.push(component.name.clone()?)?;
    }
    Ok(names)
}

// The name at a place, where there is one.
fn name_at(mut names: Vec<Txt>, place: Option<u32>) -> Option<Txt>
    ensures { (cs : List PlainComponent) → names.items ≡ map (λ (c : PlainComponent). c.name) cs → result ≡ name_at cs place }
{
    let place = place? as usize;
    if place < names.len() {
        return Some(names.swap_remove(place));
    }
    None
}

// The checked program, or why it is refused.
fn checked(alloc: Global, program: program_form::Program) -> Result<Checked, BeginFault>
    ensures ok { IfOk result (λ c. checked_program (plain_program program) ≡ Ok (plain_checked c)) }
    ensures refused { (fault : ProgramFault) → result ≡ Err (BeginFault.Refused fault)
        → after_check (plain_program program).components (checked_program (plain_program program)) ≡ Err fault }
{
    let names = names_of(alloc, program.components.as_slice())?;
    match check(alloc, program) {
        Ok(checked) => Ok(checked),
        Err(CheckFault::Bad { code, component }) => {
            let component = name_at(names, component);
            Err(BeginFault::Refused(ProgramFault::Check { code, component }))
        }
        Err(CheckFault::OutOfMemory) => Err(BeginFault::OutOfMemory),
    }
}

// The program as it is written, or why it is refused.
fn written(alloc: Global, bytes: &[u8]) -> Result<program_form::Program, BeginFault>
    ensures ok { IfOk result (λ p. read_as walk.program_of bytes.now ≡ Ok (plain_program p)) }
    ensures refused { (fault : ProgramFault) → result ≡ Err (BeginFault.Refused fault) → checked_of bytes.now ≡ Err fault }
{
    match program_read::read_program(alloc, bytes) {
        Ok(program) => Ok(program),
        Err(program_read::ReadFault::Json) => Err(BeginFault::Refused(ProgramFault::Json)),
        Err(program_read::ReadFault::Shape { code, place }) => {
            Err(BeginFault::Refused(ProgramFault::Shape { code, place }))
        }
        Err(program_read::ReadFault::OutOfMemory) => Err(BeginFault::OutOfMemory),
    }
}

// The name of a component, or `-` outside components.
fn name_or_dash(component: &Option<Txt>) -> &str
    ensures { result.now ≡ name_or_dash component.now }
{
    match component {
        Some(name) => name.get(),
        None => "-",
    }
}

// The line of a program whose form breaks a rule.
fn shape_line(alloc: Global, code: u8, place: &str) -> Result<String, AllocError>
    ensures { IfOk result (λ s. string_bytes s ≡ shape_line code place.now) }
{
    format!(in alloc; "program shape {code} {place}\n")
}

// The line of a program whose check fails.
fn check_line(alloc: Global, code: u8, name: &str) -> Result<String, AllocError>
    ensures { IfOk result (λ s. string_bytes s ≡ check_line code name.now) }
{
    format!(in alloc; "program check {code} {name}\n")
}

/// Appends the line that says why a program is refused.
pub fn print_fault(alloc: Global, fault: &ProgramFault, out: &mut Vec<u8>) -> Result<(), AllocError>
    ensures { OnOk result (out.new.items ≡ out.old.items ++ fault_line fault.now) }
{
    match fault {
        ProgramFault::Json => out.extend_from_slice(b"program json\n"),
        ProgramFault::Shape { code, place } => {
            let line = shape_line(alloc, *code, place.get())?;
            out.extend_from_slice(line.as_bytes())
        }
        ProgramFault::Check { code, component } => {
            let line = check_line(alloc, *code, name_or_dash(component))?;
            out.extend_from_slice(line.as_bytes())
        }
    }
}

/// Reads and checks the program part: its form, by the rules of JSON (RFC 8259) and then those of a program, and its names,
/// types and sorts. The first fault is why it is refused.
#[tactic(auto, unfolding(crate::specs::Program::checked_of))]
pub fn read_checked(alloc: Global, bytes: &[u8]) -> Result<Checked, BeginFault>
    ensures ok { IfOk result (λ c. checked_of bytes.now ≡ Ok (plain_checked c)) }
    // No kind in it came after its version.
    ensures version { IfOk result (λ c. KeepsToVersion (plain_checked c)) }
    ensures refused { (fault : ProgramFault) → result ≡ Err (BeginFault.Refused fault) → checked_of bytes.now ≡ Err fault }
{
    programs_keep_to_their_version();
    let program = written(alloc, bytes)?;
    checked(alloc, program)
}

/// Counts the components of a program that is to be checked alone.
pub fn count_components(alloc: Global, bytes: &[u8]) -> Result<usize, BeginFault>
    ensures ok { IfOk result (λ n. component_count bytes.now ≡ Ok n) }
    ensures refused { (fault : ProgramFault) → result ≡ Err (BeginFault.Refused fault) → component_count bytes.now ≡ Err fault }
{
    let checked = read_checked(alloc, bytes)?;
    Ok(checked.parts().components.len())
}

/// Appends the line that says how many components a program has.
pub fn print_checked(alloc: Global, count: usize, out: &mut Vec<u8>) -> Result<(), AllocError>
    ensures { OnOk result (out.new.items ≡ out.old.items ++ checked_text count) }
{
    let line = checked_line(alloc, count)?;
    out.extend_from_slice(line.as_bytes())
}

// The line of a program that is checked alone.
fn checked_line(alloc: Global, count: usize) -> Result<String, AllocError>
    ensures { IfOk result (λ s. string_bytes s ≡ checked_text count) }
{
    format!(in alloc; "checked {count}\n")
}
