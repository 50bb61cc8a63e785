// What comes after the program part: a script that begins, or a program that is refused or only checked.
ghost use Rattle.std.specs.Prelude.{◌≡◌, Ok, [], ◌++◌, List, IfOk, OnOk};
ghost use Rattle.delegates.specs.Table.{Plug};
ghost use Rattle.program_check.specs.CheckedView.{plain_checked};
ghost use Rattle.versioned_kinds.specs.Versions.{KeepsToVersion};
ghost use Rattle.frame_run.specs.Job.{StageStands, counted_stage};
ghost use Rattle.frame_run.specs.Program.{begun_with, to_run, to_check, checked_of, component_count};
ghost use Rattle.frame_run.specs.Text.{At, fault_line, begun, begun_by, begun_text, begun_text_by};
ghost use Rattle.frame_run.specs.Words.{meant, task_with};
ghost use Rattle.frame_run.specs.Works.{IsCausedFirst};

use super::program;
use super::program::{BeginFault, ProgramFault};
use super::stage::{RunStop, Script, Stage};
use super::words::Mode;
use delegates::{Delegate, Named};
use frame_session::Session;
use live_session::Live;
use program_check::Checked;
use std::alloc::{AllocError, Global};

/// Begins the script of this program, or prints why there is none. Where the program is only to be checked, it
/// prints so. No script line has come before.
#[tactic(auto, unfolding(crate::specs::Text::begun, crate::specs::Text::begun_text))]
pub fn begin(
    alloc: Global,
    mode: Mode,
    delegates: Vec<Named>,
    program: &[u8],
    lines: u64,
    out: &mut Vec<u8>,
) -> Result<Stage, AllocError>
    requires { lines ≡ 0 }
    ensures stands { IfOk result (λ stage. StageStands stage ⟦<dyn Delegate as Delegate>⟧ (begun (task_with mode (meant delegates.items ⟦<dyn Delegate as Delegate>⟧)) program.now) []) }
    ensures causes { IfOk result (λ stage. IsCausedFirst stage (begun (task_with mode (meant delegates.items ⟦<dyn Delegate as Delegate>⟧)) program.now)) }
    ensures text { OnOk result (out.new.items ≡ out.old.items ++ begun_text (task_with mode (meant delegates.items ⟦<dyn Delegate as Delegate>⟧)) program.now) }
    ensures counted { IfOk result (λ stage. counted_stage stage ≡ 0) }
{
    match mode {
        Mode::Run => begin_script(alloc, delegates, program, lines, out),
        Mode::Check => check(alloc, program, out),
    }
}

// Begins the script of a checked program.
fn start(
    alloc: Global,
    checked: Checked,
    delegates: Vec<Named>,
    lines: u64,
) -> Result<Stage, AllocError>
    requires { lines ≡ 0 }
    ensures stands { IfOk result (λ stage. StageStands stage ⟦<dyn Delegate as Delegate>⟧ (begun_by (meant delegates.items ⟦<dyn Delegate as Delegate>⟧) (Ok (to_run (plain_checked checked)))) []) }
    ensures causes { IfOk result (λ stage. KeepsToVersion (plain_checked checked)
        → IsCausedFirst stage (begun_by (meant delegates.items ⟦<dyn Delegate as Delegate>⟧) (Ok (to_run (plain_checked checked))))) }
    ensures counted { IfOk result (λ stage. counted_stage stage ≡ 0) }
{
    let session = Session::new(alloc, checked, delegates)?;
    Ok(Stage::Running(Script {
        live: Live::new(alloc, session),
        lines,
        some_refused: false,
    }))
}

// Begins the script of this program.
fn begin_script(
    alloc: Global,
    delegates: Vec<Named>,
    program: &[u8],
    lines: u64,
    out: &mut Vec<u8>,
) -> Result<Stage, AllocError>
    requires { lines ≡ 0 }
    ensures stands { IfOk result (λ stage. StageStands stage ⟦<dyn Delegate as Delegate>⟧ (begun_by (meant delegates.items ⟦<dyn Delegate as Delegate>⟧) (begun_with to_run (checked_of program.now))) []) }
    ensures causes { IfOk result (λ stage. IsCausedFirst stage (begun_by (meant delegates.items ⟦<dyn Delegate as Delegate>⟧) (begun_with to_run (checked_of program.now)))) }
    ensures text { OnOk result (out.new.items ≡ out.old.items ++ begun_text_by (begun_with to_run (checked_of program.now))) }
    ensures counted { IfOk result (λ stage. counted_stage stage ≡ 0) }
{
    match program::read_checked(alloc, program) {
        Ok(checked) => start(alloc, checked, delegates, lines),
        Err(BeginFault::Refused(fault)) => refuse(alloc, &fault, out),
        Err(BeginFault::OutOfMemory) => Err(AllocError),
    }
}

// Checks this program, and prints how many components it has.
fn check(alloc: Global, program: &[u8], out: &mut Vec<u8>) -> Result<Stage, AllocError>
    ensures stands { IfOk result (λ stage. (es : List Plug) → StageStands stage ⟦<dyn Delegate as Delegate>⟧ (begun_by es (begun_with to_check (component_count program.now))) []) }
    ensures causes { IfOk result (λ stage. (place : At) → IsCausedFirst stage place) }
    ensures text { OnOk result (out.new.items ≡ out.old.items ++ begun_text_by (begun_with to_check (component_count program.now))) }
    ensures counted { IfOk result (λ stage. counted_stage stage ≡ 0) }
{
    match program::count_components(alloc, program) {
        Ok(count) => {
            program::print_checked(alloc, count, out)?;
            Ok(Stage::Checked)
        }
        Err(BeginFault::Refused(fault)) => refuse(alloc, &fault, out),
        Err(BeginFault::OutOfMemory) => Err(AllocError),
    }
}

// Prints why a program is refused.
fn refuse(alloc: Global, fault: &ProgramFault, out: &mut Vec<u8>) -> Result<Stage, AllocError>
    ensures stands { IfOk result (λ stage. stage ≡ Stage.Stopped RunStop.BadProgram) }
    ensures text { OnOk result (out.new.items ≡ out.old.items ++ fault_line fault.now) }
{
    program::print_fault(alloc, fault, out)?;
    Ok(Stage::Stopped(RunStop::BadProgram))
}
