// What a session keeps beside its delegates, and whether want of memory has spent it or a fault has ended it.
ghost use Rattle.std.specs.Prelude.{◌≡◌, ◌≢◌, [], ◌++◌, IfOk, OnOk, OnErr};
ghost use Rattle.frame_session.specs.Ending.{is_fault};

use crate::held::HeldSession;
use crate::stepping::step;
use delegates::{Delegate, DelegateTable};
use fx_outside::Steps;
use script_lines::Command;
use session_form::LineEnd;
use std::alloc::{AllocError, Global};
use std::marker::Model;
use std::mem;
use std::sync::ledger::Ledger;

// An empty text, in the room of `out` where nothing stands there.
fn empty_text(alloc: Global, out: &mut Vec<u8>) -> Vec<u8>
    ensures empty { result.items ≡ [] }
    ensures kept { out.new.items ≡ out.old.items }
{
    if out.is_empty() {
        return mem::replace(out, Vec::new(alloc));
    }
    Vec::new(alloc)
}

// How a command ends whose text is added. It takes memory only where there is a text, and where none was there before it is taken whole.
fn added(end: LineEnd, text: Vec<u8>, out: &mut Vec<u8>) -> Result<LineEnd, AllocError>
    ensures end { IfOk result (λ same. same ≡ end) }
    ensures ok { OnOk result (out.new.items ≡ out.old.items ++ text.items) }
    ensures err { OnErr result (out.new.items ≡ out.old.items) }
    ensures memory { OnErr result (text.items ≢ []) }
{
    if out.is_empty() {
        *out = text;
        return Ok(end);
    }
    if !text.is_empty() {
        out.extend_from_slice(text.as_slice())?;
    }
    Ok(end)
}

// Whether a line ended with a fault.
fn is_fault(end: &LineEnd) -> bool
    ensures { result ≡ is_fault end.now }
{
    match end {
        LineEnd::Done | LineEnd::Refused(_) => false,
        LineEnd::Fault(_) => true,
    }
}

// Whether want of memory has spent the session, whether a fault has ended it, and what it keeps.
#[derive(Drop)]
pub(crate) struct KeptParts {
    pub(crate) spent: bool,
    pub(crate) over: bool,
    pub(crate) held: HeldSession,
}

// These parts, of which all holds that the next command needs unless the session is spent or over.
#[derive(Drop)]
pub(crate) struct Kept {
    pub(crate) parts: KeptParts,
}

impl Model for Kept {
    ghost use Rattle.frame_session.specs.contracts.kept.KeptParts as kept_parts;
    ghost use Rattle.frame_session.specs.declared.kept.KeptParts.{KeptParts};

    ghost Value = { KeptParts };

    ghost coded = { kept_parts.the_row.coded };

    ghost use Rattle.frame_session.specs.StandsFor.{IsKept};

    ghost view = { λ k. k.parts };

    ghost invariant = { λ k. IsKept k.parts };
}

impl Kept {
    ghost use Rattle.std.specs.Prelude.{◌≡◌, ◌+◌, ◌*◌, ◌++◌, ◌<◌, ◌≤◌, ◌^◌, true, false, length, IfOk, OnOk, OnErr, if◌then◌else◌};
    ghost use Rattle.delegates.specs.Table.{meant_in};
    ghost use Rattle.session_form.specs.Outcome.{state_after, text_of, end_of};
    ghost use Rattle.frame_session.specs.Memory.{MayLackMemory};
    ghost use Rattle.frame_session.specs.Ending.{is_fault, IfGoesOn};
    ghost use Rattle.frame_session.specs.StandsFor.{StandsFor, IsRightStill, IsReady};
    ghost use Rattle.script_lines.specs.Ranges.{HasSignedRanges};
    ghost use Rattle.session_form.specs.Step.{frames_of};
    ghost use Rattle.session_form.specs.State.{SessionState};
    ghost use Rattle.session_form.specs.Step.{step};
    ghost use Rattle.work_sets.specs.Before.{Frames};
    ghost use Rattle.work_sets.specs.Work.{due_components};
    ghost use Rattle.versioned_kinds.specs.Versions.{StateKeepsToVersion};
    ghost use Rattle.counted_work.specs.Known.{WorkIsCaused};
    ghost use Rattle.frame_session.specs.Works.{NodesGoOn};

    // What a session that isn't spent keeps.
    pub(crate) fn new(held: HeldSession) -> Kept
        requires { IsReady false false held }
        ensures held { result.held ≡ held }
        ensures fresh { result.spent ≡ false }
        ensures going { result.over ≡ false }
    {
        Kept {
            parts: KeptParts {
                spent: false,
                over: false,
                held,
            },
        }
    }

    // Does one command, unless want of memory has spent the session, where no frame had a fault. Its text is made whole and then added.
    pub(crate) fn line<B: Ledger, L: Ledger, P: Ledger>(
        &mut self,
        alloc: Global,
        delegates: &mut DelegateTable,
        command: &Command,
        out: &mut Vec<u8>,
        builds: &mut Steps<B>,
        layouts: &mut Steps<L>,
        paints: &mut Steps<P>,
    ) -> Result<LineEnd, AllocError>
        requires in_range { HasSignedRanges command.now }
        requires frames { (if self.old.spent then 0 else self.old.held.frames) < 2 ^ 32 }
        requires going { self.old.over ≡ false }
        requires right { self.old.spent ≡ false → IsRightStill (meant_in delegates.old ⟦<dyn Delegate as Delegate>⟧) self.old.held.owner }
        ensures state { (s : SessionState) → self.old.spent ≡ false → StandsFor self.old.held (meant_in delegates.old ⟦<dyn Delegate as Delegate>⟧) s
            → IfGoesOn result (StandsFor self.new.held (meant_in delegates.new ⟦<dyn Delegate as Delegate>⟧) (state_after s (step s command.now))) }
        ensures text { (s : SessionState) → self.old.spent ≡ false → StandsFor self.old.held (meant_in delegates.old ⟦<dyn Delegate as Delegate>⟧) s
            → OnOk result (out.new.items ≡ out.old.items ++ text_of (step s command.now)) }
        ensures end { (s : SessionState) → self.old.spent ≡ false → StandsFor self.old.held (meant_in delegates.old ⟦<dyn Delegate as Delegate>⟧) s
            → IfOk result (λ end. end ≡ end_of (step s command.now)) }
        ensures memory { (s : SessionState) → self.old.spent ≡ false → StandsFor self.old.held (meant_in delegates.old ⟦<dyn Delegate as Delegate>⟧) s
            → OnErr result (MayLackMemory (step s command.now)) }
        ensures work { (frames : Frames) (s : SessionState) → self.old.spent ≡ false → StandsFor self.old.held (meant_in delegates.old ⟦<dyn Delegate as Delegate>⟧) s
            → StateKeepsToVersion s → WorkIsCaused frames s self.old.held.owner.screen.nodes
            → OnOk result (NodesGoOn frames s command.now self.new.held.owner.screen.nodes layouts.old layouts.new paints.old paints.new) }
        ensures built { (s : SessionState) → self.old.spent ≡ false → StandsFor self.old.held (meant_in delegates.old ⟦<dyn Delegate as Delegate>⟧) s
            → OnOk result (builds.new ≤ builds.old + frames_of command.now * length (due_components s)) }
        ensures idle { frames_of command.now ≡ 0 → (builds.new ≡ builds.old) × (layouts.new ≡ layouts.old) × (paints.new ≡ paints.old) }
        ensures fresh { OnOk result (self.new.spent ≡ false) }
        ensures over { IfOk result (λ end. self.new.over ≡ is_fault end) }
        ensures still_going { OnErr result (self.new.over ≡ false) }
        ensures frames { OnOk result (self.new.held.frames ≤ self.old.held.frames + frames_of command.now) }
        ensures err { OnErr result (out.new.items ≡ out.old.items) }
        ensures spent { OnErr result (self.new.spent ≡ true) }
        ensures stays_spent { self.old.spent ≡ true → OnOk result ⊥ }
    {
        if self.parts.spent {
            return Err(AllocError);
        }
        self.parts.spent = true;
        let mut text = empty_text(alloc, out);
        let end = step(
            alloc,
            &mut self.parts.held,
            delegates,
            command,
            &mut text,
            builds,
            layouts,
            paints,
        )?;
        let end = added(end, text, out)?;
        self.parts.over = is_fault(&end);
        self.parts.spent = false;
        Ok(end)
    }

    // What it keeps.
    pub(crate) fn held(&self) -> &HeldSession
        ensures { result.now ≡ self.now.held }
    {
        &self.parts.held
    }
}
