// The lines of the focus.
ghost use Rattle.std.specs.Prelude.{◌≡◌, ◌++◌, IfOk, OnOk};

use super::live::{Ended, Live};
use super::refusal::LineRefusal;
use delegates::Delegate;
use focus_order::{next, prev};
use render_readers::order;
use std::alloc::{AllocError, Global};

impl Live {
    ghost use Rattle.screen_form.specs.FocusSteps.{next_of, prev_of};
    ghost use Rattle.live_session.specs.Focus.{order_in, is_in, focus_kept, focused, focus_on};
    ghost use Rattle.live_session.specs.LiveStands.{LiveStands, end_of, text_of};
    ghost use Rattle.live_session.specs.RunState.{RunState, state_after};

    // The numbers that can have the focus, in order.
    fn order(&self, alloc: Global) -> Result<Vec<u64>, AllocError>
        ensures { (r : RunState) → LiveStands self.now ⟦<dyn Delegate as Delegate>⟧ r → IfOk result (λ v. v.items ≡ order_in r.session.shown) }
    {
        let mut numbers = Vec::new(alloc);
        order(alloc, self.session.render(), &mut numbers)?;
        Ok(numbers)
    }

    // Whether a node can have the focus.
    fn is_focusable(&self, alloc: Global, node: u64) -> Result<bool, AllocError>
        ensures { (r : RunState) → LiveStands self.now ⟦<dyn Delegate as Delegate>⟧ r → IfOk result (λ found. found ≡ is_in (order_in r.session.shown) node) }
    {
        let order = self.order(alloc)?;
        Ok(order.as_slice().contains(&node))
    }

    // After a frame: the focus stays exactly where its number is in the order.
    pub(crate) fn keep_focus(&mut self, alloc: Global) -> Result<(), AllocError>
        ensures state { (r : RunState) → LiveStands self.old ⟦<dyn Delegate as Delegate>⟧ r → OnOk result (LiveStands self.new ⟦<dyn Delegate as Delegate>⟧ (record r { focus = focus_kept (order_in r.session.shown) r.focus })) }
        ensures session { self.new.session ≡ self.old.session }
    {
        let Some(number) = self.focus else {
            return Ok(());
        };
        if self.is_focusable(alloc, number)? {
            return Ok(());
        }
        self.focus = None;
        Ok(())
    }

    // Gives the focus to a node or to none, and prints it.
    pub(crate) fn focus_to(
        &mut self,
        alloc: Global,
        focus: Option<u64>,
        out: &mut Vec<u8>,
    ) -> Result<Ended, AllocError>
        ensures state { (r : RunState) → LiveStands self.old ⟦<dyn Delegate as Delegate>⟧ r → OnOk result (LiveStands self.new ⟦<dyn Delegate as Delegate>⟧ (state_after r (focused focus r))) }
        ensures text { (r : RunState) → LiveStands self.old ⟦<dyn Delegate as Delegate>⟧ r → OnOk result (out.new.items ≡ out.old.items ++ text_of (focused focus r)) }
        ensures end { (r : RunState) → LiveStands self.old ⟦<dyn Delegate as Delegate>⟧ r → IfOk result (λ end. end ≡ end_of (focused focus r)) }
        ensures session { self.new.session ≡ self.old.session }
    {
        self.focus = focus;
        match focus {
            None => out.extend_from_slice(b"focus none\n")?,
            Some(number) => {
                let text = format!(in alloc; "focus #{number}\n")?;
                out.extend_from_slice(text.as_bytes())?;
            }
        }
        Ok(Ended::Done)
    }

    // `focus next`
    pub(crate) fn focus_next(
        &mut self,
        alloc: Global,
        out: &mut Vec<u8>,
    ) -> Result<Ended, AllocError>
        ensures state { (r : RunState) → LiveStands self.old ⟦<dyn Delegate as Delegate>⟧ r → OnOk result (LiveStands self.new ⟦<dyn Delegate as Delegate>⟧ (state_after r (focused (next_of (order_in r.session.shown) r.focus) r))) }
        ensures text { (r : RunState) → LiveStands self.old ⟦<dyn Delegate as Delegate>⟧ r → OnOk result (out.new.items ≡ out.old.items ++ text_of (focused (next_of (order_in r.session.shown) r.focus) r)) }
        ensures end { (r : RunState) → LiveStands self.old ⟦<dyn Delegate as Delegate>⟧ r → IfOk result (λ end. end ≡ end_of (focused (next_of (order_in r.session.shown) r.focus) r)) }
        ensures session { self.new.session ≡ self.old.session }
    {
        let order = self.order(alloc)?;
        self.focus_to(alloc, next(order.as_slice(), self.focus), out)
    }

    // `focus prev`
    pub(crate) fn focus_prev(
        &mut self,
        alloc: Global,
        out: &mut Vec<u8>,
    ) -> Result<Ended, AllocError>
        ensures state { (r : RunState) → LiveStands self.old ⟦<dyn Delegate as Delegate>⟧ r → OnOk result (LiveStands self.new ⟦<dyn Delegate as Delegate>⟧ (state_after r (focused (prev_of (order_in r.session.shown) r.focus) r))) }
        ensures text { (r : RunState) → LiveStands self.old ⟦<dyn Delegate as Delegate>⟧ r → OnOk result (out.new.items ≡ out.old.items ++ text_of (focused (prev_of (order_in r.session.shown) r.focus) r)) }
        ensures end { (r : RunState) → LiveStands self.old ⟦<dyn Delegate as Delegate>⟧ r → IfOk result (λ end. end ≡ end_of (focused (prev_of (order_in r.session.shown) r.focus) r)) }
        ensures session { self.new.session ≡ self.old.session }
    {
        let order = self.order(alloc)?;
        self.focus_to(alloc, prev(order.as_slice(), self.focus), out)
    }

    // `focus #n`
    pub(crate) fn focus_on(
        &mut self,
        alloc: Global,
        node: u64,
        out: &mut Vec<u8>,
    ) -> Result<Ended, AllocError>
        ensures state { (r : RunState) → LiveStands self.old ⟦<dyn Delegate as Delegate>⟧ r → OnOk result (LiveStands self.new ⟦<dyn Delegate as Delegate>⟧ (state_after r (focus_on node r))) }
        ensures text { (r : RunState) → LiveStands self.old ⟦<dyn Delegate as Delegate>⟧ r → OnOk result (out.new.items ≡ out.old.items ++ text_of (focus_on node r)) }
        ensures end { (r : RunState) → LiveStands self.old ⟦<dyn Delegate as Delegate>⟧ r → IfOk result (λ end. end ≡ end_of (focus_on node r)) }
        ensures session { self.new.session ≡ self.old.session }
    {
        if self.is_focusable(alloc, node)? {
            return self.focus_to(alloc, Some(node), out);
        }
        Ok(Ended::Refused(LineRefusal::NotFocusable))
    }
}
