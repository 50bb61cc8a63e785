// The tweens that run.
ghost use Rattle.std.specs.Prelude.{◌≡◌, ◌↔◌, ◌≤◌, ◌<◌, ◌++◌, [], ◌∷◌, true, length, slice_get, OnOk, OnErr, option_copied};
ghost use Rattle.std.specs.List.{position};
ghost use Rattle.tickers.specs.Running.{is_on, has, max_tweens, is_full, started, cancelled, without_at, unfinished};

use crate::tween::Tween;
use std::alloc::{AllocFailed, Global};
use std::marker::Model;

/// So many tweens run at once at most.
pub const MAX_TWEENS: usize = 256;

/// Why a tween wasn't started.
#[derive(Clone, Copy, Debug, PartialEq, Eq)]
pub enum StartFault {
    /// [`MAX_TWEENS`] run, and none has this node and field.
    TooManyTweens,
    /// There was no memory.
    OutOfMemory,
}

impl From<AllocFailed<Tween>> for StartFault {
    ghost use Rattle.tickers.specs.declared.tickers.StartFault.TheVariants.{OutOfMemory};

    ghost from_gives = { λ _ f. f ≡ OutOfMemory };

    fn from(_failed: AllocFailed<Tween>) -> StartFault {
        StartFault::OutOfMemory
    }
}

/// The tweens that run, in the order in which they were started. Contracts see them as their list.
#[derive(Debug, Drop)]
pub struct Tickers {
    tweens: Vec<Tween>,
}

impl Model for Tickers {
    ghost use Rattle.std.specs.Prelude.{List};
    ghost use Rattle.tickers.specs.declared.tween.Tween.{Tween};

    ghost Value = { List Tween };

    ghost view = { λ t. t.tweens.items };
}

// Whether a tween is on this field of this node.
fn is_on(t: &Tween, node: u64, field: &str) -> bool
    ensures { result ≡ is_on node field.now t.now }
{
    t.node == node && t.field.get() == field
}

// The place of the first tween on this field of this node.
fn place_of(tweens: &[Tween], node: u64, field: &str) -> Option<usize>
    ensures { result ≡ position (is_on node field.now) tweens.now }
{
    tweens.iter().position(|t| is_on(t, node, field))
}

impl Tickers {
    /// No tweens.
    pub fn new(alloc: Global) -> Tickers
        ensures { result ≡ [] }
    {
        Tickers {
            tweens: Vec::new(alloc),
        }
    }

    /// Starts a tween: in the place of the one with its node and field, else after all others. Where that is refused, or there
    /// is no memory, the tweens are as before.
    pub fn start(&mut self, t: Tween) -> Result<(), StartFault>
        ensures ok { OnOk result (self.new ≡ started t self.old) }
        ensures full { (result ≡ Err StartFault.TooManyTweens) ↔ (is_full self.old t.node t.field ≡ true) }
        ensures err { OnErr result (self.new ≡ self.old) }
        ensures room { length self.old ≤ max_tweens → length self.new ≤ max_tweens }
    {
        match place_of(self.tweens.as_slice(), t.node, t.field.get()) {
            Some(i) => {
                self.tweens[i] = t;
                Ok(())
            }
            None => self.add(t),
        }
    }

    // Adds a tween on a field that none is on.
    fn add(&mut self, t: Tween) -> Result<(), StartFault>
        ensures ok { OnOk result (self.new ≡ self.old ++ t ∷ []) }
        ensures full { (result ≡ Err StartFault.TooManyTweens) ↔ (max_tweens ≤ length self.old) }
        ensures err { OnErr result (self.new ≡ self.old) }
    {
        if self.tweens.len() >= MAX_TWEENS {
            return Err(StartFault::TooManyTweens);
        }
        self.tweens.push(t)?;
        Ok(())
    }

    /// Whether `start` refuses a tween on this field of this node.
    pub fn is_full(&self, node: u64, field: &str) -> bool
        ensures { result ≡ is_full self.now node field.now }
    {
        self.tweens.len() >= MAX_TWEENS && place_of(self.tweens.as_slice(), node, field).is_none()
    }

    /// How many tweens run.
    pub fn count(&self) -> usize
        ensures { result ≡ length self.now }
    {
        self.tweens.len()
    }

    /// The tween at a place in the order of their starts, from 0 on; none exactly past the last.
    pub fn at(&self, i: usize) -> Option<&Tween>
        ensures { option_copied result ≡ slice_get self.now i }
    {
        self.tweens.get(i)
    }

    /// Drops the tween on this field of this node. False, and nothing changed, exactly where there is none.
    pub fn cancel(&mut self, node: u64, field: &str) -> bool
        ensures value { result ≡ has self.old node field.now }
        ensures changed { self.new ≡ cancelled node field.now self.old }
    {
        let found = place_of(self.tweens.as_slice(), node, field).is_some();
        self.tweens.retain(|t| !is_on(t, node, field));
        found
    }

    /// Drops the tween at a place.
    pub fn cancel_at(&mut self, i: usize)
        requires { i < length self.old }
        ensures { self.new ≡ without_at i self.old }
    {
        let _ = self.tweens.remove(i);
    }

    /// Drops the tweens that are at their end at this time, in milliseconds.
    pub fn finish(&mut self, now: u64)
        ensures { self.new ≡ unfinished now self.old }
    {
        self.tweens
            .retain(|t| (now as u128) < t.start as u128 + t.ms as u128);
    }
}
