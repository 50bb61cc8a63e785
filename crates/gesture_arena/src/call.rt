// What one call gives each pointer.
ghost use Rattle.std.specs.Prelude.{◌≡◌, map, if◌then◌else◌, ◌==◌, Option, Some, None, Bool};
ghost use Rattle.std.specs.List.{list_any};
ghost use Rattle.std.specs.Option.{option_map};
ghost use Rattle.gesture_arena.specs.Moment.{is_among};
ghost use Rattle.gesture_arena.specs.Stored.{moment_of, given_in, has_lost};

use crate::gone::Gone;
use crate::held::HeldPointer;
use crate::moment::Happening;
use crate::place::PointerPlace;
use crate::tracked::Tracked;

/// How long after a pointer went down its deadline comes, in milliseconds (`kLongPressTimeout`).
const DEADLINE: u64 = 500;

#[derive(Clone, Copy)]
pub enum Call<'a> {
    Moved(u32, PointerPlace),
    Up(u32),
    Cancel(u32),
    // The time is this.
    Advance(u64),
    // These members are gone.
    Dropped(Gone<'a>),
}

// Whether one of the members is among those that are gone.
fn has_lost(members: &[Tracked], gone: &Gone<'_>) -> bool
    ensures { result ≡ has_lost gone.now.members.now members.now }
{
    members.iter().any(|t| gone.has(t.member()))
}

// The moment for the pointer with this number.
fn one_gets<'a>(held: &HeldPointer, number: u32, happening: Happening<'a>) -> Option<Happening<'a>>
    ensures { result ≡ (if held.now.number == number then Some happening.entry else None) }
{
    if held.number == number {
        Some(happening)
    } else {
        None
    }
}

impl<'a> Call<'a> {
    /// The moment that the call gives a pointer, if any.
    pub fn given(&self, held: &HeldPointer) -> Option<Happening<'a>>
        ensures { option_map moment_of result ≡ given_in self.now held.now }
    {
        match self {
            Call::Moved(number, at) => one_gets(held, *number, Happening::Move(*at)),
            Call::Up(number) => one_gets(held, *number, Happening::Up),
            Call::Cancel(number) => one_gets(held, *number, Happening::Cancel),
            Call::Advance(now) => {
                if !held.is_due && now.saturating_sub(held.began) >= DEADLINE {
                    Some(Happening::Due)
                } else {
                    None
                }
            }
            Call::Dropped(gone) => {
                if has_lost(held.members.as_slice(), gone) {
                    Some(Happening::Dropped(*gone))
                } else {
                    None
                }
            }
        }
    }
}
