use crate::gone::Gone;
use crate::place::PointerPlace;

// What happens to one pointer.
#[derive(Clone, Copy)]
pub enum Happening<'a> {
    Down,
    Move(PointerPlace),
    Up,
    Cancel,
    // Its deadline has come.
    Due,
    // These detectors' handlers are gone with a frame.
    Dropped(Gone<'a>),
}

// What a member makes of the moments so far.
#[derive(Clone, Copy)]
pub enum Decision {
    Waits,
    Rejects,
    Accepts,
}
