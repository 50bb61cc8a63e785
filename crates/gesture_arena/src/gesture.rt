use thiserror::Error;

/// What a member of an arena waits for.
#[derive(Clone, Copy, Debug, PartialEq, Eq, Hash)]
pub enum Gesture {
    /// A pointer that goes up near where it went down (`TapGestureRecognizer`).
    Tap,
    /// A pointer that stays down for 500 ms near where it went down (`LongPressGestureRecognizer`).
    Long,
    /// A drag up or down (`VerticalDragGestureRecognizer`).
    Vertical,
    /// A drag to the left or right (`HorizontalDragGestureRecognizer`).
    Horizontal,
    /// A drag in any direction (`PanGestureRecognizer`).
    Pan,
}

/// A member of a pointer's arena: the number of a detector's node, and the gesture that it waits for.
#[derive(Clone, Copy, Debug, PartialEq, Eq, Hash)]
pub struct Member {
    pub node: u64,
    pub gesture: Gesture,
}

/// What comes out of the arenas.
#[derive(Clone, Copy)]
pub enum ArenaEvent {
    /// This member won the pointer.
    Won {
        pointer: u32,
        node: u64,
        gesture: Gesture,
    },
    /// No member won the pointer.
    Nobody {
        pointer: u32,
    },
    /// A tap of the node's detector.
    Tap {
        node: u64,
    },
    /// A long press of the node's detector.
    Long {
        node: u64,
    },
    /// A drag of the node's detector starts.
    Start {
        node: u64,
        gesture: Gesture,
    },
    /// It goes on by so many u to the right and down.
    Update {
        node: u64,
        gesture: Gesture,
        dx: i64,
        dy: i64,
    },
    /// It ends.
    End {
        node: u64,
        gesture: Gesture,
    },
}

/// Why a pointer did not go down.
#[derive(Clone, Copy, Debug, PartialEq, Eq, Error)]
pub enum DownFault {
    /// A pointer with this number is down already.
    #[error("the pointer is down already")]
    PointerIsDown,
    /// As many pointers are down as may be.
    #[error("too many pointers are down")]
    TooManyPointers,
    /// There was no memory for the pointer.
    #[error("out of memory")]
    OutOfMemory,
}

/// No pointer with this number is down.
#[derive(Clone, Copy, Debug, PartialEq, Eq, Error)]
#[error("the pointer is up")]
pub struct PointerIsUp;
