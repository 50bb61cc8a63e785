use fx_expr::Txt;

/// What a semantics action does.
#[derive(Clone, Copy)]
pub enum Action {
    /// A tap (`SemanticsAction.tap`).
    Tap,
    /// A long press (`SemanticsAction.longPress`).
    Long,
}

/// What a script line asks for. Nodes are named by their numbers. Points and sizes are in u, times in milliseconds.
#[derive(Drop)]
pub enum Command {
    /// `frame`: builds, lays out, paints and prints the next frame.
    Frame,
    /// `at T`: sets the time.
    At { t: u64 },
    /// `set #n field value`: sets a state's field. The value is the unread rest of the line.
    Set { node: u64, field: Txt, value: Txt },
    /// `root JSON`: replaces the root widget. The JSON is the unread rest of the line.
    Root { json: Txt },
    /// `resize W H`: replaces the view's size.
    Resize { w: i64, h: i64 },
    /// `scroll #n D`: scrolls a viewport.
    Scroll { node: u64, by: i64 },
    /// `down P X Y`: a pointer goes down.
    Down { pointer: u32, x: i64, y: i64 },
    /// `move P X Y`: a pointer that is down moves.
    Move { pointer: u32, x: i64, y: i64 },
    /// `up P`: a pointer goes up.
    Up { pointer: u32 },
    /// `cancel P`: a pointer is cancelled.
    Cancel { pointer: u32 },
    /// `hit X Y`: prints the hit path at a point of the view.
    Hit { x: i64, y: i64 },
    /// `semantics`: prints the semantics tree.
    Semantics,
    /// `act #n tap`, `act #n long`: does a semantics action.
    Act { node: u64, action: Action },
    /// `delegate NAME FIELD N`: sets a number of a delegate.
    Delegate { name: Txt, field: Txt, n: i64 },
    /// `unplug NAME`: drops a delegate.
    Unplug { name: Txt },
    /// `states`: prints the states.
    States,
}
