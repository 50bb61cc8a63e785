use super::command::Command;
use fx_expr::Txt;
use tickers::Curve;

/// What a script line asks a run for: a command of its session, or something that the run keeps beside it. Nodes are named by
/// their numbers. Times are in milliseconds.
#[derive(Drop)]
pub enum Entry {
    /// A command of the session. The run begins `frame` with its tweens, and ends it with them and with the focus.
    Line(Command),
    /// `tween #n FIELD FROM TO MS CURVE`: a state's field goes from a number to another one in so much time.
    Tween {
        node: u64,
        field: Txt,
        from: i64,
        to: i64,
        ms: u64,
        curve: Curve,
    },
    /// `focus next`: the next detector has the focus.
    FocusNext,
    /// `focus prev`: the one before has it.
    FocusPrev,
    /// `focus #n`: this detector has it.
    FocusOn {
        node: u64,
    },
    /// `focus none`: none has it.
    FocusNone,
    /// `press`: taps the detector that has the focus.
    Press,
    /// `cells`: prints the last frame as cells.
    Cells,
}
