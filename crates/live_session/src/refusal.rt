// Why a script line is refused.
ghost use Rattle.std.specs.Prelude.{◌≡◌};
ghost use Rattle.live_session.specs.Refusals.{code_of, name_of};

/// Why a script line is refused.
#[derive(Clone, Copy)]
pub enum LineRefusal {
    /// It is too long.
    LineTooLong,
    /// It isn't UTF-8.
    NotUtf8,
    /// There is no such line.
    UnknownLine,
    /// A number in it is wrong.
    BadNumber,
    /// The session refuses its command.
    Command(frame_session::Refusal),
    /// As many tweens run as may, and none has this node and field.
    TooManyTweens,
    /// No detector has the focus.
    NoFocus,
    /// The node can't have the focus.
    NotFocusable,
    /// The last frame takes too many cells.
    TooManyCells,
    /// There was no frame.
    NoFrame,
}

impl LineRefusal {
    /// The number of the refusal.
    pub fn code(self) -> u8
        ensures { result ≡ code_of self }
    {
        match self {
            LineRefusal::LineTooLong => 1,
            LineRefusal::NotUtf8 => 2,
            LineRefusal::UnknownLine => 3,
            LineRefusal::BadNumber => 4,
            LineRefusal::Command(why) => why.code(),
            LineRefusal::TooManyTweens => 22,
            LineRefusal::NoFocus => 23,
            LineRefusal::NotFocusable => 24,
            LineRefusal::TooManyCells => 25,
            LineRefusal::NoFrame => 26,
        }
    }

    /// The name of the refusal.
    pub fn name(self) -> &'static str
        ensures { result.now ≡ name_of self }
    {
        match self {
            LineRefusal::LineTooLong => "LineTooLong",
            LineRefusal::NotUtf8 => "NotUtf8",
            LineRefusal::UnknownLine => "UnknownLine",
            LineRefusal::BadNumber => "BadNumber",
            LineRefusal::Command(why) => why.name(),
            LineRefusal::TooManyTweens => "TooManyTweens",
            LineRefusal::NoFocus => "NoFocus",
            LineRefusal::NotFocusable => "NotFocusable",
            LineRefusal::TooManyCells => "TooManyCells",
            LineRefusal::NoFrame => "NoFrame",
        }
    }
}
