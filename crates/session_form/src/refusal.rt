// Why a command is refused.
ghost use Rattle.std.specs.Prelude.{◌≡◌};
ghost use Rattle.session_form.specs.Refusals.{code_of, name_of};

/// Why a command is refused. The causes are tested in the order of their codes.
#[derive(Clone, Copy)]
pub enum Refusal {
    /// 5: the time would go back.
    TimeGoesBack,
    /// 6: the last frame has no node with this number.
    NoNode,
    /// 7: the node isn't a component with fields.
    NotStateful,
    /// 8: the component has no such field.
    NoField,
    /// 9: the value isn't JSON of the field's type, or is too long.
    WrongType,
    /// 10: the node isn't a Viewport.
    NotAViewport,
    /// 11: the pointer is down already.
    PointerIsDown,
    /// 12: the pointer isn't down.
    PointerIsUp,
    /// 13: as many pointers are down as may be.
    TooManyPointers,
    /// 14: no delegate has this name, or it was unplugged.
    NoDelegate,
    /// 15: the delegate hasn't this field.
    NoDelegateField,
    /// 16: the widget isn't read: it is no JSON, or breaks a rule of the form.
    BadWidget,
    /// 17: the widget breaks a rule of the check.
    WidgetCheck,
    /// 18: a side of the view isn't in 1..=16,777,216.
    ViewOutOfRange,
    /// 19: the semantics tree has no such node.
    NoSemanticsNode,
    /// 20: the semantics node hasn't the action.
    NoAction,
}

impl Refusal {
    /// Its number.
    pub fn code(self) -> u8
        ensures { result ≡ code_of self }
    {
        match self {
            Refusal::TimeGoesBack => 5,
            Refusal::NoNode => 6,
            Refusal::NotStateful => 7,
            Refusal::NoField => 8,
            Refusal::WrongType => 9,
            Refusal::NotAViewport => 10,
            Refusal::PointerIsDown => 11,
            Refusal::PointerIsUp => 12,
            Refusal::TooManyPointers => 13,
            Refusal::NoDelegate => 14,
            Refusal::NoDelegateField => 15,
            Refusal::BadWidget => 16,
            Refusal::WidgetCheck => 17,
            Refusal::ViewOutOfRange => 18,
            Refusal::NoSemanticsNode => 19,
            Refusal::NoAction => 20,
        }
    }

    /// Its name.
    pub fn name(self) -> &'static str
        ensures { result.now ≡ name_of self }
    {
        match self {
            Refusal::TimeGoesBack => "TimeGoesBack",
            Refusal::NoNode => "NoNode",
            Refusal::NotStateful => "NotStateful",
            Refusal::NoField => "NoField",
            Refusal::WrongType => "WrongType",
            Refusal::NotAViewport => "NotAViewport",
            Refusal::PointerIsDown => "PointerIsDown",
            Refusal::PointerIsUp => "PointerIsUp",
            Refusal::TooManyPointers => "TooManyPointers",
            Refusal::NoDelegate => "NoDelegate",
            Refusal::NoDelegateField => "NoDelegateField",
            Refusal::BadWidget => "BadWidget",
            Refusal::WidgetCheck => "WidgetCheck",
            Refusal::ViewOutOfRange => "ViewOutOfRange",
            Refusal::NoSemanticsNode => "NoSemanticsNode",
            Refusal::NoAction => "NoAction",
        }
    }
}
