// The kinds of a template, and the members that each has.
ghost use Rattle.std.specs.Prelude.{◌≡◌};
ghost use Rattle.program_form.specs.Kinds.{kinds, kind_text, since, kind_named, has_key, members_of, member_text};

use crate::words::WordList;

/// The kinds of a template, under the names of the widgets that they make. The last three make no widget of their own.
#[derive(Clone, Copy)]
pub enum KindName {
    /// A box with a width and a height of its own.
    SizedBox,
    /// Bounds on the child's size.
    ConstrainedBox,
    /// Room round the child.
    Padding,
    /// The child's place in the room.
    Align,
    /// A color below the child.
    ColoredBox,
    /// A paragraph.
    Text,
    /// Children side by side.
    Row,
    /// Children one below another.
    Column,
    /// Children one over another.
    Stack,
    /// A share of a Row or a Column.
    Flexible,
    /// A place in a Stack.
    Positioned,
    /// The child, partly transparent.
    Opacity,
    /// The child, cut at its box.
    ClipRect,
    /// A layer of its own.
    RepaintBoundary,
    /// One semantics node for all below.
    MergeSemantics,
    /// The child at its own width.
    IntrinsicWidth,
    /// The child at its own height.
    IntrinsicHeight,
    /// A child that is laid out and not shown.
    Offstage,
    /// A child that no pointer hits.
    IgnorePointer,
    /// A box that keeps pointers from its child.
    AbsorbPointer,
    /// What is set at gestures.
    Detector,
    /// What a semantics node says.
    Semantics,
    /// A child without semantics.
    ExcludeSemantics,
    /// A delegate's painting.
    CustomPaint,
    /// A delegate's layout.
    CustomLayout,
    /// Slivers that scroll.
    Viewport,
    /// A box as a sliver.
    SliverToBox,
    /// Room round a sliver.
    SliverPadding,
    /// A list of items of one extent.
    SliverFixed,
    /// A list of items of one extent, of which only those near the window are there.
    SliverLazy,
    /// An item of a lazy list that stays while it is out of sight.
    Keep,
    /// Children side by side, in as many runs as they need.
    Wrap,
    /// Children in rows under columns of fixed widths.
    Table,
    /// A value for all below.
    Inherit,
    /// A component (`use`).
    Use,
    /// The content given for a slot (`slot`).
    Slot,
    /// One template or another (`if`).
    If,
    /// A template for each item of a list (`each`).
    Each,
}

/// The names of a template's members, beside `w` and `key`.
#[derive(Clone, Copy)]
pub enum MemberName {
    Width,
    Height,
    Child,
    MinWidth,
    MaxWidth,
    MinHeight,
    MaxHeight,
    Left,
    Top,
    Right,
    Bottom,
    Ax,
    Ay,
    Color,
    Text,
    Main,
    Cross,
    Size,
    Children,
    Fit,
    Flex,
    Alpha,
    Offstage,
    Ignoring,
    Absorbing,
    Behavior,
    Tap,
    Long,
    Vertical,
    Horizontal,
    Pan,
    Label,
    Button,
    Container,
    Excluding,
    Delegate,
    Axis,
    Extent,
    Keep,
    Spacing,
    RunSpacing,
    Widths,
    Name,
    Value,
    Props,
    Slots,
    Cond,
    Then,
    Else,
    Var,
    In,
    Body,
}

/// What an expression of a member stands for.
#[derive(Clone, Copy)]
pub enum MemberMeaning {
    /// A number of u from 0 on.
    Length,
    /// A number of u of either sign.
    Offset,
    /// A place between two sides, from -100 to 100.
    Alignment,
    /// A color, 0xAARRGGBB.
    Color,
    /// A share of the room that is left.
    Flex,
    /// An opacity from 0 to 255.
    Alpha,
    /// The extent of a list's items, in u.
    Extent,
    /// The widths of a table's columns, in u: a list of numbers.
    Widths,
    /// A truth value.
    Flag,
    /// A text.
    Text,
    /// A list of either type.
    List,
    /// A value of a type that is declared elsewhere.
    Any,
}

/// What is wanted where a template stands.
#[derive(Clone, Copy, Debug, PartialEq, Eq)]
pub enum ChildSort {
    Box,
    Sliver,
    /// Either of them.
    Any,
}

/// What a member is.
#[derive(Clone, Copy)]
pub enum MemberForm {
    Expression(MemberMeaning),
    Word(WordList),
    /// A name of a component, variable, slot or inherited value.
    Name,
    Handler,
    Child(ChildSort),
    Children(ChildSort),
    /// An object of expressions.
    Props,
    /// An object of templates.
    Slots,
}

/// A member of a kind.
#[derive(Clone, Copy)]
pub struct KindMember {
    pub name: MemberName,
    pub form: MemberForm,
    pub required: bool,
}

// The member, which may be left out.
macro_rules! optional {
    ($name:ident, $form:expr) => {
        KindMember {
            name: MemberName::$name,
            form: $form,
            required: false,
        }
    };
}

// The member, which has to be there.
macro_rules! required {
    ($name:ident, $form:expr) => {
        KindMember {
            name: MemberName::$name,
            form: $form,
            required: true,
        }
    };
}

const WIDTH: KindMember = optional!(Width, MemberForm::Expression(MemberMeaning::Length));

const HEIGHT: KindMember = optional!(Height, MemberForm::Expression(MemberMeaning::Length));

const CHILD: KindMember = optional!(Child, MemberForm::Child(ChildSort::Box));

const MIN_WIDTH: KindMember = optional!(MinWidth, MemberForm::Expression(MemberMeaning::Length));

const MAX_WIDTH: KindMember = optional!(MaxWidth, MemberForm::Expression(MemberMeaning::Length));

const MIN_HEIGHT: KindMember = optional!(MinHeight, MemberForm::Expression(MemberMeaning::Length));

const MAX_HEIGHT: KindMember = optional!(MaxHeight, MemberForm::Expression(MemberMeaning::Length));

const LEFT: KindMember = optional!(Left, MemberForm::Expression(MemberMeaning::Length));

const TOP: KindMember = optional!(Top, MemberForm::Expression(MemberMeaning::Length));

const RIGHT: KindMember = optional!(Right, MemberForm::Expression(MemberMeaning::Length));

const BOTTOM: KindMember = optional!(Bottom, MemberForm::Expression(MemberMeaning::Length));

const AX: KindMember = optional!(Ax, MemberForm::Expression(MemberMeaning::Alignment));

const AY: KindMember = optional!(Ay, MemberForm::Expression(MemberMeaning::Alignment));

const COLOR: KindMember = optional!(Color, MemberForm::Expression(MemberMeaning::Color));

const TEXT: KindMember = required!(Text, MemberForm::Expression(MemberMeaning::Text));

const MAIN: KindMember = optional!(Main, MemberForm::Word(WordList::Main));

const CROSS: KindMember = optional!(Cross, MemberForm::Word(WordList::Cross));

const SIZE: KindMember = optional!(Size, MemberForm::Word(WordList::Size));

const CHILDREN: KindMember = optional!(Children, MemberForm::Children(ChildSort::Box));

const FIT: KindMember = optional!(Fit, MemberForm::Word(WordList::StackFit));

const FLEX: KindMember = optional!(Flex, MemberForm::Expression(MemberMeaning::Flex));

const FLEX_FIT: KindMember = optional!(Fit, MemberForm::Word(WordList::FlexFit));

const REQUIRED_CHILD: KindMember = required!(Child, MemberForm::Child(ChildSort::Box));

const POSITIONED_LEFT: KindMember = optional!(Left, MemberForm::Expression(MemberMeaning::Offset));

const POSITIONED_TOP: KindMember = optional!(Top, MemberForm::Expression(MemberMeaning::Offset));

const POSITIONED_RIGHT: KindMember = optional!(
    Right,
    MemberForm::Expression(MemberMeaning::Offset)
);

const POSITIONED_BOTTOM: KindMember = optional!(
    Bottom,
    MemberForm::Expression(MemberMeaning::Offset)
);

const ALPHA: KindMember = optional!(Alpha, MemberForm::Expression(MemberMeaning::Alpha));

const OFFSTAGE: KindMember = optional!(Offstage, MemberForm::Expression(MemberMeaning::Flag));

const IGNORING: KindMember = optional!(Ignoring, MemberForm::Expression(MemberMeaning::Flag));

const ABSORBING: KindMember = optional!(Absorbing, MemberForm::Expression(MemberMeaning::Flag));

const BEHAVIOR: KindMember = optional!(Behavior, MemberForm::Word(WordList::Behavior));

const TAP: KindMember = optional!(Tap, MemberForm::Handler);

const LONG: KindMember = optional!(Long, MemberForm::Handler);

const VERTICAL: KindMember = optional!(Vertical, MemberForm::Handler);

const HORIZONTAL: KindMember = optional!(Horizontal, MemberForm::Handler);

const PAN: KindMember = optional!(Pan, MemberForm::Handler);

const LABEL: KindMember = optional!(Label, MemberForm::Expression(MemberMeaning::Text));

const BUTTON: KindMember = optional!(Button, MemberForm::Expression(MemberMeaning::Flag));

const CONTAINER: KindMember = optional!(Container, MemberForm::Expression(MemberMeaning::Flag));

const EXCLUDING: KindMember = optional!(Excluding, MemberForm::Expression(MemberMeaning::Flag));

const DELEGATE: KindMember = required!(Delegate, MemberForm::Expression(MemberMeaning::Text));

const AXIS: KindMember = optional!(Axis, MemberForm::Word(WordList::Axis));

const SLIVER_CHILDREN: KindMember = optional!(Children, MemberForm::Children(ChildSort::Sliver));

const SLIVER_CHILD: KindMember = optional!(Child, MemberForm::Child(ChildSort::Sliver));

const EXTENT: KindMember = required!(Extent, MemberForm::Expression(MemberMeaning::Extent));

const KEEP: KindMember = optional!(Keep, MemberForm::Expression(MemberMeaning::Flag));

const SPACING: KindMember = optional!(Spacing, MemberForm::Expression(MemberMeaning::Length));

const RUN_SPACING: KindMember = optional!(
    RunSpacing,
    MemberForm::Expression(MemberMeaning::Length)
);

const WIDTHS: KindMember = required!(Widths, MemberForm::Expression(MemberMeaning::Widths));

const NAME: KindMember = required!(Name, MemberForm::Name);

const VALUE: KindMember = required!(Value, MemberForm::Expression(MemberMeaning::Any));

const INHERIT_CHILD: KindMember = required!(Child, MemberForm::Child(ChildSort::Any));

const PROPS: KindMember = optional!(Props, MemberForm::Props);

const SLOTS: KindMember = optional!(Slots, MemberForm::Slots);

const COND: KindMember = required!(Cond, MemberForm::Expression(MemberMeaning::Flag));

const THEN: KindMember = required!(Then, MemberForm::Child(ChildSort::Any));

const ELSE: KindMember = optional!(Else, MemberForm::Child(ChildSort::Any));

const VAR: KindMember = required!(Var, MemberForm::Name);

const IN: KindMember = required!(In, MemberForm::Expression(MemberMeaning::List));

const BODY: KindMember = required!(Body, MemberForm::Child(ChildSort::Any));

static SIZED_BOX_MEMBERS: [KindMember; 3] = [WIDTH, HEIGHT, CHILD];

static CONSTRAINED_BOX_MEMBERS: [KindMember; 5] = [
    MIN_WIDTH, MAX_WIDTH, MIN_HEIGHT, MAX_HEIGHT, CHILD,
];

static PADDING_MEMBERS: [KindMember; 5] = [LEFT, TOP, RIGHT, BOTTOM, CHILD];

static ALIGN_MEMBERS: [KindMember; 3] = [AX, AY, CHILD];

static COLORED_BOX_MEMBERS: [KindMember; 2] = [COLOR, CHILD];

static TEXT_MEMBERS: [KindMember; 2] = [TEXT, COLOR];

static FLEX_MEMBERS: [KindMember; 4] = [MAIN, CROSS, SIZE, CHILDREN];

static STACK_MEMBERS: [KindMember; 4] = [AX, AY, FIT, CHILDREN];

static FLEXIBLE_MEMBERS: [KindMember; 3] = [FLEX, FLEX_FIT, REQUIRED_CHILD];

static POSITIONED_MEMBERS: [KindMember; 7] = [
    POSITIONED_LEFT,
    POSITIONED_TOP,
    POSITIONED_RIGHT,
    POSITIONED_BOTTOM,
    WIDTH,
    HEIGHT,
    REQUIRED_CHILD,
];

static OPACITY_MEMBERS: [KindMember; 2] = [ALPHA, CHILD];

static ONE_CHILD: [KindMember; 1] = [CHILD];

static OFFSTAGE_MEMBERS: [KindMember; 2] = [OFFSTAGE, CHILD];

static IGNORE_POINTER_MEMBERS: [KindMember; 2] = [IGNORING, CHILD];

static ABSORB_POINTER_MEMBERS: [KindMember; 2] = [ABSORBING, CHILD];

static DETECTOR_MEMBERS: [KindMember; 7] = [BEHAVIOR, TAP, LONG, VERTICAL, HORIZONTAL, PAN, CHILD];

static SEMANTICS_MEMBERS: [KindMember; 4] = [LABEL, BUTTON, CONTAINER, CHILD];

static EXCLUDE_SEMANTICS_MEMBERS: [KindMember; 2] = [EXCLUDING, CHILD];

static DELEGATE_MEMBERS: [KindMember; 2] = [DELEGATE, CHILD];

static VIEWPORT_MEMBERS: [KindMember; 2] = [AXIS, SLIVER_CHILDREN];

static SLIVER_PADDING_MEMBERS: [KindMember; 5] = [LEFT, TOP, RIGHT, BOTTOM, SLIVER_CHILD];

static EXTENT_MEMBERS: [KindMember; 2] = [EXTENT, CHILDREN];

static KEEP_MEMBERS: [KindMember; 2] = [KEEP, REQUIRED_CHILD];

static WRAP_MEMBERS: [KindMember; 3] = [SPACING, RUN_SPACING, CHILDREN];

static TABLE_MEMBERS: [KindMember; 2] = [WIDTHS, CHILDREN];

static INHERIT_MEMBERS: [KindMember; 3] = [NAME, VALUE, INHERIT_CHILD];

static USE_MEMBERS: [KindMember; 3] = [NAME, PROPS, SLOTS];

static SLOT_MEMBERS: [KindMember; 1] = [NAME];

static IF_MEMBERS: [KindMember; 3] = [COND, THEN, ELSE];

static EACH_MEMBERS: [KindMember; 3] = [VAR, IN, BODY];

// Every kind.
static KINDS: [KindName; 38] = [
    KindName::SizedBox,
    KindName::ConstrainedBox,
    KindName::Padding,
    KindName::Align,
    KindName::ColoredBox,
    KindName::Text,
    KindName::Row,
    KindName::Column,
    KindName::Stack,
    KindName::Flexible,
    KindName::Positioned,
    KindName::Opacity,
    KindName::ClipRect,
    KindName::RepaintBoundary,
    KindName::MergeSemantics,
    KindName::IntrinsicWidth,
    KindName::IntrinsicHeight,
    KindName::Offstage,
    KindName::IgnorePointer,
    KindName::AbsorbPointer,
    KindName::Detector,
    KindName::Semantics,
    KindName::ExcludeSemantics,
    KindName::CustomPaint,
    KindName::CustomLayout,
    KindName::Viewport,
    KindName::SliverToBox,
    KindName::SliverPadding,
    KindName::SliverFixed,
    KindName::SliverLazy,
    KindName::Keep,
    KindName::Wrap,
    KindName::Table,
    KindName::Inherit,
    KindName::Use,
    KindName::Slot,
    KindName::If,
    KindName::Each,
];

// Every kind, in the table's order.
#[tactic(auto, unfolding(crate::specs::Kinds::kinds))]
fn kinds() -> &'static [KindName]
    ensures { result.now ≡ kinds }
{
    &KINDS
}

impl KindName {
    /// The word by which a template names the kind.
    #[tactic(auto, unfolding(crate::specs::Kinds::kind_text))]
    pub fn text(self) -> &'static str
        ensures { result.now ≡ kind_text self }
    {
        match self {
            KindName::SizedBox => "SizedBox",
            KindName::ConstrainedBox => "ConstrainedBox",
            KindName::Padding => "Padding",
            KindName::Align => "Align",
            KindName::ColoredBox => "ColoredBox",
            KindName::Text => "Text",
            KindName::Row => "Row",
            KindName::Column => "Column",
            KindName::Stack => "Stack",
            KindName::Flexible => "Flexible",
            KindName::Positioned => "Positioned",
            KindName::Opacity => "Opacity",
            KindName::ClipRect => "ClipRect",
            KindName::RepaintBoundary => "RepaintBoundary",
            KindName::MergeSemantics => "MergeSemantics",
            KindName::IntrinsicWidth => "IntrinsicWidth",
            KindName::IntrinsicHeight => "IntrinsicHeight",
            KindName::Offstage => "Offstage",
            KindName::IgnorePointer => "IgnorePointer",
            KindName::AbsorbPointer => "AbsorbPointer",
            KindName::Detector => "Detector",
            KindName::Semantics => "Semantics",
            KindName::ExcludeSemantics => "ExcludeSemantics",
            KindName::CustomPaint => "CustomPaint",
            KindName::CustomLayout => "CustomLayout",
            KindName::Viewport => "Viewport",
            KindName::SliverToBox => "SliverToBox",
            KindName::SliverPadding => "SliverPadding",
            KindName::SliverFixed => "SliverFixed",
            KindName::SliverLazy => "SliverLazy",
            KindName::Keep => "Keep",
            KindName::Wrap => "Wrap",
            KindName::Table => "Table",
            KindName::Inherit => "Inherit",
            KindName::Use => "use",
            KindName::Slot => "slot",
            KindName::If => "if",
            KindName::Each => "each",
        }
    }

    /// The version of programs from which on the kind is there.
    pub fn since(self) -> u8
        ensures { result ≡ since self }
    {
        match self {
            KindName::SizedBox
            | KindName::ConstrainedBox
            | KindName::Padding
            | KindName::Align
            | KindName::ColoredBox
            | KindName::Text
            | KindName::Row
            | KindName::Column
            | KindName::Stack
            | KindName::Flexible
            | KindName::Positioned
            | KindName::Opacity
            | KindName::ClipRect
            | KindName::RepaintBoundary
            | KindName::MergeSemantics
            | KindName::IntrinsicWidth
            | KindName::IntrinsicHeight
            | KindName::Offstage
            | KindName::IgnorePointer
            | KindName::AbsorbPointer
            | KindName::Detector
            | KindName::Semantics
            | KindName::ExcludeSemantics
            | KindName::CustomPaint
            | KindName::CustomLayout
            | KindName::Viewport
            | KindName::SliverToBox
            | KindName::SliverPadding
            | KindName::SliverFixed
            | KindName::Inherit
            | KindName::Use
            | KindName::Slot
            | KindName::If
            | KindName::Each => 1,
            KindName::SliverLazy | KindName::Keep => 2,
            KindName::Wrap | KindName::Table => 3,
        }
    }

    /// The kind that a word names in a program of the version, if there is one.
    pub fn named(version: u8, word: &str) -> Option<KindName>
        ensures { result ≡ kind_named version word.now }
    {
        kinds()
            .iter()
            .copied()
            .find(|kind| kind.since() <= version && kind.text() == word)
    }

    /// Whether a template of the kind may have a key: each may that makes a widget.
    pub fn has_key(self) -> bool
        ensures { result ≡ has_key self }
    {
        match self {
            KindName::Slot | KindName::If | KindName::Each => false,
            _ => true,
        }
    }

    /// The members of the kind, in their order.
    #[tactic(auto, unfolding(crate::specs::Kinds::members_of))]
    pub fn members(self) -> &'static [KindMember]
        ensures { result.now ≡ members_of self }
    {
        match self {
            KindName::SizedBox => &SIZED_BOX_MEMBERS,
            KindName::ConstrainedBox => &CONSTRAINED_BOX_MEMBERS,
            KindName::Padding => &PADDING_MEMBERS,
            KindName::Align => &ALIGN_MEMBERS,
            KindName::ColoredBox => &COLORED_BOX_MEMBERS,
            KindName::Text => &TEXT_MEMBERS,
            KindName::Row => &FLEX_MEMBERS,
            KindName::Column => &FLEX_MEMBERS,
            KindName::Stack => &STACK_MEMBERS,
            KindName::Flexible => &FLEXIBLE_MEMBERS,
            KindName::Positioned => &POSITIONED_MEMBERS,
            KindName::Opacity => &OPACITY_MEMBERS,
            KindName::ClipRect => &ONE_CHILD,
            KindName::RepaintBoundary => &ONE_CHILD,
            KindName::MergeSemantics => &ONE_CHILD,
            KindName::IntrinsicWidth => &ONE_CHILD,
            KindName::IntrinsicHeight => &ONE_CHILD,
            KindName::Offstage => &OFFSTAGE_MEMBERS,
            KindName::IgnorePointer => &IGNORE_POINTER_MEMBERS,
            KindName::AbsorbPointer => &ABSORB_POINTER_MEMBERS,
            KindName::Detector => &DETECTOR_MEMBERS,
            KindName::Semantics => &SEMANTICS_MEMBERS,
            KindName::ExcludeSemantics => &EXCLUDE_SEMANTICS_MEMBERS,
            KindName::CustomPaint => &DELEGATE_MEMBERS,
            KindName::CustomLayout => &DELEGATE_MEMBERS,
            KindName::Viewport => &VIEWPORT_MEMBERS,
            KindName::SliverToBox => &ONE_CHILD,
            KindName::SliverPadding => &SLIVER_PADDING_MEMBERS,
            KindName::SliverFixed => &EXTENT_MEMBERS,
            KindName::SliverLazy => &EXTENT_MEMBERS,
            KindName::Keep => &KEEP_MEMBERS,
            KindName::Wrap => &WRAP_MEMBERS,
            KindName::Table => &TABLE_MEMBERS,
            KindName::Inherit => &INHERIT_MEMBERS,
            KindName::Use => &USE_MEMBERS,
            KindName::Slot => &SLOT_MEMBERS,
            KindName::If => &IF_MEMBERS,
            KindName::Each => &EACH_MEMBERS,
        }
    }
}

impl MemberName {
    /// The name as a program writes it.
    #[tactic(auto, unfolding(crate::specs::Kinds::member_text))]
    pub fn text(self) -> &'static str
        ensures { result.now ≡ member_text self }
    {
        match self {
            MemberName::Width => "width",
            MemberName::Height => "height",
            MemberName::Child => "child",
            MemberName::MinWidth => "minWidth",
            MemberName::MaxWidth => "maxWidth",
            MemberName::MinHeight => "minHeight",
            MemberName::MaxHeight => "maxHeight",
            MemberName::Left => "left",
            MemberName::Top => "top",
            MemberName::Right => "right",
            MemberName::Bottom => "bottom",
            MemberName::Ax => "ax",
            MemberName::Ay => "ay",
            MemberName::Color => "color",
            MemberName::Text => "text",
            MemberName::Main => "main",
            MemberName::Cross => "cross",
            MemberName::Size => "size",
            MemberName::Children => "children",
            MemberName::Fit => "fit",
            MemberName::Flex => "flex",
            MemberName::Alpha => "alpha",
            MemberName::Offstage => "offstage",
            MemberName::Ignoring => "ignoring",
            MemberName::Absorbing => "absorbing",
            MemberName::Behavior => "behavior",
            MemberName::Tap => "tap",
            MemberName::Long => "long",
            MemberName::Vertical => "vertical",
            MemberName::Horizontal => "horizontal",
            MemberName::Pan => "pan",
            MemberName::Label => "label",
            MemberName::Button => "button",
            MemberName::Container => "container",
            MemberName::Excluding => "excluding",
            MemberName::Delegate => "delegate",
            MemberName::Axis => "axis",
            MemberName::Extent => "extent",
            MemberName::Keep => "keep",
            MemberName::Spacing => "spacing",
            MemberName::RunSpacing => "runSpacing",
            MemberName::Widths => "widths",
            MemberName::Name => "name",
            MemberName::Value => "value",
            MemberName::Props => "props",
            MemberName::Slots => "slots",
            MemberName::Cond => "cond",
            MemberName::Then => "then",
            MemberName::Else => "else",
            MemberName::Var => "var",
            MemberName::In => "in",
            MemberName::Body => "body",
        }
    }
}
