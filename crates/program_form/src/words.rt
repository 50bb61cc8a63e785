// The words that members of a template are.
ghost use Rattle.std.specs.Prelude.{◌≡◌};
ghost use Rattle.program_form.specs.Words.{word_text, words_of, word_named};

use fx_geom::{Axis, CrossAlign, MainAlign, StackFit};
use widget_model::{Behavior, FlexFit, MainSize};

/// The lists of words that a member may be one of.
#[derive(Clone, Copy)]
pub enum WordList {
    Main,
    Cross,
    Size,
    StackFit,
    FlexFit,
    Behavior,
    Axis,
}

/// A word of one of the lists.
#[derive(Clone, Copy)]
pub enum Word {
    Main(MainAlign),
    Cross(CrossAlign),
    Size(MainSize),
    StackFit(StackFit),
    FlexFit(FlexFit),
    Behavior(Behavior),
    Axis(Axis),
}

static MAIN_WORDS: [Word; 6] = [
    Word::Main(MainAlign::Start),
    Word::Main(MainAlign::End),
    Word::Main(MainAlign::Center),
    Word::Main(MainAlign::Between),
    Word::Main(MainAlign::Around),
    Word::Main(MainAlign::Evenly),
];

static CROSS_WORDS: [Word; 4] = [
    Word::Cross(CrossAlign::Center),
    Word::Cross(CrossAlign::Start),
    Word::Cross(CrossAlign::End),
    Word::Cross(CrossAlign::Stretch),
];

static SIZE_WORDS: [Word; 2] = [Word::Size(MainSize::Max), Word::Size(MainSize::Min)];

static STACK_FIT_WORDS: [Word; 3] = [
    Word::StackFit(StackFit::Loose),
    Word::StackFit(StackFit::Expand),
    Word::StackFit(StackFit::Passthrough),
];

static FLEX_FIT_WORDS: [Word; 2] = [Word::FlexFit(FlexFit::Loose), Word::FlexFit(FlexFit::Tight)];

static BEHAVIOR_WORDS: [Word; 3] = [
    Word::Behavior(Behavior::Defer),
    Word::Behavior(Behavior::Opaque),
    Word::Behavior(Behavior::Translucent),
];

static AXIS_WORDS: [Word; 2] = [Word::Axis(Axis::Vertical), Word::Axis(Axis::Horizontal)];

impl Word {
    /// The word as a program writes it.
    pub fn text(self) -> &'static str
        ensures { result.now ≡ word_text self }
    {
        match self {
            Word::Main(MainAlign::Start) => "start",
            Word::Main(MainAlign::End) => "end",
            Word::Main(MainAlign::Center) => "center",
            Word::Main(MainAlign::Between) => "between",
            Word::Main(MainAlign::Around) => "around",
            Word::Main(MainAlign::Evenly) => "evenly",
            Word::Cross(CrossAlign::Center) => "center",
            Word::Cross(CrossAlign::Start) => "start",
            Word::Cross(CrossAlign::End) => "end",
            Word::Cross(CrossAlign::Stretch) => "stretch",
            Word::Size(MainSize::Max) => "max",
            Word::Size(MainSize::Min) => "min",
            Word::StackFit(StackFit::Loose) => "loose",
            Word::StackFit(StackFit::Expand) => "expand",
            Word::StackFit(StackFit::Passthrough) => "passthrough",
            Word::FlexFit(FlexFit::Loose) => "loose",
            Word::FlexFit(FlexFit::Tight) => "tight",
            Word::Behavior(Behavior::Defer) => "defer",
            Word::Behavior(Behavior::Opaque) => "opaque",
            Word::Behavior(Behavior::Translucent) => "translucent",
            Word::Axis(Axis::Vertical) => "vertical",
            Word::Axis(Axis::Horizontal) => "horizontal",
        }
    }
}

impl WordList {
    /// The words of the list.
    #[tactic(auto, unfolding(crate::specs::Words::words_of))]
    pub fn words(self) -> &'static [Word]
        ensures { result.now ≡ words_of self }
    {
        match self {
            WordList::Main => &MAIN_WORDS,
            WordList::Cross => &CROSS_WORDS,
            WordList::Size => &SIZE_WORDS,
            WordList::StackFit => &STACK_FIT_WORDS,
            WordList::FlexFit => &FLEX_FIT_WORDS,
            WordList::Behavior => &BEHAVIOR_WORDS,
            WordList::Axis => &AXIS_WORDS,
        }
    }

    /// The word of the list that is written so, if there is one.
    pub fn named(self, text: &str) -> Option<Word>
        ensures { result ≡ word_named self text.now }
    {
        self.words()
            .iter()
            .copied()
            .find(|word| word.text() == text)
    }
}
