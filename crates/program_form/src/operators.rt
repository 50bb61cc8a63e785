// The operators of expressions, and the words by which a list names a value in scope.
ghost use Rattle.std.specs.Prelude.{◌≡◌};
ghost use Rattle.std.specs.List.{find};
ghost use Rattle.std.specs.Str.{bytes_eq};
ghost use Rattle.program_form.specs.Operators.{word_of, operands_of, takes, operator_named, naming_named, head_named};

/// An operator of expressions whose operands are expressions.
#[derive(Clone, Copy)]
pub enum Operator {
    /// `ints`: a list of numbers.
    Ints,
    /// `texts`: a list of texts.
    Texts,
    /// `+`.
    Add,
    /// `-`.
    Sub,
    /// `*`.
    Mul,
    /// `div`.
    Div,
    /// `mod`.
    Mod,
    /// `=`.
    Equal,
    /// `<`.
    Less,
    /// `and`.
    And,
    /// `or`.
    Or,
    /// `not`.
    Not,
    /// `if`.
    If,
    /// `cat`.
    Cat,
    /// `len`.
    Len,
    /// `at`.
    At,
    /// `push`.
    Push,
    /// `drop`.
    Drop,
    /// `reverse`.
    Reverse,
    /// `range`.
    Range,
    /// `show`.
    Show,
}

// Every operator.
const OPERATORS: [Operator; 21] = [
    Operator::Ints,
    Operator::Texts,
    Operator::Add,
    Operator::Sub,
    Operator::Mul,
    Operator::Div,
    Operator::Mod,
    Operator::Equal,
    Operator::Less,
    Operator::And,
    Operator::Or,
    Operator::Not,
    Operator::If,
    Operator::Cat,
    Operator::Len,
    Operator::At,
    Operator::Push,
    Operator::Drop,
    Operator::Reverse,
    Operator::Range,
    Operator::Show,
];

impl Operator {
    /// The word that is written for it.
    pub fn word(self) -> &'static str
        ensures { result.now ≡ word_of self }
    {
        match self {
            Operator::Ints => "ints",
            Operator::Texts => "texts",
            Operator::Add => "+",
            Operator::Sub => "-",
            Operator::Mul => "*",
            Operator::Div => "div",
            Operator::Mod => "mod",
            Operator::Equal => "=",
            Operator::Less => "<",
            Operator::And => "and",
            Operator::Or => "or",
            Operator::Not => "not",
            Operator::If => "if",
            Operator::Cat => "cat",
            Operator::Len => "len",
            Operator::At => "at",
            Operator::Push => "push",
            Operator::Drop => "drop",
            Operator::Reverse => "reverse",
            Operator::Range => "range",
            Operator::Show => "show",
        }
    }

    /// How many operands it has; `None` where it may have any number of them.
    pub fn operands(self) -> Option<usize>
        ensures { result ≡ operands_of self }
    {
        match self {
            Operator::Ints | Operator::Texts => None,
            Operator::Not | Operator::Len | Operator::Reverse | Operator::Range | Operator::Show =>
                Some(1),
            Operator::If | Operator::At => Some(3),
            _ => Some(2),
        }
    }

    /// Whether it may have this many operands.
    pub fn takes(self, count: usize) -> bool
        ensures { result ≡ takes self count }
    {
        match self.operands() {
            Some(operands) => count == operands,
            None => true,
        }
    }

    /// The operator that a word stands for, if there is one.
    #[tactic(auto, unfolding(crate::specs::Operators::operator_named))]
    pub fn named(word: &str) -> Option<Operator>
        ensures { result ≡ operator_named word.now }
    {
        OPERATORS
            .iter()
            .copied()
            .find(|operator| operator.word() == word)
    }
}

/// Where a name stands that an expression takes its value from.
#[derive(Clone, Copy)]
pub enum Naming {
    /// `field`: a field of the component.
    Field,
    /// `prop`: a prop of the component.
    Prop,
    /// `var`: the item of a loop.
    Var,
    /// `inherit`: an inherited value.
    Inherit,
}

impl Naming {
    /// What a word names, if it names anything.
    pub fn named(word: &str) -> Option<Naming>
        ensures { result ≡ naming_named word.now }
    {
        if word == "field" {
            return Some(Naming::Field);
        }
        if word == "prop" {
            return Some(Naming::Prop);
        }
        if word == "var" {
            return Some(Naming::Var);
        }
        if word == "inherit" {
            return Some(Naming::Inherit);
        }
        None
    }
}

/// What the first entry of a list says that the list is.
#[derive(Clone, Copy)]
pub enum Head {
    /// A value in scope, by its name.
    Name(Naming),
    /// A movement of a gesture.
    Event,
    /// An operator with its operands.
    Operation(Operator),
}

impl Head {
    /// What a word says, if it says anything.
    pub fn named(word: &str) -> Option<Head>
        ensures { result ≡ head_named word.now }
    {
        if let Some(naming) = Naming::named(word) {
            return Some(Head::Name(naming));
        }
        if word == "event" {
            return Some(Head::Event);
        }
        let operator = Operator::named(word)?;
        Some(Head::Operation(operator))
    }
}
