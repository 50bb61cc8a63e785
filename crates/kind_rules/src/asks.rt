// Whom a node asks.
ghost use Rattle.std.specs.Prelude.{◌≡◌, None, option_map, slice_index_or};
ghost use Rattle.kind_rules.specs.Asks.{asks_of};

use crate::few::Few;
use layout_form::Ask;

/// What the children of a node are asked, in order: the same of so many, or each as a list says.
#[derive(Drop)]
pub enum Asks {
    Alike { ask: Option<Ask>, count: usize },
    Each(Few<Option<Ask>>),
}

impl Asks {
    /// What child i is asked: nothing past the end.
    pub fn at(&self, i: usize) -> Option<&Ask>
        ensures { option_map (λ a. a.now) result ≡ slice_index_or (asks_of self.now) i None }
    {
        match self {
            Asks::Alike { ask, count } => if i < *count { ask.as_ref() } else { None },
            Asks::Each(asks) => match asks.as_slice().get(i) {
                None => None,
                Some(ask) => ask.as_ref(),
            },
        }
    }
}
