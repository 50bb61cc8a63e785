// The reading of the words that members of a template are.
ghost use Rattle.json_tree.specs.View.{view};
ghost use Rattle.program_read.specs.Answers.{Gives};
ghost use Rattle.program_read.specs.WordWalk.{word_of};

use crate::fault::{ReadStop, ShapeCode};
use crate::leaves::read_str;
use json_tree::Json;
use program_form::{Word, WordList};
use std::alloc::Global;

// The word of the list that a value is.
pub(crate) fn read_word(alloc: Global, list: WordList, value: &Json<'_>) -> Result<Word, ReadStop>
    ensures { Gives result (word_of list (view value.now)) }
{
    let text = read_str(alloc, value)?;
    match list.named(text) {
        Some(word) => Ok(word),
        None => Err(ReadStop::here(alloc, ShapeCode::WrongKind)),
    }
}
