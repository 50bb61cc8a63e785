// The reading of handlers.
ghost use Rattle.std.specs.Prelude.{◌≡◌, map};
ghost use Rattle.json_tree.specs.View.{view};
ghost use Rattle.program_read.specs.Answers.{Answers};
ghost use Rattle.program_read.specs.HandlerWalk.{set_of, handler_of};
ghost use Rattle.program_form.specs.Handler.{PlainSet};
ghost use Rattle.program_form.specs.HandlerView.{plain_set, plain_handler};

use crate::fault::ReadStop;
use crate::forms::form_entry;
use crate::leaves::{expect_word_entry, read_triple};
use crate::lists::{EntryReader, read_list};
use crate::names::name_entry;
use json_tree::Json;
use program_form::{HandlerForm, SetForm};
use std::alloc::Global;

// Reads sets.
struct SetReader;

impl EntryReader for SetReader {
    type Entry = SetForm;

    ghost Plain = { PlainSet };

    ghost plain = { plain_set };

    ghost walk = { λ _. set_of };

    #[tactic(auto, unfolding(crate::specs::HandlerWalk::set_of))]
    fn read(&self, alloc: Global, value: &mut Json<'_>) -> Result<SetForm, ReadStop> {
        let (word, name, value) = read_triple(alloc, value)?;
        expect_word_entry(alloc, word, "set", 0)?;
        let name = name_entry(alloc, name, 1)?;
        let value = form_entry(alloc, value, 2)?;
        Ok(SetForm { name, value })
    }
}

// The handler that a value is.
#[tactic(auto, unfolding(crate::specs::HandlerWalk::handler_of))]
pub(crate) fn read_handler(alloc: Global, value: Json<'_>) -> Result<HandlerForm, ReadStop>
    ensures { Answers plain_handler result (handler_of (view value.entry)) }
{
    let sets = read_list(alloc, &SetReader, value)?;
    Ok(HandlerForm { sets })
}
