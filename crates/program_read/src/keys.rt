// The reading of keys of templates.
ghost use Rattle.std.specs.Prelude.{◌≡◌};
ghost use Rattle.json_tree.specs.View.{view};
ghost use Rattle.program_read.specs.Answers.{Answers, Gives};
ghost use Rattle.program_read.specs.KeyWalk.{reach_named, reach_of, key_of};
ghost use Rattle.program_form.specs.KeyView.{plain_key};

use crate::fault::{ReadStop, ShapeCode, at_entry};
use crate::forms::form_entry;
use crate::leaves::{read_pair, read_str};
use json_tree::Json;
use program_form::KeyForm;
use std::alloc::Global;

// How far a key reaches.
#[derive(Clone, Copy)]
enum Reach {
    Local,
    Global,
}

// The reach that a word names.
fn reach_named(word: &str) -> Option<Reach>
    ensures { result ≡ reach_named word.now }
{
    if word == "local" {
        return Some(Reach::Local);
    }
    if word == "global" {
        return Some(Reach::Global);
    }
    None
}

// The reach that a value names.
fn read_reach(alloc: Global, value: &Json<'_>) -> Result<Reach, ReadStop>
    ensures { Gives result (reach_of (view value.now)) }
{
    let word = read_str(alloc, value)?;
    match reach_named(word) {
        Some(reach) => Ok(reach),
        None => Err(ReadStop::here(alloc, ShapeCode::WrongKind)),
    }
}

// The key that a value is.
#[tactic(auto, unfolding(crate::specs::KeyWalk::key_of))]
pub(crate) fn read_key(alloc: Global, value: &Json<'_>) -> Result<KeyForm, ReadStop>
    ensures { Answers plain_key result (key_of (view value.now)) }
{
    let (word, value) = read_pair(alloc, value)?;
    let reach = at_entry(alloc, 0, read_reach(alloc, word))?;
    let form = form_entry(alloc, value, 1)?;
    Ok(match reach {
        Reach::Local => KeyForm::Local(form),
        Reach::Global => KeyForm::Global(form),
    })
}
