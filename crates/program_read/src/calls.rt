// The calls that read a program part, and a template alone.
ghost use Rattle.std.specs.Prelude.{◌≡◌, ℕ, List, None, Ok, Err, option_map, IfOk};
ghost use Rattle.json_tree.specs.View.{view};
ghost use Rattle.program_form.specs.ProgramView.{plain_program};
ghost use Rattle.program_read.specs.ProgramWalk.{program_of};
ghost use Rattle.program_read.specs.Reading.{json_of, read_as, not_json, bad_form};
ghost use Rattle.program_read.specs.Refusals.{refusal_of};
ghost use Rattle.program_form.specs.TemplateView.{plain_template};
ghost use Rattle.program_read.specs.TemplateWalk.{template_of};

use crate::fault::ReadStop;
use crate::parts::read_template;
use crate::reading::program_from;
use fx_expr::Txt;
use json::Scratch;
use json_tree::Json;
use program_form::{Program, Template};
use std::alloc::{AllocError, Global};
use thiserror::Error;

/// Why bytes are refused as a program or a template.
#[derive(Debug, Drop, Error)]
pub enum ReadFault {
    /// The bytes aren't JSON.
    #[error("the bytes are no JSON")]
    Json,
    /// Their form breaks a rule, first at this place: the path of member names and indices from the top, each after
    /// `/`. The code is the number of a [`ShapeCode`](crate::ShapeCode).
    #[error("the form breaks a rule")]
    Shape { code: u8, place: Txt },
    /// Want of memory.
    #[error("out of memory")]
    OutOfMemory,
}

impl From<AllocError> for ReadFault {
    ghost use Rattle.program_read.specs.declared.calls.ReadFault.TheVariants.{OutOfMemory};

    ghost from_gives = { λ _ s. s ≡ OutOfMemory };

    fn from(_error: AllocError) -> Self {
        ReadFault::OutOfMemory
    }
}

impl From<ReadStop> for ReadFault {
    ghost from_gives = { λ stop fault. fault ≡ refusal_of stop };

    fn from(stop: ReadStop) -> Self {
        match stop {
            ReadStop::Shape(fault) => ReadFault::Shape {
                code: fault.code.number(),
                place: fault.place,
            },
            ReadStop::OutOfMemory => ReadFault::OutOfMemory,
        }
    }
}

// The bytes as JSON (RFC 8259), after a test that they are UTF-8. Texts with escapes stand in `scratch`.
#[tactic(auto, unfolding(crate::specs::Reading::json_of))]
fn read_json<'a>(
    alloc: Global,
    bytes: &'a [u8],
    scratch: &'a mut Scratch,
) -> Result<Option<Json<'a>>, AllocError>
    ensures { IfOk result (λ v. option_map view v ≡ json_of bytes.now) }
{
    let Ok(text) = str::from_utf8(bytes) else {
        return Ok(None);
    };
    json_tree::read(alloc, text, scratch)
}

/// Reads a program.
///
/// `Json` comes exactly where the bytes aren't UTF-8, or aren't JSON as `serde_json` reads it, and `Shape` exactly where
/// they are JSON that breaks a rule of the form, with the first fault. Other bytes are a program, which is read as it
/// is written.
pub fn read_program(alloc: Global, bytes: &[u8]) -> Result<Program, ReadFault>
    ensures ok { IfOk result (λ p. read_as program_of bytes.now ≡ Ok (plain_program p)) }
    ensures json { result ≡ Err ReadFault.Json → read_as program_of bytes.now ≡ Err not_json }
    ensures shape { (code : ℕ) (place : List ℕ) → result ≡ Err (ReadFault.Shape code place)
        → read_as program_of bytes.now ≡ Err (bad_form code place) }
{
    let mut scratch = Scratch::new(alloc);
    let Some(value) = read_json(alloc, bytes, &mut scratch)? else {
        return Err(ReadFault::Json);
    };
    Ok(program_from(alloc, value)?)
}

/// Reads a template that stands alone, with the kinds that a program of the version has. The errors are those of
/// [`read_program`].
pub fn read_widget(alloc: Global, bytes: &[u8], version: u8) -> Result<Template, ReadFault>
    ensures ok { IfOk result (λ t. read_as (template_of version) bytes.now ≡ Ok (plain_template t)) }
    ensures json { result ≡ Err ReadFault.Json → read_as (template_of version) bytes.now ≡ Err not_json }
    ensures shape { (code : ℕ) (place : List ℕ) → result ≡ Err (ReadFault.Shape code place)
        → read_as (template_of version) bytes.now ≡ Err (bad_form code place) }
{
    let mut scratch = Scratch::new(alloc);
    let Some(value) = read_json(alloc, bytes, &mut scratch)? else {
        return Err(ReadFault::Json);
    };
    Ok(read_template(alloc, version, value)?)
}
