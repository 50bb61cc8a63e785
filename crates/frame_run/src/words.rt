ghost use Rattle.std.specs.Prelude.{◌≡◌, IfOk, map, codes, string_bytes, option_and_then};
ghost use Rattle.clap.specs.Simple.{app_of};
ghost use Rattle.clap.specs.Matches.{found_of, first_value, one_text};
ghost use Rattle.clap.specs.Walk.{rows_of};
ghost use Rattle.frame_run.specs.Ranges.{IsInRange};
ghost use Rattle.frame_run.specs.Words.{command_line, number_in, demo_by, request_named, request_of};

use clap::builder::ValueParser;
use clap::error::ErrorKind;
use clap::{Arg, ArgAction, ArgMatches, Command};
use std::alloc::{AllocError, Global};

/// What is done with the input.
#[derive(Clone, Copy)]
pub enum Mode {
    /// `run`: the script is run.
    Run,
    /// `check`: the program is read and checked, and the script is not run.
    Check,
}

/// What the words ask for.
#[derive(Clone, Copy)]
pub enum Request {
    /// A mode that takes the source's bytes.
    Input(Mode),
    /// `demo`: the job of `run` on the input that this seed and size give.
    Demo { seed: u64, size: u64 },
}

// The command of the words.
fn command_line<'a>(alloc: Global) -> Result<Command<'a>, AllocError>
    ensures { IfOk result (λ c. app_of c ≡ command_line) }
{
    let named = Command::new(alloc, "frame_cli").no_binary_name(true);
    let mode = Arg::new(alloc, "MODE")
        .action(ArgAction::Set)
        .default_value("run");
    let with_mode = named.arg(mode)?;
    let seed = Arg::new(alloc, "seed")
        .long("seed")
        .action(ArgAction::Set)
        .value_parser(ValueParser::Unsigned(0, 4_294_967_295))
        .default_value("1");
    let with_seed = with_mode.arg(seed)?;
    let size = Arg::new(alloc, "size")
        .long("size")
        .action(ArgAction::Set)
        .value_parser(ValueParser::Unsigned(1, 4096))
        .default_value("100");
    with_seed.arg(size)
}

// The number under an id, where it is one from low to high.
fn number_in(matches: &ArgMatches<'_>, id: &str, low: u64, high: u64) -> Option<u64>
    ensures { result ≡ number_in low high (one_text (found_of matches.now) id.now) }
{
    let number = matches.get_one::<u64>(id)?;
    if low <= number && number <= high {
        Some(number)
    } else {
        None
    }
}

// Mode `demo` with the seed and the size among the matches.
fn demo_in(matches: &ArgMatches<'_>) -> Option<Request>
    ensures { result ≡ demo_by (rows_of (found_of matches.now)) }
{
    let seed = number_in(matches, "seed", 0, 4_294_967_295)?;
    let size = number_in(matches, "size", 1, 4096)?;
    Some(Request::Demo { seed, size })
}

// What a word asks for, with the options among the matches.
fn request_named(word: &str, matches: &ArgMatches<'_>) -> Option<Request>
    ensures { result ≡ request_named word.now (rows_of (found_of matches.now)) }
{
    match word {
        "run" => Some(Request::Input(Mode::Run)),
        "check" => Some(Request::Input(Mode::Check)),
        "demo" => demo_in(matches),
        _ => None,
    }
}

// What the matches ask for.
fn request_in(matches: &ArgMatches<'_>) -> Option<Request>
    ensures { result ≡ option_and_then (λ word. request_named word (rows_of (found_of matches.now))) (first_value (found_of matches.now) (codes "MODE")) }
{
    match matches.get_str("MODE") {
        Some(word) => request_named(word, matches),
        None => None,
    }
}

/// What the words after the program's name ask for; none where they are refused.
pub fn read_words(alloc: Global, words: &[String]) -> Result<Option<Request>, AllocError>
    ensures asked { IfOk result (λ request. request ≡ request_of (map string_bytes words.now)) }
    ensures ranges { IfOk result IsInRange }
{
    let command = command_line(alloc)?;
    match command.try_get_matches_from(words) {
        Ok(matches) => Ok(request_in(&matches)),
        Err(error) => match error.kind() {
            ErrorKind::OutOfMemory => Err(AllocError),
            _ => Ok(None),
        },
    }
}
