// What a line asks for, by its words: one row for each form of a line.
ghost use Rattle.std.specs.Prelude.{◌≡◌, IfOk, IfSome, option_map};
ghost use Rattle.script_lines.specs.Numbers.{node_in};
ghost use Rattle.script_lines.specs.Answers.{Gives};
ghost use Rattle.script_lines.specs.Table.{if_right, at_form, up_form, cancel_form, resize_form, scroll_form, hit_form, action_named, act_by, down_form, move_form, delegate_form, set_form, one_word, two_words, three_words, four_words, by_count, root_line, set_line};
ghost use Rattle.script_lines.specs.Ranges.{IsInRange};
ghost use Rattle.script_lines.specs.Words.{rest_of, words_after, text_after};

use super::command::{Action, Command};
use super::fault::LineFault;
use super::numbers::{coordinate, distance, node, pointer, side, time};
use super::words::cut;
use fx_expr::Txt;
use std::alloc::{AllocError, Global};

/// A text of its own.
pub(crate) fn owned(alloc: Global, text: &str) -> Result<Txt, AllocError>
    ensures { IfOk result (λ t. t ≡ text.now) }
{
    Ok(Txt::of(String::from_str(alloc, text)?))
}

fn at(t: &str) -> Option<Command>
    ensures value { result ≡ at_form t.now }
    ensures range { IfSome result IsInRange }
{
    Some(Command::At { t: time(t)? })
}

fn up(word: &str) -> Option<Command>
    ensures value { result ≡ up_form word.now }
    ensures range { IfSome result IsInRange }
{
    Some(Command::Up {
        pointer: pointer(word)?,
    })
}

fn cancel(word: &str) -> Option<Command>
    ensures value { result ≡ cancel_form word.now }
    ensures range { IfSome result IsInRange }
{
    Some(Command::Cancel {
        pointer: pointer(word)?,
    })
}

fn resize(w: &str, h: &str) -> Option<Command>
    ensures value { result ≡ resize_form w.now h.now }
    ensures range { IfSome result IsInRange }
{
    Some(Command::Resize {
        w: side(w)?,
        h: side(h)?,
    })
}

fn scroll(word: &str, by: &str) -> Option<Command>
    ensures value { result ≡ scroll_form word.now by.now }
    ensures range { IfSome result IsInRange }
{
    Some(Command::Scroll {
        node: node(word)?,
        by: distance(by)?,
    })
}

fn hit(x: &str, y: &str) -> Option<Command>
    ensures value { result ≡ hit_form x.now y.now }
    ensures range { IfSome result IsInRange }
{
    Some(Command::Hit {
        x: coordinate(x)?,
        y: coordinate(y)?,
    })
}

fn action(word: &str) -> Option<Action>
    ensures { result ≡ action_named word.now }
{
    match word {
        "tap" => Some(Action::Tap),
        "long" => Some(Action::Long),
        _ => None,
    }
}

fn act(word: &str, action: Action) -> Option<Command>
    ensures value { result ≡ option_map (λ n. Command.Act n action) (node_in word.now) }
    ensures range { IfSome result IsInRange }
{
    Some(Command::Act {
        node: node(word)?,
        action,
    })
}

fn down(word: &str, x: &str, y: &str) -> Option<Command>
    ensures value { result ≡ down_form word.now x.now y.now }
    ensures range { IfSome result IsInRange }
{
    Some(Command::Down {
        pointer: pointer(word)?,
        x: coordinate(x)?,
        y: coordinate(y)?,
    })
}

fn moved(word: &str, x: &str, y: &str) -> Option<Command>
    ensures value { result ≡ move_form word.now x.now y.now }
    ensures range { IfSome result IsInRange }
{
    Some(Command::Move {
        pointer: pointer(word)?,
        x: coordinate(x)?,
        y: coordinate(y)?,
    })
}

fn delegate(alloc: Global, name: &str, field: &str, n: &str) -> Result<Command, LineFault>
    ensures value { Gives result (if_right (delegate_form name.now field.now n.now)) }
    ensures range { IfOk result IsInRange }
{
    let Some(n) = distance(n) else {
        return Err(LineFault::BadNumber);
    };
    Ok(Command::Delegate {
        name: owned(alloc, name)?,
        field: owned(alloc, field)?,
        n,
    })
}

fn set(alloc: Global, word: &str, field: &str, value: &str) -> Result<Command, LineFault>
    ensures value { Gives result (if_right (set_form word.now field.now value.now)) }
    ensures range { IfOk result IsInRange }
{
    let Some(node) = node(word) else {
        return Err(LineFault::BadNumber);
    };
    Ok(Command::Set {
        node,
        field: owned(alloc, field)?,
        value: owned(alloc, value)?,
    })
}

// What a line of a known form asks for, where its numbers are right.
fn if_right(command: Option<Command>) -> Result<Command, LineFault>
    requires { IfSome command IsInRange }
    ensures value { Gives result (if_right command) }
    ensures range { IfOk result IsInRange }
{
    match command {
        Some(command) => Ok(command),
        None => Err(LineFault::BadNumber),
    }
}

#[tactic(auto, unfolding(crate::specs::Table::one_word))]
fn one_word(word: &str) -> Result<Command, LineFault>
    ensures value { Gives result (one_word word.now) }
    ensures range { IfOk result IsInRange }
{
    match word {
        "frame" => Ok(Command::Frame),
        "semantics" => Ok(Command::Semantics),
        "states" => Ok(Command::States),
        _ => Err(LineFault::UnknownLine),
    }
}

#[tactic(auto, unfolding(crate::specs::Table::two_words))]
fn two_words(alloc: Global, word: &str, a: &str) -> Result<Command, LineFault>
    ensures value { Gives result (two_words word.now a.now) }
    ensures range { IfOk result IsInRange }
{
    match word {
        "at" => if_right(at(a)),
        "up" => if_right(up(a)),
        "cancel" => if_right(cancel(a)),
        "unplug" => Ok(Command::Unplug {
            name: owned(alloc, a)?,
        }),
        _ => Err(LineFault::UnknownLine),
    }
}

#[tactic(auto, unfolding(crate::specs::Table::three_words))]
fn three_words(word: &str, a: &str, b: &str) -> Result<Command, LineFault>
    ensures value { Gives result (three_words word.now a.now b.now) }
    ensures range { IfOk result IsInRange }
{
    match word {
        "resize" => if_right(resize(a, b)),
        "scroll" => if_right(scroll(a, b)),
        "hit" => if_right(hit(a, b)),
        "act" => match action(b) {
            Some(action) => if_right(act(a, action)),
            None => Err(LineFault::UnknownLine),
        },
        _ => Err(LineFault::UnknownLine),
    }
}

#[tactic(auto, unfolding(crate::specs::Table::four_words))]
fn four_words(alloc: Global, word: &str, a: &str, b: &str, c: &str) -> Result<Command, LineFault>
    ensures value { Gives result (four_words word.now a.now b.now c.now) }
    ensures range { IfOk result IsInRange }
{
    match word {
        "down" => if_right(down(a, b, c)),
        "move" => if_right(moved(a, b, c)),
        "delegate" => delegate(alloc, a, b, c),
        _ => Err(LineFault::UnknownLine),
    }
}

/// A line by its first word and what stands after it.
pub(crate) fn by_count(alloc: Global, word: &str, rest: Option<&str>) -> Result<Command, LineFault>
    ensures value { Gives result (by_count word.now (words_after (option_map (λ s. s.now) rest.entry))) }
    ensures range { IfOk result IsInRange }
{
    let Some(rest) = rest else {
        return one_word(word);
    };
    let (a, rest) = cut(rest);
    let Some(rest) = rest else {
        return two_words(alloc, word, a);
    };
    let (b, rest) = cut(rest);
    let Some(rest) = rest else {
        return three_words(word, a, b);
    };
    let (c, rest) = cut(rest);
    match rest {
        Some(_) => Err(LineFault::UnknownLine),
        None => four_words(alloc, word, a, b, c),
    }
}

/// A line `root`.
pub(crate) fn root_line(alloc: Global, rest: Option<&str>) -> Result<Command, LineFault>
    ensures value { let seen = option_map (λ s. s.now) rest.entry in Gives result (root_line (words_after seen) (text_after seen)) }
    ensures range { IfOk result IsInRange }
{
    let Some(json) = rest else {
        return Err(LineFault::UnknownLine);
    };
    Ok(Command::Root {
        json: owned(alloc, json)?,
    })
}

/// A line `set`, by what stands after its first word.
pub(crate) fn set_line(alloc: Global, rest: Option<&str>) -> Result<Command, LineFault>
    ensures value { let seen = option_map (λ s. s.now) rest.entry in Gives result (set_line (words_after seen) (rest_of (rest_of (text_after seen)))) }
    ensures range { IfOk result IsInRange }
{
    let Some(rest) = rest else {
        return Err(LineFault::UnknownLine);
    };
    let (node, rest) = cut(rest);
    let Some(rest) = rest else {
        return Err(LineFault::UnknownLine);
    };
    let (field, rest) = cut(rest);
    let Some(value) = rest else {
        return Err(LineFault::UnknownLine);
    };
    set(alloc, node, field, value)
}
