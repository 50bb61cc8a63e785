// What a line asks for that no command of a session is, by its words: one row for each form of a line.
ghost use Rattle.std.specs.Prelude.{◌≡◌, ◌≢◌, [], ◌∷◌, length, IfOk, IfSome, MatchOption, option_map};
ghost use Rattle.script_lines.specs.Answers.{Gives};
ghost use Rattle.script_lines.specs.EntryForms.{curve_named, tween_form, tween_line, focus_form, focus_line, alone, own_entry, entry_if_right};
ghost use Rattle.script_lines.specs.EntryReading.{HasEntryRanges};
ghost use Rattle.script_lines.specs.Words.{words_of, words_after};

use super::entry::Entry;
use super::fault::LineFault;
use super::numbers::{distance, duration, node};
use super::table::owned;
use super::words::{cut, next_word};
use fx_expr::Txt;
use std::alloc::Global;
use tickers::Curve;

// What a line of a known form asks for, where its numbers are right.
fn if_right(entry: Option<Entry>) -> Result<Entry, LineFault>
    requires { IfSome entry HasEntryRanges }
    ensures value { Gives result (entry_if_right entry) }
    ensures range { IfOk result HasEntryRanges }
{
    match entry {
        Some(entry) => Ok(entry),
        None => Err(LineFault::BadNumber),
    }
}

// The words of a line `tween` after its first one.
#[derive(Clone, Copy)]
struct TweenWords<'a> {
    node: &'a str,
    field: &'a str,
    from: &'a str,
    to: &'a str,
    ms: &'a str,
    curve: &'a str,
}

// The six words after `tween`; none where there are more or fewer.
fn tween_words(rest: Option<&str>) -> Option<TweenWords<'_>>
    ensures { let words = words_after (option_map (λ s. s.now) rest.entry) in
        MatchOption result (length words ≢ 6) (λ w. words ≡ w.node.now ∷ w.field.now ∷ w.from.now ∷ w.to.now ∷ w.ms.now ∷ w.curve.now ∷ []) }
{
    let (node, rest) = next_word(rest)?;
    let (field, rest) = next_word(rest)?;
    let (from, rest) = next_word(rest)?;
    let (to, rest) = next_word(rest)?;
    let (ms, rest) = next_word(rest)?;
    let (curve, rest) = next_word(rest)?;
    match rest {
        Some(_) => None,
        None => Some(TweenWords {
            node,
            field,
            from,
            to,
            ms,
            curve,
        }),
    }
}

fn curve(word: &str) -> Option<Curve>
    ensures { result ≡ curve_named word.now }
{
    match word {
        "linear" => Some(Curve::Linear),
        "in" => Some(Curve::EaseIn),
        "out" => Some(Curve::EaseOut),
        _ => None,
    }
}

fn tween(words: TweenWords<'_>, field: Txt, curve: Curve) -> Option<Entry>
    ensures value { result ≡ tween_form words.entry.node.now field words.entry.from.now words.entry.to.now words.entry.ms.now curve }
    ensures range { IfSome result HasEntryRanges }
{
    let node = node(words.node)?;
    let from = distance(words.from)?;
    let to = distance(words.to)?;
    let ms = duration(words.ms)?;
    Some(Entry::Tween {
        node,
        field,
        from,
        to,
        ms,
        curve,
    })
}

// A line `tween`, by what stands after its first word.
fn tween_line(alloc: Global, rest: Option<&str>) -> Result<Entry, LineFault>
    ensures value { Gives result (tween_line (words_after (option_map (λ s. s.now) rest.entry))) }
    ensures range { IfOk result HasEntryRanges }
{
    let Some(words) = tween_words(rest) else {
        return Err(LineFault::UnknownLine);
    };
    let Some(curve) = curve(words.curve) else {
        return Err(LineFault::UnknownLine);
    };
    let field = owned(alloc, words.field)?;
    if_right(tween(words, field, curve))
}

fn focus(word: &str) -> Option<Entry>
    ensures value { result ≡ focus_form word.now }
    ensures range { IfSome result HasEntryRanges }
{
    match word {
        "next" => Some(Entry::FocusNext),
        "prev" => Some(Entry::FocusPrev),
        "none" => Some(Entry::FocusNone),
        _ => Some(Entry::FocusOn { node: node(word)? }),
    }
}

// A line `focus`, by what stands after its first word.
fn focus_line(rest: Option<&str>) -> Result<Entry, LineFault>
    ensures value { Gives result (focus_line (words_after (option_map (λ s. s.now) rest.entry))) }
    ensures range { IfOk result HasEntryRanges }
{
    let Some((word, rest)) = next_word(rest) else {
        return Err(LineFault::UnknownLine);
    };
    match rest {
        Some(_) => Err(LineFault::UnknownLine),
        None => if_right(focus(word)),
    }
}

// A line of one word.
fn alone(entry: Entry, rest: Option<&str>) -> Result<Entry, LineFault>
    requires { HasEntryRanges entry }
    ensures value { Gives result (alone entry (words_after (option_map (λ s. s.now) rest.entry))) }
    ensures range { IfOk result HasEntryRanges }
{
    match rest {
        Some(_) => Err(LineFault::UnknownLine),
        None => Ok(entry),
    }
}

/// What a line asks for that isn't a command of the session.
#[tactic(auto, unfolding(crate::specs::EntryForms::by_first))]
pub(crate) fn own_entry(alloc: Global, line: &str) -> Result<Entry, LineFault>
    ensures value { Gives result (own_entry (words_of line.now)) }
    ensures range { IfOk result HasEntryRanges }
{
    let (word, rest) = cut(line);
    match word {
        "tween" => tween_line(alloc, rest),
        "focus" => focus_line(rest),
        "press" => alone(Entry::Press, rest),
        "cells" => alone(Entry::Cells, rest),
        _ => Err(LineFault::UnknownLine),
    }
}
