// Lines of a table of builds, as they are written.

// What a line asks for.
#[derive(Clone, Copy)]
pub(crate) enum Line<'a> {
    // A history begins, with new trees.
    Name,
    // The root is this template.
    Root(&'a str),
    // The one field of the component with a number is given a value.
    Set(u64, i64),
    // The component with a number is marked.
    Mark(u64),
    // The view is so high.
    High(u64),
    // A build, and what it comes to: the number that the next new node has, how many components are built, and the numbers of the nodes in
    // preorder.
    Built(u64, u64, &'a str),
    // A build, and its fault.
    Fault(&'a str),
    Unknown,
}

// The word in front, and what follows it.
fn word_of(text: &str) -> (&str, &str) {
    text.split_once(' ').unwrap_or((text, ""))
}

// The number in front, and what follows it. 0, which no node has, stands for what is no number.
fn number_of(text: &str) -> (u64, &str) {
    let (word, rest) = word_of(text);
    (word.parse::<u64>().unwrap_or(0), rest)
}

pub(crate) fn line_of(text: &str) -> Line<'_> {
    let (word, rest) = word_of(text);
    let (first, more) = number_of(rest);
    let (second, last) = number_of(more);
    match word {
        "#" => Line::Name,
        "root" => Line::Root(rest),
        "set" => Line::Set(first, i64::try_from(second).unwrap_or(0)),
        "mark" => Line::Mark(first),
        "high" => Line::High(first),
        "built" => Line::Built(first, second, last),
        "fault" => Line::Fault(rest),
        _ => Line::Unknown,
    }
}

// Numbers that are told by runs, as `1-2 5 3-4`: the text that is left, and the run that was begun.
#[derive(Drop)]
pub(crate) struct Numbers<'a> {
    text: &'a str,
    at: u64,
    last: u64,
}

pub(crate) fn numbers_of(text: &str) -> Numbers<'_> {
    Numbers {
        text,
        at: 0,
        last: 0,
    }
}

// The next one, or 0 behind the last one.
pub(crate) fn next_number(numbers: &mut Numbers<'_>) -> u64 {
    if numbers.at < numbers.last {
        numbers.at = numbers.at.wrapping_add(1);
        return numbers.at;
    }
    let (run, rest) = word_of(numbers.text);
    let (first, last) = run.split_once('-').unwrap_or((run, run));
    numbers.text = rest;
    numbers.at = number_of(first).0;
    numbers.last = number_of(last).0;
    numbers.at
}
