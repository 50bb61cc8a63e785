ghost use Rattle.std.specs.Prelude.{◌≡◌, List};
ghost use Rattle.text_cells.specs.LineText.{LiesInText, unspaced, text_of};

/// A line of a text: its first byte, the byte after its last one, and the cells that it takes without the spaces at its
/// end. These spaces stand in the line.
#[derive(Clone, Copy, Debug, PartialEq, Eq)]
pub struct Line {
    pub start: usize,
    pub end: usize,
    pub cells: u64,
}

impl Line {
    /// What is seen of the line: its part of the text that it is a line of, without U+0020 at its end.
    pub fn text<'a>(&self, text: &'a str) -> &'a str
        requires { LiesInText text.now self.now }
        ensures { result.now ≡ text_of text.now self.now }
    {
        without_spaces(&text[self.start..self.end])
    }
}

// A text without U+0020 at its end.
fn without_spaces(text: &str) -> &str
    ensures { result.now ≡ unspaced text.now }
{
    let bytes = text.as_bytes();
    let mut end = bytes.len();
    while end > 0 && bytes[end - 1] == b' ' {
        end -= 1;
    }
    &text[..end]
}
