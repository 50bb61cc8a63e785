// Where the clusters of a text end.
ghost use Rattle.std.specs.Prelude.{◌≡◌, ◌<◌, length, true};
ghost use Rattle.std.specs.Str.{IsCharBoundary};
ghost use Rattle.unicode_segmentation.specs.Grapheme.{is_grapheme_break};
ghost use Rattle.unicode_segmentation.specs.Steps.{IsFirstEnd};
ghost use Rattle.text_cells.specs.Plain.{is_plain, ends_plain, StandsOn};

use unicode_segmentation::GraphemeCursor;

// Whether a byte is a printable character of ASCII.
fn is_plain(byte: u8) -> bool
    ensures { result ≡ is_plain byte }
{
    32 <= byte && byte <= 126
}

/// Whether a byte is a printable character of ASCII, and so is what follows it, if anything does. Then a cluster ends between
/// the two.
pub(crate) fn ends_plain(bytes: &[u8], at: usize) -> bool
    requires { at < length bytes.now }
    ensures { result ≡ ends_plain bytes.now at }
{
    is_plain(bytes[at]) && (at + 1 == bytes.len() || is_plain(bytes[at + 1]))
}

/// A cursor at the start of a text.
pub(crate) fn cursor_on(text: &str) -> GraphemeCursor
    ensures { StandsOn result text.now }
{
    GraphemeCursor::new(0, text.len(), true)
}

/// Where the cluster that begins at a byte of a text ends.
pub(crate) fn cluster_end(text: &str, at: usize, cursor: &mut GraphemeCursor) -> usize
    requires within { at < length text.now }
    requires boundary { IsCharBoundary text.now at }
    requires stands { StandsOn cursor.old text.now }
    ensures end { IsFirstEnd (is_grapheme_break true) text.now at (length text.now) result }
    ensures stands { StandsOn cursor.new text.now }
{
    if ends_plain(text.as_bytes(), at) {
        return at + 1;
    }
    cursor.set_cursor(at);
    match cursor.next_boundary(text, 0) {
        Ok(Some(end)) => end,
        Ok(None) => unreachable!(),
        Err(_) => unreachable!(),
    }
}
