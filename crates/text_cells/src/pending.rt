// The pass over a text's clusters, which holds of the present line what a later cut of it needs.
ghost use Rattle.std.specs.Prelude.{◌≡◌, ◌==◌, true, false, None, ℕ, slice_range, ◌+◌, ◌*◌, ◌^◌, ◌<◌, ◌≤◌, List, [], ◌∷◌, ◌++◌, length, min, Option};
ghost use Rattle.std.specs.Str.{IsCharBoundary};
ghost use Rattle.unicode_segmentation.specs.Grapheme.{is_grapheme_break};
ghost use Rattle.unicode_segmentation.specs.Steps.{IsFirstEnd};
ghost use Rattle.text_cells.specs.Pass.{IsStretch, IsPiece, HoldsPending, Cuts, end_of, listed, ended_lines, Ends, TookCluster};
ghost use Rattle.text_cells.specs.Wrapped.{is_full, text_lines, before_put, word_put};
ghost use Rattle.text_cells.specs.Line.{fits};
ghost use Rattle.text_cells.specs.Cluster.{Cluster, width, cells_of, cluster_of, is_space_text, is_paragraph_end};

use crate::clusters::ends_plain;
use crate::line::Line;
use crate::stretch::{Piece, Stretch};
use unicode_width::UnicodeWidthStr;

const NOTHING: Stretch = Stretch {
    some: false,
    bytes: 0,
    cells: 0,
};

// The part in its line of a printable character of ASCII.
fn plain_piece(byte: u8) -> Piece
    ensures len { result.len ≡ 1 }
    ensures cells { result.cells ≡ 1 }
    ensures is_space { result.is_space ≡ (byte == 32) }
{
    Piece {
        len: 1,
        cells: 1,
        is_space: byte == b' ',
    }
}

/// What is held of the present line: where it begins, the stretch up to its last space with its width, and the word
/// after that.
#[derive(Clone, Copy)]
pub struct Pending {
    pub limit: Option<u64>,
    pub start: usize,
    pub before: Stretch,
    pub before_width: u64,
    pub word: Stretch,
}

/// The cells that a grapheme cluster takes: its width, at most 2.
#[tactic(auto, using(crate::proofs::Ascii::width_of_one))]
pub fn cluster_cells(cluster: &str) -> u64
    ensures value { result ≡ cells_of cluster.now }
    ensures few { result ≤ 2 }
    ensures counted { result ≤ 2 * length cluster.now }
{
    // A character of ASCII takes one cell.
    let bytes = cluster.as_bytes();
    if bytes.len() == 1 && bytes[0] < 128 {
        return 1;
    }
    cluster.width().min(2) as u64
}

// Whether the cluster ends a paragraph.
fn is_paragraph_end(cluster: &str) -> bool
    ensures { result ≡ is_paragraph_end cluster.now }
{
    matches!(cluster.as_bytes(), [b'\n'] | [b'\r', b'\n'])
}

// A cluster's part in its line.
fn piece_of(cluster: &str) -> Piece
    ensures len { result.len ≡ length cluster.now }
    ensures cells { result.cells ≡ cells_of cluster.now }
    ensures is_space { result.is_space ≡ is_space_text cluster.now }
{
    Piece {
        len: cluster.len(),
        cells: cluster_cells(cluster),
        is_space: matches!(cluster.as_bytes(), [b' ']),
    }
}

/// The lines that end before a cluster or at it: at most two.
#[derive(Clone, Copy)]
pub struct EndedLines {
    pub first: Option<Line>,
    pub second: Option<Line>,
}

impl Stretch {
    // The stretch with a cluster more.
    fn plus(self, piece: Piece) -> Stretch
        requires { self.bytes + piece.len < 2 ^ 63 }
        ensures holds { (cs : List Cluster) (c : Cluster) → IsStretch self cs → IsPiece piece c → IsStretch result (cs ++ c ∷ []) }
        ensures bytes { result.bytes ≡ self.bytes + piece.len }
    {
        Stretch {
            some: true,
            bytes: self.bytes + piece.len,
            cells: self.cells + piece.cells,
        }
    }

    // The two stretches as one.
    fn and(self, other: Stretch) -> Stretch
        requires { self.bytes + other.bytes < 2 ^ 63 }
        ensures holds { (cs ds : List Cluster) → IsStretch self cs → IsStretch other ds → IsStretch result (cs ++ ds) }
        ensures bytes { result.bytes ≡ self.bytes + other.bytes }
    {
        Stretch {
            some: self.some || other.some,
            bytes: self.bytes + other.bytes,
            cells: self.cells + other.cells,
        }
    }
}

impl Pending {
    /// Nothing is held of a line that begins at a byte.
    pub fn at(limit: Option<u64>, start: usize) -> Pending
        ensures limit { result.limit ≡ limit }
        ensures holds { HoldsPending result start [] [] }
        ensures end { end_of result ≡ start }
    {
        Pending {
            limit,
            start,
            before: NOTHING,
            before_width: 0,
            word: NOTHING,
        }
    }

    // The width of what is held.
    fn width(&self) -> u64
        requires { end_of self.now < 2 ^ 63 }
        ensures { (start : ℕ) (xs ys : List Cluster) → HoldsPending self.now start xs ys → result ≡ width (xs ++ ys) }
    {
        if self.word.some {
            self.before.cells + self.word.cells
        } else {
            self.before_width
        }
    }

    // The width of what is held with a cluster more.
    fn width_with(&self, piece: Piece) -> u64
        requires { end_of self.now + piece.len < 2 ^ 63 }
        ensures { (start : ℕ) (xs ys : List Cluster) (c : Cluster) → HoldsPending self.now start xs ys → IsPiece piece c → result ≡ width ((xs ++ ys) ++ c ∷ []) }
    {
        if piece.is_space {
            self.width()
        } else {
            self.before.cells + self.word.cells + piece.cells
        }
    }

    // Whether something is held that doesn't fit together with the cluster.
    fn is_full(&self, piece: Piece) -> bool
        requires { end_of self.now + piece.len < 2 ^ 63 }
        ensures { (start : ℕ) (xs ys : List Cluster) (c : Cluster) → HoldsPending self.now start xs ys → IsPiece piece c → result ≡ is_full self.now.limit xs ys c }
    {
        if !self.before.some && !self.word.some {
            return false;
        }
        match self.limit {
            Some(limit) => self.width_with(piece) > limit,
            None => false,
        }
    }

    // The line up to a byte, with its width.
    fn line_to(&self, end: usize, cells: u64) -> Line
        ensures { result ≡ record { start = self.now.start; end = end; cells = cells } }
    {
        Line {
            start: self.start,
            end,
            cells,
        }
    }

    // Cuts the present line where it is full: after its last space, or after its one word.
    fn cut(&mut self, piece: Piece) -> Option<Line>
        requires { end_of self.old + piece.len < 2 ^ 63 }
        ensures cuts { (start : ℕ) (xs ys : List Cluster) (c : Cluster) → HoldsPending self.old start xs ys → IsPiece piece c → Cuts self.old self.new result start xs ys c }
        ensures end { end_of self.new ≡ end_of self.old }
        ensures limit { self.new.limit ≡ self.old.limit }
    {
        if !self.is_full(piece) {
            return None;
        }
        if self.before.some {
            let end = self.start + self.before.bytes;
            let line = self.line_to(end, self.before_width);
            self.start = end;
            self.before = NOTHING;
            self.before_width = 0;
            return Some(line);
        }
        let end = self.start + self.word.bytes;
        let line = self.line_to(end, self.word.cells);
        self.start = end;
        self.word = NOTHING;
        Some(line)
    }

    // Adds a cluster, for which there is room in the present line.
    fn put(&mut self, piece: Piece)
        requires { end_of self.old + piece.len < 2 ^ 63 }
        ensures holds { (start : ℕ) (xs ys : List Cluster) (c : Cluster) → HoldsPending self.old start xs ys → IsPiece piece c → is_full self.old.limit xs ys c ≡ false
            → HoldsPending self.new start (before_put xs ys c) (word_put ys c) }
        ensures end { end_of self.new ≡ end_of self.old + piece.len }
        ensures limit { self.new.limit ≡ self.old.limit }
    {
        if piece.is_space {
            let width = self.width_with(piece);
            self.before = self.before.and(self.word).plus(piece);
            self.before_width = width;
            self.word = NOTHING;
        } else {
            self.word = self.word.plus(piece);
        }
    }

    /// The line of all that is held.
    pub fn last(&self) -> Line
        requires { end_of self.now < 2 ^ 63 }
        ensures ends { (start : ℕ) (xs ys : List Cluster) → HoldsPending self.now start xs ys → Ends self.now result start xs ys }
        ensures end { result.end ≡ end_of self.now }
    {
        let end = self.start + (self.before.bytes + self.word.bytes);
        self.line_to(end, self.width())
    }

    /// Takes the next character of the text, where it is a printable one of ASCII and a cluster by itself, and there is room for it in the
    /// present line, so that no line ends. Else nothing changes.
    pub fn take_plain(&mut self, text: &str, at: usize) -> bool
        requires within { at < length text.now }
        requires boundary { IsCharBoundary text.now at }
        requires room { end_of self.old + 1 < 2 ^ 63 }
        ensures first { result ≡ true → IsFirstEnd (is_grapheme_break true) text.now at (length text.now) (at + 1) }
        ensures took { result ≡ true → (start : ℕ) (xs ys : List Cluster) → HoldsPending self.old start xs ys
            → TookCluster self.old.limit self.new (record { first = None; second = None }) start xs ys (slice_range text.now at (at + 1)) }
        ensures one { result ≡ true → length (slice_range text.now at (at + 1)) ≡ 1 }
        ensures end { result ≡ true → end_of self.new ≡ end_of self.old + 1 }
        ensures limit { self.new.limit ≡ self.old.limit }
        ensures kept { result ≡ false → self.new ≡ self.old }
    {
        let bytes = text.as_bytes();
        if !ends_plain(bytes, at) {
            return false;
        }
        let piece = plain_piece(bytes[at]);
        if self.is_full(piece) {
            return false;
        }
        self.put(piece);
        true
    }

    /// Takes the next cluster of the text: the lines that end before it, or at it where it ends a paragraph.
    pub fn take(&mut self, cluster: &str) -> EndedLines
        requires { end_of self.old + length cluster.now < 2 ^ 63 }
        ensures took { (start : ℕ) (xs ys : List Cluster) → HoldsPending self.old start xs ys → TookCluster self.old.limit self.new result start xs ys cluster.now }
        ensures end { end_of self.new ≡ end_of self.old + length cluster.now }
        ensures limit { self.new.limit ≡ self.old.limit }
    {
        if is_paragraph_end(cluster) {
            let line = self.last();
            *self = Pending::at(self.limit, line.end + cluster.len());
            return EndedLines {
                first: Some(line),
                second: None,
            };
        }
        let piece = piece_of(cluster);
        let first = self.cut(piece);
        let second = self.cut(piece);
        self.put(piece);
        EndedLines { first, second }
    }
}
