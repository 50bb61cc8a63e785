//! Laws over the definition of lines.
ghost use Rattle.std.specs.Prelude.{◌≡◌, ℕ, List, Option, All};
ghost use Rattle.std.specs.Str.{IsUtf8};
ghost use Rattle.text_cells.specs.declared.line.Line.{Line};
ghost use Rattle.text_cells.specs.LineText.{LiesInText};
ghost use Rattle.text_cells.specs.Wrapped.{wrapped};
ghost use Rattle.text_cells.specs.Wrapping.{IsWrapping};

/// Each text has exactly one list of lines at a limit of cells: `wrapped`.
pub fn one_wrapping()
    ensures wraps { (limit : Option ℕ) (text : List ℕ) → IsWrapping limit text (wrapped limit text) }
    ensures only { (limit : Option ℕ) (text : List ℕ) (xs ys : List Line) → IsWrapping limit text xs → IsWrapping limit text ys → xs ≡ ys }
{}

/// Each line lies in its text.
pub fn lines_lie_in_text()
    ensures { (limit : Option ℕ) (text : List ℕ) → IsUtf8 text → All (LiesInText text) (wrapped limit text) }
{}
