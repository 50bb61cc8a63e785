use crate::compare::{expect, expect_at};
use fx_geom::{Len, Size};
use std::alloc::{AllocError, Global};
use std::test::Fail;
use text_cells::{max_width, measure, wrap};

// A line's start, its end and its cells.
type Told = (usize, usize, u64);

// The lines of a text.
fn lines_of(alloc: Global, text: &str, limit: Option<u64>) -> Result<Vec<Told>, AllocError> {
    let mut told = Vec::new(alloc);
    for line in wrap(alloc, text, limit)?.as_slice() {
        told.push((line.start, line.end, line.cells))?;
    }
    Ok(told)
}

// Texts, how many cells a line may have, and their lines: where each starts and ends, and its cells.
const WRAPPED: [(&str, Option<u64>, &[Told]); 18] = [
    ("ab 漢字", Some(4), &[(0, 3, 2), (3, 9, 4)]),
    ("abc漢", Some(4), &[(0, 3, 3), (3, 6, 2)]),
    ("abcdef", Some(4), &[(0, 4, 4), (4, 6, 2)]),
    ("abcdef", None, &[(0, 6, 6)]),
    ("", Some(4), &[(0, 0, 0)]),
    ("ab", Some(0), &[(0, 1, 1), (1, 2, 1)]),
    ("ab", Some(1), &[(0, 1, 1), (1, 2, 1)]),
    ("a  ", Some(1), &[(0, 3, 1)]),
    ("   ", Some(0), &[(0, 3, 0)]),
    ("a b", Some(1), &[(0, 2, 1), (2, 3, 1)]),
    ("a  b", Some(2), &[(0, 3, 1), (3, 4, 1)]),
    ("ab cd ef", Some(5), &[(0, 6, 5), (6, 8, 2)]),
    // line feeds, marks, and clusters of no width and of two
    ("a\r\nb", Some(4), &[(0, 1, 1), (3, 4, 1)]),
    ("a\n\n", Some(4), &[(0, 1, 1), (2, 2, 0), (3, 3, 0)]),
    ("e\u{301}x", Some(1), &[(0, 3, 1), (3, 4, 1)]),
    ("\u{200b}a", Some(0), &[(0, 3, 0), (3, 4, 1)]),
    ("漢a", Some(1), &[(0, 3, 2), (3, 4, 1)]),
    ("漢 a", Some(1), &[(0, 3, 2), (3, 4, 0), (4, 5, 1)]),
];

#[test]
fn wraps(rt: HostRuntime) -> Result<(), Fail> {
    for (text, limit, want) in WRAPPED {
        let lines = lines_of(rt.alloc(), text, limit)?;
        expect_at(&rt, lines.as_slice(), want, &text);
    }
    Ok(())
}

#[test]
fn wraps_a_long_word(rt: HostRuntime) -> Result<(), Fail> {
    let mut word = String::new(rt.alloc());
    for _ in 0..1024 {
        word.push('a')?;
    }
    let lines = lines_of(rt.alloc(), word.as_str(), Some(1000))?;
    let want = [(0, 1000, 1000), (1000, 1024, 24)];
    expect(&rt, lines.as_slice(), want.as_slice());
    Ok(())
}

const CELL: Size = Size { w: 512, h: 1024 };

const FINE: Size = Size { w: 2048, h: 4096 };

const HUGE: Size = Size {
    w: 1 << 50,
    h: 1 << 40,
};

// A text, the widest that it may be, a cell, and the sides of the text.
const MEASURED: [(&str, Len, Size, (u64, u64)); 6] = [
    ("ab 漢字", Len::Finite(2048), CELL, (2048, 2048)),
    ("ab 漢字", Len::Unbounded, CELL, (3584, 1024)),
    ("ab", Len::Finite(100), CELL, (512, 2048)),
    ("abcdef", Len::Finite(8192), FINE, (8192, 8192)),
    ("", Len::Unbounded, CELL, (0, 1024)),
    ("a", Len::Unbounded, HUGE, (1 << 40, 1 << 40)),
];

#[test]
fn measures(rt: HostRuntime) {
    for (text, width, cell, want) in MEASURED {
        let size = measure(text, width, cell);
        expect_at(&rt, (size.w, size.h), want, &text);
    }
    expect(&rt, max_width("ab \nabc  ", CELL), 1536);
}
