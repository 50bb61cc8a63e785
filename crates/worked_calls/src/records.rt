// Records of text as no run has them: without a character, and with a line feed. What else is printed is in the case files.
use crate::compare::expect;
use draw_records::{Record, print};
use fx_expr::Txt;
use fx_geom::Offset;
use std::alloc::{AllocError, Global};
use std::test::Fail;

// A run of text at the origin.
fn run_of(alloc: Global, text: &str) -> Result<Record, AllocError> {
    let text = Txt::of(String::from_str(alloc, text)?);
    Ok(Record::Run {
        at: Offset { x: 0, y: 0 },
        color: 4_278_190_080,
        text,
    })
}

// What is printed of a record, after a byte that stood there.
fn printed(alloc: Global, record: &Record) -> Result<Vec<u8>, AllocError> {
    let mut out = Vec::new(alloc);
    out.push(b'-')?;
    print(record, &mut out)?;
    Ok(out)
}

const RUNS: [(&str, &str); 5] = [
    ("ab", "-text 0 0 ff000000 \"ab\"\n"),
    ("", "-text 0 0 ff000000 \"\"\n"),
    ("漢字", "-text 0 0 ff000000 \"漢字\"\n"),
    (r#"a"b\c"#, "-text 0 0 ff000000 \"a\\\"b\\\\c\"\n"),
    (
        "\0\u{1}\u{2}\u{3}\u{4}\u{5}\u{6}\u{7}\u{8}\t\n\u{b}\u{c}\r\u{e}\u{f}\u{10}\u{11}\u{12}\u{13}\u{14}\u{15}\u{16}\u{17}\u{18}\u{19}\u{1a}\u{1b}\u{1c}\u{1d}\u{1e}\u{1f}\u{7f}",
        "-text 0 0 ff000000 \"\\u0000\\u0001\\u0002\\u0003\\u0004\\u0005\\u0006\\u0007\\u0008\\u0009\\u000a\\u000b\\u000c\\u000d\\u000e\\u000f\\u0010\\u0011\\u0012\\u0013\\u0014\\u0015\\u0016\\u0017\\u0018\\u0019\\u001a\\u001b\\u001c\\u001d\\u001e\\u001f\\u007f\"\n",
    ),
];

#[test]
fn texts_are_quoted(rt: HostRuntime) -> Result<(), Fail> {
    for (text, want) in RUNS {
        let record = run_of(rt.alloc(), text)?;
        let out = printed(rt.alloc(), &record)?;
        expect(&rt, out.as_slice(), want.as_bytes());
    }
    Ok(())
}
