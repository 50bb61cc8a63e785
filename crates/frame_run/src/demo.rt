// The input that mode `demo` makes of a seed and a size, and the line that it writes.
ghost use Rattle.std.specs.Prelude.{◌≡◌, ◌+◌, ◌*◌, ◌<◌, ◌≤◌, ◌++◌, nat_eq, IfOk, OnOk, string_bytes, if◌then◌else◌};
ghost use Rattle.std.specs.List.{starts_with};
ghost use Rattle.frame_run.specs.Demo.{first_number, next_number, scroll_line, set_line, hit_line, demo_line, demo_lines, program_front, program_back, demo_program, demo_input, lines_starting, made_text, found_text, summary};
ghost use Rattle.frame_run.specs.WorkedDemo.{Worked};

use std::alloc::{AllocError, Global};

// The number after a number.
fn next_number(x: u64) -> u64
    requires { x < 65537 }
    ensures value { result ≡ next_number x }
    ensures bound { result < 65537 }
{
    (75 * x + 74) % 65_537
}

// The number of the first script line.
fn number_of_first(seed: u64) -> u64
    ensures value { result ≡ next_number (first_number seed) }
    ensures bound { result < 65537 }
{
    next_number(seed % 65_537)
}

// `scroll #1 D`
fn scroll_line(alloc: Global, x: u64) -> Result<String, AllocError>
    ensures { IfOk result (λ s. string_bytes s ≡ scroll_line x) }
{
    let by = (x % 2000) as i64 - 1000;
    format!(in alloc; "scroll #1 {by}\n")
}

// `set #T n x`
fn set_line(alloc: Global, size: u64, x: u64) -> Result<String, AllocError>
    requires least { 1 ≤ size }
    requires most { size ≤ 4096 }
    ensures { IfOk result (λ s. string_bytes s ≡ set_line size x) }
{
    let node = 3 + 2 * (x % size);
    format!(in alloc; "set #{node} n {x}\n")
}

// `hit X 5`
fn hit_line(alloc: Global, x: u64) -> Result<String, AllocError>
    ensures { IfOk result (λ s. string_bytes s ≡ hit_line x) }
{
    let across = x % 12_800;
    format!(in alloc; "hit {across} 5\n")
}

// The script line by a number.
fn demo_line(alloc: Global, size: u64, x: u64) -> Result<String, AllocError>
    requires least { 1 ≤ size }
    requires most { size ≤ 4096 }
    ensures { IfOk result (λ s. string_bytes s ≡ demo_line size x) }
{
    match x % 4 {
        0 => scroll_line(alloc, x),
        1 => set_line(alloc, size, x),
        2 => format!(in alloc; "frame\n"),
        _ => hit_line(alloc, x),
    }
}

// Adds as many script lines as the size says.
fn push_lines(alloc: Global, seed: u64, size: u64, out: &mut Vec<u8>) -> Result<(), AllocError>
    requires least { 1 ≤ size }
    requires most { size ≤ 4096 }
    ensures { OnOk result (out.new.items ≡ out.old.items ++ demo_lines size size (next_number (first_number seed))) }
{
    let mut x = number_of_first(seed);
    for _k in 0..size {
        let line = demo_line(alloc, size, x)?;
        out.extend_from_slice(line.as_bytes())?;
        x = next_number(x);
    }
    Ok(())
}

// The line of the program before the size.
#[tactic(auto, unfolding(crate::specs::Demo::program_front))]
fn program_front() -> &'static str
    ensures { result.now ≡ program_front }
{
    "{\"version\":1,\"view\":[12800,12800],\"components\":[{\"name\":\"Tile\",\"props\":[[\"i\",\"int\"]],\"fields\":[[\"n\",\"int\",[\"prop\",\"i\"]]],\"body\":{\"w\":\"ColoredBox\",\"color\":[\"field\",\"n\"]}}],\"root\":{\"w\":\"Viewport\",\"children\":[{\"w\":\"SliverFixed\",\"extent\":640,\"children\":[{\"w\":\"each\",\"var\":\"v\",\"in\":[\"range\","
}

// The line of the program after the size.
#[tactic(auto, unfolding(crate::specs::Demo::program_back))]
fn program_back() -> &'static str
    ensures { result.now ≡ program_back }
{
    "],\"body\":{\"w\":\"use\",\"name\":\"Tile\",\"key\":[\"local\",[\"var\",\"v\"]],\"props\":{\"i\":[\"var\",\"v\"]}}}]}]}}\n"
}

// The line of the program.
fn demo_program(alloc: Global, size: u64) -> Result<String, AllocError>
    ensures { IfOk result (λ s. string_bytes s ≡ demo_program size) }
{
    let front = program_front();
    let back = program_back();
    format!(in alloc; "{front}{size}{back}")
}

/// The input of a seed and a size.
#[tactic(auto, unfolding(crate::specs::Demo::demo_input))]
pub fn demo_input(alloc: Global, seed: u64, size: u64) -> Result<Vec<u8>, AllocError>
    requires least { 1 ≤ size }
    requires most { size ≤ 4096 }
    ensures { IfOk result (λ v. v.items ≡ demo_input seed size) }
{
    let mut input = Vec::new(alloc);
    let program = demo_program(alloc, size)?;
    input.extend_from_slice(program.as_bytes())?;
    input.extend_from_slice(b"%%\nframe\n")?;
    push_lines(alloc, seed, size, &mut input)?;
    input.extend_from_slice(b"frame\n")?;
    Ok(input)
}

// 1 where a line starts with a word, else 0.
fn starts(line: &[u8], word: &[u8]) -> u64
    ensures value { result ≡ (if starts_with nat_eq line.now word.now then 1 else 0) }
    ensures bound { result ≤ 1 }
{
    if line.starts_with(word) { 1 } else { 0 }
}

// How many lines of a text start with a word.
fn lines_starting(text: &[u8], word: &[u8]) -> u64
    ensures { result ≡ lines_starting word.now text.now }
{
    let mut count = 0;
    let mut start = 0;
    for (i, byte) in text.iter().enumerate() {
        if *byte == b'\n' {
            count += starts(&text[start..i], word);
            start = i + 1;
        }
    }
    count
}

// The first half of the line that is written.
fn made_text(alloc: Global, seed: u64, size: u64, lines: u64) -> Result<String, AllocError>
    ensures { IfOk result (λ s. string_bytes s ≡ made_text seed size lines) }
{
    format!(in alloc; "demo seed {seed} size {size} lines {lines}")
}

// Its other half.
fn found_text(alloc: Global, refused: u64, frames: u64, bytes: u64) -> Result<String, AllocError>
    ensures { IfOk result (λ s. string_bytes s ≡ found_text refused frames bytes) }
{
    format!(in alloc; " refused {refused} frames {frames} bytes {bytes}\n")
}

/// Adds the line that is written of a seed, a size and the job's whole text.
#[tactic(auto, unfolding(crate::specs::Demo::summary))]
pub fn print_summary(
    alloc: Global,
    seed: u64,
    size: u64,
    text: &[u8],
    out: &mut Vec<u8>,
) -> Result<(), AllocError>
    requires { size ≤ 4096 }
    ensures { OnOk result (out.new.items ≡ out.old.items ++ summary seed size text.now) }
{
    let refused = lines_starting(text, b"refused ");
    let frames = lines_starting(text, b"frame ");
    let made = made_text(alloc, seed, size, size + 2)?;
    let found = found_text(alloc, refused, frames, text.len() as u64)?;
    out.extend_from_slice(made.as_bytes())?;
    out.extend_from_slice(found.as_bytes())
}

/// The demo's definitions give what was worked by hand.
pub fn worked_demo()
    ensures { Worked }
{}
