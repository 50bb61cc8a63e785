// The numbers of a line, and their ranges.
ghost use Rattle.std.specs.Prelude.{◌≡◌, ◌<◌, ◌≤◌, ◌^◌, pos, option_map, length, IfSome};
ghost use Rattle.std.specs.List.{list_all};
ghost use Rattle.std.specs.Char.{is_ascii_digit};
ghost use Rattle.script_lines.specs.Numbers.{is_numeral, magnitude_of, number_of, natural_in, integer_in, time_in, node_in, pointer_in, coordinate_in, side_in, distance_in, greatest_time, greatest_node, greatest_pointer, coordinate_reach, side_reach, distance_reach, greatest_duration};
ghost use Rattle.script_lines.specs.EntryForms.{duration_in};
ghost use Rattle.script_lines.specs.Ranges.{IsBetween};
ghost use Rattle.script_lines.specs.NumberView.{value_of, strip_byte};

// The most digits of a number.
const DIGITS_MAX: usize = 19;

// The greatest time, node number and pointer.
const TIME_MAX: u64 = 1_000_000_000_000;

const NODE_MAX: u64 = 1_000_000_000_000_000_000;

const POINTER_MAX: u64 = 4_294_967_295;

// How far coordinates, sides and distances may lie from 0.
const COORDINATE_MAX: u64 = 1 << 30;

const SIDE_MAX: u64 = 1 << 53;

const DISTANCE_MAX: u64 = 1 << 40;

// The longest time that a tween takes.
const DURATION_MAX: u64 = 1_000_000_000;

// A number as a line has it.
#[derive(Clone, Copy)]
struct Number {
    negative: bool,
    magnitude: u64,
}

// Whether each byte is a decimal digit.
fn are_digits(bytes: &[u8]) -> bool
    ensures { result ≡ list_all is_ascii_digit bytes.now }
{
    bytes.iter().all(|byte| byte.is_ascii_digit())
}

// Whether a text is 1 to 19 decimal digits.
fn is_numeral(digits: &str) -> bool
    ensures { result ≡ is_numeral digits.now }
{
    !digits.is_empty() && digits.len() <= DIGITS_MAX && are_digits(digits.as_bytes())
}

// The number that 1 to 19 decimal digits write.
fn magnitude(digits: &str) -> Option<u64>
    ensures { result ≡ magnitude_of digits.now }
{
    if !is_numeral(digits) {
        return None;
    }
    digits.parse::<u64>().ok()
}

// What follows a first `-`.
fn without_minus(word: &str) -> Option<&str>
    ensures { option_map (λ s. s.now) result ≡ strip_byte 45 word.now }
{
    word.strip_prefix('-')
}

// What follows a first `#`.
fn without_hash(word: &str) -> Option<&str>
    ensures { option_map (λ s. s.now) result ≡ strip_byte 35 word.now }
{
    word.strip_prefix('#')
}

// The number that a word is.
fn number_in(word: &str) -> Option<Number>
    ensures { option_map value_of result ≡ number_of word.now }
{
    match without_minus(word) {
        Some(digits) => Some(Number {
            negative: true,
            magnitude: magnitude(digits)?,
        }),
        None => Some(Number {
            negative: false,
            magnitude: magnitude(word)?,
        }),
    }
}

// The number that a word is, where it is one from 0 to a greatest.
fn natural(word: &str, greatest: u64) -> Option<u64>
    ensures value { result ≡ natural_in greatest word.now }
    ensures range { IfSome result (λ n. n ≤ greatest) }
{
    let number = number_in(word)?;
    if number.magnitude > greatest || (number.negative && number.magnitude > 0) {
        return None;
    }
    Some(number.magnitude)
}

// The number that a word is, where it is no further from 0 than so much.
fn integer(word: &str, reach: u64) -> Option<i64>
    requires { reach < 2 ^ 63 }
    ensures value { result ≡ integer_in reach word.now }
    ensures range { IfSome result (IsBetween reach) }
{
    let number = number_in(word)?;
    if number.magnitude > reach {
        return None;
    }
    let magnitude = number.magnitude as i64;
    Some(if number.negative {
        -magnitude
    } else {
        magnitude
    })
}

// A time in milliseconds.
pub(crate) fn time(word: &str) -> Option<u64>
    ensures value { result ≡ time_in word.now }
    ensures range { IfSome result (λ n. n ≤ greatest_time) }
{
    natural(word, TIME_MAX)
}

// The number of a node, after `#`.
pub(crate) fn node(word: &str) -> Option<u64>
    ensures value { result ≡ node_in word.now }
    ensures range { IfSome result (λ n. n ≤ greatest_node) }
{
    natural(without_hash(word)?, NODE_MAX)
}

// A pointer.
pub(crate) fn pointer(word: &str) -> Option<u32>
    ensures value { result ≡ pointer_in word.now }
    ensures range { IfSome result (λ n. n ≤ greatest_pointer) }
{
    Some(natural(word, POINTER_MAX)? as u32)
}

// A coordinate of a point, in u.
pub(crate) fn coordinate(word: &str) -> Option<i64>
    ensures value { result ≡ coordinate_in word.now }
    ensures range { IfSome result (IsBetween coordinate_reach) }
{
    integer(word, COORDINATE_MAX)
}

// A side of a view, in u, as it is read.
pub(crate) fn side(word: &str) -> Option<i64>
    ensures value { result ≡ side_in word.now }
    ensures range { IfSome result (IsBetween side_reach) }
{
    integer(word, SIDE_MAX)
}

// A distance in u, or a number of a delegate.
pub(crate) fn distance(word: &str) -> Option<i64>
    ensures value { result ≡ distance_in word.now }
    ensures range { IfSome result (IsBetween distance_reach) }
{
    integer(word, DISTANCE_MAX)
}

// How long a tween takes, in milliseconds: at least one.
pub(crate) fn duration(word: &str) -> Option<u64>
    ensures value { result ≡ duration_in word.now }
    ensures range { IfSome result (λ n. (1 ≤ n) × (n ≤ greatest_duration)) }
{
    let ms = natural(word, DURATION_MAX)?;
    if ms == 0 {
        return None;
    }
    Some(ms)
}
