// A line of a trace, read in one pass over its characters (RULES: X1, X2).
ghost use Rattle.std.specs.Prelude.{◌≡◌, ◌+◌, ◌*◌, ◌/◌, ◌<◌, ◌≤◌, min, length, take, drop, IfSome};
ghost use Rattle.text.specs.Decimal.{value_of};
ghost use Rattle.ledger.specs.Lines.{digit_in, number_in, heading_in, nibble, pairs_in, field_in};
ghost use Rattle.ledger.specs.Lines.{known, digit_told, hex_told, number_told, numbered, closed_told, closed_at, from, field_told, line_told};
ghost use Rattle.ledger.specs.Working.{front_at};

use table::Direction;

// The most bytes of a stream.
pub(crate) const MOST_BYTES: usize = 255;

// Text and offset go together below. The slice behind the offset is no plainer: what is answered are offsets in the text, and each bound would
// stand of the slice's length again.
// The value of the number in front, and the offset behind it.
#[derive(Clone, Copy)]
struct Number {
    value: u64,
    next: usize,
}

// How many bytes a stream has in the memory, which is an array (RULES: X17), and the offset behind its field and the newline.
#[derive(Clone, Copy)]
struct Field {
    len: usize,
    next: usize,
}

// The line at an offset, but for its stream, and the offset behind it.
#[derive(Clone, Copy)]
pub(crate) struct LineAt {
    pub frame: u32,
    pub direction: Direction,
    pub len: usize,
    pub next: usize,
}

fn digit(c: u8) -> Option<u64>
    ensures value { digit_told result ≡ digit_in c }
    ensures bound { IfSome result (λ d. d < 10) }
{
    match c {
        b'0'..=b'9' => Some((c - b'0') as u64),
        _ => None,
    }
}

// The digits at an offset, as far as a number of 32 bits could go: a zero stands alone.
fn digits_at(text: &[u8], at: usize) -> Number
    requires { at < length text.now }
    ensures value_value { result.value ≡ value_of (number_in (drop at text.now)) }
    ensures next_value { result.next ≡ at + length (number_in (drop at text.now)) }
{
    let zero = text[at];
    if zero == b'0' {
        let next = at + 1;
        return Number { value: 0, next };
    }
    let mut value: u64 = 0;
    for (n, c) in text[at..].iter().enumerate() {
        let Some(d) = digit(*c) else {
            return Number {
                value,
                next: at + n,
            };
        };
        if 429_496_729 < value {
            return Number {
                value,
                next: at + n,
            };
        }
        value = value * 10 + d;
    }
    Number {
        value,
        next: text.len(),
    }
}

// The number at an offset; none where no digit stands.
fn number_at(text: &[u8], at: usize) -> Option<Number>
    requires { at < length text.now }
    ensures { number_told result ≡ numbered at (number_in (drop at text.now)) }
{
    let number = digits_at(text, at);
    if number.next == at {
        None
    } else {
        Some(number)
    }
}

// The letter of a direction, between two tabs.
fn heading_at(text: &[u8], at: usize) -> Option<Direction>
    requires { at ≤ length text.now }
    ensures { known result ≡ heading_in (drop at text.now) }
{
    let [before, letter, behind, ..] = &text[at..] else {
        return None;
    };
    if *before != b'\t' || *behind != b'\t' {
        return None;
    }
    match *letter {
        b'D' => Some(Direction::Down),
        b'U' => Some(Direction::Up),
        _ => None,
    }
}

// One arm for each digit: compiled, that is a table, where ranges would be branches that no processor foresees.
fn hex_value(c: u8) -> Option<u8>
    ensures value { hex_told result ≡ nibble c }
    ensures bound { IfSome result (λ h. h < 16) }
{
    match c {
        48 => Some(0),
        49 => Some(1),
        50 => Some(2),
        51 => Some(3),
        52 => Some(4),
        53 => Some(5),
        54 => Some(6),
        55 => Some(7),
        56 => Some(8),
        57 => Some(9),
        65 => Some(10),
        66 => Some(11),
        67 => Some(12),
        68 => Some(13),
        69 => Some(14),
        70 => Some(15),
        _ => None,
    }
}

fn byte_of(high: u8, low: u8) -> u8
    requires high_bound { high < 16 }
    requires low_bound { low < 16 }
    ensures { result ≡ high * 16 + low }
{
    let left = high * 16;
    left + low
}

// How many pairs a text of this length has room for, and the memory.
fn room_in(len: usize) -> usize
    ensures { result ≡ min (len / 2) 255 }
{
    (len / 2).min(MOST_BYTES)
}

// How many pairs of digits stand in front. Each is put into the memory as a byte.
fn pairs(text: &[u8], at: usize, stream: &mut [u8; MOST_BYTES]) -> usize
    requires { at ≤ length text.now }
    ensures value { result ≡ length (pairs_in 255 (drop at text.now)) }
    ensures stream_after { take result stream.new ≡ pairs_in 255 (drop at text.now) }
{
    let most = room_in(text.len() - at);
    for n in 0..most {
        let first = at + 2 * n;
        let Some(high) = hex_value(text[first]) else {
            return n;
        };
        let second = first + 1;
        let Some(low) = hex_value(text[second]) else {
            return n;
        };
        stream[n] = byte_of(high, low);
    }
    most
}

// Whether a newline ends the field there, which has so many bytes.
fn closed_at(text: &[u8], end: usize, len: usize) -> Option<Field>
    requires { end ≤ length text.now }
    ensures result_value { closed_told result ≡ closed_at text.now end len }
    ensures len_bound { IfSome result (λ f. f.len ≤ len) }
{
    if text.len() <= end {
        return None;
    }
    let last = text[end];
    if last != b'\n' {
        return None;
    }
    let next = end + 1;
    Some(Field { len, next })
}

// The stream, in hex or a dash for no bytes, and the newline behind it.
fn field_at(text: &[u8], at: usize, stream: &mut [u8; MOST_BYTES]) -> Option<Field>
    requires { at ≤ length text.now }
    ensures stream_after { field_told result stream.new ≡ from at (field_in (drop at text.now)) }
    ensures len_bound { IfSome result (λ f. f.len ≤ 255) }
{
    if text.len() <= at {
        return None;
    }
    let first = text[at];
    if first == b'-' {
        let end = at + 1;
        return closed_at(text, end, 0);
    }
    let n = pairs(text, at, stream);
    if n == 0 {
        return None;
    }
    let size = 2 * n;
    let end = at + size;
    closed_at(text, end, n)
}

// The line at an offset. Its stream is put into the memory; where no line has the form there, nothing is said of the memory.
pub(crate) fn line_at(text: &[u8], at: usize, stream: &mut [u8; MOST_BYTES]) -> Option<LineAt>
    requires { at < length text.now }
    ensures stream_after { line_told result stream.new ≡ front_at text.now at }
    ensures len_bound { IfSome result (λ l. l.len ≤ 255) }
{
    let number = number_at(text, at)?;
    let behind = number.next;
    let value = number.value;
    if 4_294_967_295 < value {
        return None;
    }
    let direction = heading_at(text, behind)?;
    let field = field_at(text, behind + 3, stream)?;
    Some(LineAt {
        frame: value as u32,
        direction,
        len: field.len,
        next: field.next,
    })
}
