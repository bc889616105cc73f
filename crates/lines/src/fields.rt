// The kinds of fields: each function reads what a field of its kind stands for. One that stands for bytes has them put at the front of `out`,
// and their number is returned. `ARGUMENTS_MAX` is room for those of any line; where there is less, the last are dropped.
ghost use Rattle.std.specs.Prelude.{length};
ghost use Rattle.std.specs.Iterator.{at_most};

use crate::limits::{BUFFER_MAX, CONTROLLERS, OUT_MAX};
use crate::parse::Place;
use crate::parts;
use crate::why::Why;
use dots::{Actor, Counter, DOT_SIZE, Dot};

// ---- numbers

// NUM. Not by std's parse, which takes a sign and 0s in front; what is no number and what is too large are told apart.
pub fn number(field: &[u8]) -> Result<u64, Why> {
    let has_zero = field.len() > 1 && field.starts_with(b"0");
    if field.is_empty() || has_zero || !field.iter().all(|c| c.is_ascii_digit()) {
        return Err(Why::NoNumber);
    }
    field
        .iter()
        .try_fold(0, |n: u64, c| {
            n.checked_mul(10)?.checked_add(u64::from(*c & 15))
        })
        .ok_or(Why::TooLarge)
}

pub fn byte(field: &[u8]) -> Result<u8, Why> {
    u8::try_from(number(field)?).or(Err(Why::OverByte))
}

// A number up to a largest one.
fn number_up_to(field: &[u8], most: usize) -> Result<usize, Why> {
    let n = number(field)? as usize;
    if n <= most { Ok(n) } else { Err(Why::TooLarge) }
}

// The length of an output.
pub fn output(field: &[u8]) -> Result<usize, Why> {
    number_up_to(field, OUT_MAX)
}

// The length of a store.
pub fn buffer(field: &[u8]) -> Result<usize, Why> {
    number_up_to(field, BUFFER_MAX)
}

// A slot of the tombstone.
pub fn slot(field: &[u8]) -> Result<u8, Why> {
    match number(field)? {
        n if n < dots::TOMBSTONE_MOST as u64 => Ok(n as u8),
        _ => Err(Why::TooLarge),
    }
}

// The row of an actor in the clock.
pub fn row(field: &[u8]) -> Result<u8, Why> {
    match byte(field)? {
        actor @ 1..=dots::ACTOR_MOST => Ok(actor - 1),
        _ => Err(Why::NoRow),
    }
}

// `@K`.
pub fn controller(field: &[u8]) -> Result<Place, Why> {
    let digits = field.strip_prefix(b"@").ok_or(Why::NoController)?;
    match number(digits)? {
        k if k < CONTROLLERS as u64 => Ok(Place { index: k as usize }),
        _ => Err(Why::NoController),
    }
}

// A key's type. A byte and not a kind: ptl_write_key of the C interface takes the byte.
pub fn key_type(field: &[u8]) -> Result<u8, Why> {
    match field {
        [kind @ (b'c' | b'd' | b'e' | b'z')] => Ok(*kind),
        _ => Err(Why::NoType),
    }
}

// ---- bytes

// The value of a hexadecimal digit, whose letters begin at `ten`. Not by std, which takes both cases of letters: here one alone is a digit.
fn digit(c: u8, ten: u8) -> Option<u8> {
    if c.is_ascii_digit() {
        return Some(c & 15);
    }
    match c.checked_sub(ten)? {
        n if n < 6 => Some(n + 10),
        _ => None,
    }
}

// The byte of two hexadecimal digits.
fn pair(high: u8, low: u8, ten: u8) -> Option<u8> {
    Some(digit(high, ten)? << 4 | digit(low, ten)?)
}

fn hex_pair(digits: &[u8]) -> Result<u8, Why> {
    match digits {
        [high, low] => pair(*high, *low, b'a').ok_or(Why::NoHex),
        _ => Err(Why::NoHex),
    }
}

// HEX.
pub fn hex(field: &[u8], out: &mut [u8]) -> Result<usize, Why> {
    if field == b"-".as_slice() {
        return Ok(0);
    }
    for (place, digits) in out.iter_mut().zip(field.chunks(2)) {
        *place = hex_pair(digits)?;
    }
    Ok(field.len() / 2)
}

// The bytes that are left of a TEXT.
#[derive(Drop)]
struct Characters<'a>(&'a [u8]);

impl Iterator for Characters<'_> {
    type Item = Result<u8, Why>;

    ghost remaining = { λ s. at_most (length s.0.now) };

    fn next(&mut self) -> Option<Result<u8, Why>> {
        let (character, rest) = match self.0 {
            [] => return None,
            [b'%', high, low, rest @ ..] => (pair(*high, *low, b'A').ok_or(Why::BadText), rest),
            [b'%', rest @ ..] => (Err(Why::CutText), rest),
            [c @ b'!'..=b'~', rest @ ..] => (Ok(*c), rest),
            [_, rest @ ..] => (Err(Why::PlainText), rest),
        };
        self.0 = rest;
        Some(character)
    }
}

// TEXT.
pub fn text(field: &[u8], out: &mut [u8]) -> Result<usize, Why> {
    if field == b"-".as_slice() {
        return Ok(0);
    }
    let mut len: usize = 0;
    for (place, character) in out.iter_mut().zip(Characters(field)) {
        *place = character?;
        len = len.saturating_add(1);
    }
    Ok(len)
}

// A TEXT that fits the name of a set.
pub fn name(field: &[u8], out: &mut [u8]) -> Result<usize, Why> {
    let len = text(field, out)?;
    if len <= dots::NAME_MOST {
        Ok(len)
    } else {
        Err(Why::LongName)
    }
}

fn dot(text: &[u8]) -> Result<Dot, Why> {
    let mut numbers = text.splitn(2, |b| *b == b':');
    let actor = byte(numbers.next().unwrap_or_default())?;
    let counter = number(numbers.next().ok_or(Why::NoCounter)?)?;
    Ok(Dot {
        actor: Actor { number: actor },
        counter: Counter { number: counter },
    })
}

// DOTS, as the bytes that a context has.
pub fn context(field: &[u8], out: &mut [u8]) -> Result<usize, Why> {
    if field == b"-".as_slice() {
        return Ok(0);
    }
    let mut len: usize = 0;
    for text in field.split(|b| *b == b',') {
        parts::put(out, len, &dots::dot_bytes(dot(text)?));
        len = len.saturating_add(DOT_SIZE);
    }
    Ok(len)
}
