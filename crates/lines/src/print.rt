// How the fields of a line are printed.
ghost use Rattle.std.specs.Prelude.{◌<◌};

use crate::limits::OUT_FILL;
use crate::parts;
use std::fmt;

// HEX.
#[derive(Clone, Copy)]
pub struct Hex<'a>(pub &'a [u8]);

impl fmt::Display for Hex<'_> {
    fn fmt<W: fmt::Write>(&self, f: &mut fmt::Formatter<W>) -> fmt::Result {
        if self.0.is_empty() {
            return f.write_str("-");
        }
        for byte in self.0 {
            write!(f, "{byte:02x}")?;
        }
        Ok(())
    }
}

// A hexadecimal digit. Not `{b:02X}`: must-fail/digit_above_15 breaks what this function requires, and may not go.
fn digit(n: u8) -> u8
    requires { n < 16 }
{
    if n < 10 { n + b'0' } else { n - 10 + b'A' }
}

// A byte of a TEXT that has a sign of its own.
fn character<W: fmt::Write>(f: &mut fmt::Formatter<W>, b: u8) -> fmt::Result {
    if b.is_ascii_graphic() && b != b'%' {
        return f.write_char(b as char);
    }
    f.write_char('%')?;
    f.write_char(digit(b / 16) as char)?;
    f.write_char(digit(b % 16) as char)
}

// TEXT.
#[derive(Clone, Copy)]
pub struct Text<'a>(pub &'a [u8]);

impl fmt::Display for Text<'_> {
    fn fmt<W: fmt::Write>(&self, f: &mut fmt::Formatter<W>) -> fmt::Result {
        match self.0 {
            [] => f.write_str("-"),
            b"-" => f.write_str("%2D"),
            bytes => {
                for b in bytes {
                    character(f, *b)?;
                }
                Ok(())
            }
        }
    }
}

// DOTS, of the dots in these bytes.
#[derive(Clone, Copy)]
pub struct Dots<'a>(pub &'a [u8]);

impl fmt::Display for Dots<'_> {
    fn fmt<W: fmt::Write>(&self, f: &mut fmt::Formatter<W>) -> fmt::Result {
        if self.0.len() < dots::DOT_SIZE {
            return f.write_str("-");
        }
        for (i, bytes) in self.0.chunks_exact(dots::DOT_SIZE).enumerate() {
            let mark = if i == 0 { "" } else { "," };
            let dot = dots::dot_at(bytes, 0);
            let actor = dot.actor.number;
            let counter = dot.counter.number;
            write!(f, "{mark}{actor}:{counter}")?;
        }
        Ok(())
    }
}

// What was written to an output. The bytes past it must be as they were before the call.
#[derive(Clone, Copy)]
pub struct Output<'a> {
    pub bytes: &'a [u8],
    pub written: usize,
}

impl fmt::Display for Output<'_> {
    fn fmt<W: fmt::Write>(&self, f: &mut fmt::Formatter<W>) -> fmt::Result {
        let written = Hex(parts::front(self.bytes, self.written));
        let rest = parts::from(self.bytes, self.written);
        write!(f, "{written}")?;
        if rest.iter().any(|b| *b != OUT_FILL) {
            f.write_str(" output-changed")?;
        }
        Ok(())
    }
}
