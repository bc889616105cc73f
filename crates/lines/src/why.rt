// Why a line is no command, or cannot be carried out.
ghost use Rattle.std.specs.Prelude.{◌≡◌};
ghost use Rattle.lines.specs.declared.why.Why.TheVariants.{OutOfMemory};

use std::alloc::{AllocError, AllocFailed};
use std::error::Error;
use std::fmt;

#[derive(Clone, Copy, Debug, PartialEq, Eq)]
pub enum Why {
    CarriageReturn,
    Space,
    Missing,
    TooMany,
    NoNumber,
    TooLarge,
    OverByte,
    CutText,
    BadText,
    PlainText,
    NoHex,
    NoCounter,
    NoController,
    NoCommand,
    NoType,
    NoPoke,
    LongName,
    NoRow,
    Outside,
    LongLine,
    LongInput,
    NoWord,
    OutOfMemory,
}

impl Why {
    fn text(self) -> &'static str {
        match self {
            Why::CarriageReturn => "carriage return",
            Why::Space => "space at an end or two spaces",
            Why::Missing => "missing",
            Why::TooMany => "one too many",
            Why::NoNumber => "not a number",
            Why::TooLarge => "number too large",
            Why::OverByte => "number over 255",
            Why::CutText => "cut % in text",
            Why::BadText => "bad % in text",
            Why::PlainText => "byte that text must write as %",
            Why::NoHex => "not hexadecimal",
            Why::NoCounter => "dot without counter",
            Why::NoController => "controllers are 0 to 15",
            Why::NoCommand => "unknown command",
            Why::NoType => "key types are c, d, e and z",
            Why::NoPoke => "unknown poke",
            Why::LongName => "name over 16 bytes",
            Why::NoRow => "rows are 1 to 16",
            Why::Outside => "outside what can be set",
            Why::LongLine => "line over 262144 bytes",
            Why::LongInput => "input over 2097152 bytes",
            Why::NoWord => "missing command",
            Why::OutOfMemory => "out of memory",
        }
    }
}

impl fmt::Display for Why {
    fn fmt<W: fmt::Write>(&self, f: &mut fmt::Formatter<W>) -> fmt::Result {
        f.write_str(self.text())
    }
}

impl Error for Why {}

// No line is read with an allocation; these are for a caller that makes one.
impl From<AllocError> for Why {
    ghost from_gives = { λ _ why. why ≡ OutOfMemory };

    fn from(_error: AllocError) -> Why {
        Self::OutOfMemory
    }
}

impl<T: Drop> From<AllocFailed<T>> for Why {
    ghost from_gives = { λ _ why. why ≡ OutOfMemory };

    fn from(_error: AllocFailed<T>) -> Why {
        Why::from(AllocError)
    }
}

// A reason, and the number of the field that it is about, if it is not about the whole line.
#[derive(Clone, Copy, Debug, PartialEq, Eq)]
pub struct Refusal {
    pub why: Why,
    pub field: Option<usize>,
}

impl From<Why> for Refusal {
    fn from(why: Why) -> Refusal {
        Refusal { why, field: None }
    }
}

// The output of a line that was not carried out.
impl fmt::Display for Refusal {
    fn fmt<W: fmt::Write>(&self, f: &mut fmt::Formatter<W>) -> fmt::Result {
        let why = self.why;
        match self.field {
            Some(field) => write!(f, "? field {field}: {why}"),
            None => write!(f, "? {why}"),
        }
    }
}

impl Error for Refusal {}

#[cfg(test)]
mod tests {
    use super::*;
    use std::alloc::Global;

    // An empty vector with room for as many bytes as asked, where there is memory for them.
    fn room(alloc: Global, len: usize) -> Result<Vec<u8>, Why> {
        Ok(Vec::with_capacity(alloc, len)?)
    }

    // The bytes with one more behind them.
    fn pushed(mut bytes: Vec<u8>) -> Result<Vec<u8>, Why> {
        bytes.push(1)?;
        Ok(bytes)
    }

    #[test]
    fn tells_that_there_is_no_memory(rt: HostRuntime) -> Result<(), Why> {
        assert_eq!(rt; room(rt.alloc(), usize::MAX).err(), Some(Why::OutOfMemory));
        assert_eq!(rt; pushed(room(rt.alloc(), 1)?)?.len(), 1);
        let failed = AllocFailed { value: 1u8 };
        assert_eq!(rt; Why::from(failed), Why::OutOfMemory);
        Ok(())
    }
}
