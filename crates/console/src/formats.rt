// Keys and messages, written and read without a controller. Kinds and answers are numbers, since the C interface takes and gives them so.
use crate::commands;
use dots::{Actor, Counter, Dot};
use lines::parse::Format;
use lines::parts;
use lines::print::{Dots, Output, Text};
use std::io;
use std::io::Write;

// Carries out a command that needs no controller.
pub fn run<W: Write>(writer: &mut W, format: &Format, out: &mut Vec<u8>) -> io::Result<()> {
    match format {
        Format::Key {
            kind,
            name,
            label,
            dot,
            out: length,
        } => write_key(
            writer,
            *kind,
            name,
            label,
            *dot,
            commands::lend(out, *length)?,
        ),
        Format::ReadKey { key } => read_key(writer, key),
        Format::ReadMessage { message } => read_message(writer, message),
    }
}

fn write_key<W: Write>(
    writer: &mut W,
    kind: u8,
    name: &[u8],
    label: &[u8],
    dot: Dot,
    out: &mut [u8],
) -> io::Result<()> {
    let mut written = usize::MAX;
    let answer = capi::ptl_write_key(
        kind,
        name,
        label,
        dot.actor.number,
        dot.counter.number,
        out,
        &mut written,
    );
    let output = Output {
        bytes: out,
        written,
    };
    write!(writer, " {answer} {output}")
}

// The TEXT in a part of these bytes.
fn text_in(bytes: &[u8], at: usize, len: usize) -> Text<'_> {
    Text(parts::front(parts::from(bytes, at), len))
}

fn read_key<W: Write>(writer: &mut W, bytes: &[u8]) -> io::Result<()> {
    let mut kind = u8::MAX;
    let mut name_at = usize::MAX;
    let mut name_len = usize::MAX;
    let mut label_at = usize::MAX;
    let mut label_len = usize::MAX;
    let mut actor = u8::MAX;
    let mut counter = u64::MAX;
    let answer = capi::ptl_read_key(
        bytes,
        &mut kind,
        &mut name_at,
        &mut name_len,
        &mut label_at,
        &mut label_len,
        &mut actor,
        &mut counter,
    );
    let one = [kind];
    let kind = text_in(&one, 0, kind as usize);
    let name = text_in(bytes, name_at, name_len);
    let label = text_in(bytes, label_at, label_len);
    write!(writer, " {answer} {kind} {name} {label} {actor} {counter}")
}

fn read_message<W: Write>(writer: &mut W, bytes: &[u8]) -> io::Result<()> {
    let mut kind = u8::MAX;
    let mut name_at = usize::MAX;
    let mut name_len = usize::MAX;
    let mut label_at = usize::MAX;
    let mut label_len = usize::MAX;
    let mut actor = u8::MAX;
    let mut counter = u64::MAX;
    let mut context_at = usize::MAX;
    let mut context_len = usize::MAX;
    let answer = capi::ptl_read_message(
        bytes,
        &mut kind,
        &mut name_at,
        &mut name_len,
        &mut label_at,
        &mut label_len,
        &mut actor,
        &mut counter,
        &mut context_at,
        &mut context_len,
    );
    let dot = dots::dot_bytes(Dot {
        actor: Actor { number: actor },
        counter: Counter { number: counter },
    });
    // A remove has no dot of its own, and a refused message none and no kind.
    let (kind, dot) = match kind {
        b'a' => ("add", Dots(&dot)),
        b'r' => ("remove", Dots(&[])),
        _ => ("-", Dots(&[])),
    };
    let name = text_in(bytes, name_at, name_len);
    let label = text_in(bytes, label_at, label_len);
    let context = Dots(parts::front(parts::from(bytes, context_at), context_len));
    write!(writer, " {answer} {kind} {name} {label} {dot} {context}")
}
