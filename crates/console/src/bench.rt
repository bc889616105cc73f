// Looking at a controller's state and store, and damaging them.
use crate::rack::Controller;
use block::{
    CLOCK_AT, COUNT_AT, NAME_AT, NAME_LENGTH_AT, ROW_SIZE, STATE_SIZE, TOMBSTONE_AT, USED_AT,
};
use dots::{ACTOR_MOST, DOT_SIZE, NAME_MOST, TOMBSTONE_MOST};
use lines::parse::Poke;
use lines::parts;
use lines::print::{Dots, Text};
use std::alloc::AllocError;
use std::io::Write;
use std::{fmt, io};

// The rows of a clock that are not zero, of the clock in these bytes.
#[derive(Clone, Copy)]
struct Clock<'a>(&'a [u8]);

impl fmt::Display for Clock<'_> {
    fn fmt<W: fmt::Write>(&self, f: &mut fmt::Formatter<W>) -> fmt::Result {
        let mut is_zero = true;
        for (actor, row) in (1..=ACTOR_MOST).zip(self.0.chunks_exact(ROW_SIZE)) {
            let base = parts::number_at(row, 0);
            let window = parts::number_at(row, 8);
            if base != 0 || window != 0 {
                let mark = if is_zero { "" } else { "," };
                write!(f, "{mark}{actor}:{base}:{window:016x}")?;
                is_zero = false;
            }
        }
        if is_zero { f.write_str("-") } else { Ok(()) }
    }
}

pub fn show_state<W: Write>(writer: &mut W, state: &[u8; STATE_SIZE]) -> io::Result<()> {
    let actor = state[0];
    let length = parts::number_at(state, NAME_LENGTH_AT) as usize;
    let name = Text(&state[NAME_AT..NAME_AT + length.min(NAME_MOST)]);
    let used = parts::number_at(state, USED_AT);
    let clock = Clock(&state[CLOCK_AT..TOMBSTONE_AT]);
    let count = parts::number_at(state, COUNT_AT) as usize;
    let end = TOMBSTONE_AT + count.min(TOMBSTONE_MOST) * DOT_SIZE;
    let tombstone = Dots(&state[TOMBSTONE_AT..end]);
    write!(writer, " {actor} {name} {used} {clock} {tombstone}")
}

// Lends a store of another length from now on: the used bytes are kept as far as they fit, and the rest is filled.
pub fn buffer(controller: &mut Controller, length: usize, fill: u8) -> Result<(), AllocError> {
    let used = parts::number_at(&controller.state, USED_AT) as usize;
    controller.store.truncate(used.min(length));
    controller.store.resize(length, fill)
}

// Sets a field of the state, or a byte of the store.
pub fn poke(controller: &mut Controller, poke: &Poke) {
    let state = &mut controller.state;
    match poke {
        Poke::Used(n) => put_number(state, USED_AT, *n),
        Poke::Actor(actor) => parts::put(state, 0, &[*actor]),
        Poke::Name(name) => {
            parts::put(state, NAME_AT, &[0; NAME_MOST]);
            parts::put(state, NAME_AT, name);
            put_number(state, NAME_LENGTH_AT, name.len() as u64);
        }
        Poke::NameLength(n) => put_number(state, NAME_LENGTH_AT, *n),
        Poke::Base { row, base } => {
            put_number(state, CLOCK_AT + *row as usize * ROW_SIZE, *base);
        }
        Poke::Window { row, window } => {
            put_number(state, CLOCK_AT + *row as usize * ROW_SIZE + 8, *window);
        }
        Poke::Dot { slot, dot } => {
            let at = TOMBSTONE_AT + *slot as usize * DOT_SIZE;
            parts::put(state, at, &dots::dot_bytes(*dot));
        }
        Poke::Count(n) => put_number(state, COUNT_AT, *n),
        Poke::Byte { offset, byte } => parts::put(&mut controller.store, *offset, &[*byte]),
    }
}

fn put_number(state: &mut [u8; STATE_SIZE], at: usize, number: u64) {
    parts::put(state, at, &wire::number_bytes(number));
}
