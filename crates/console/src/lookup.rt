// Lookup. A stretch tells its length and its bytes, and not where it starts: that is looked for in the store, and the bytes there are
// compared with those of the stretch.
ghost use Rattle.std.specs.Prelude.{length};
ghost use Rattle.std.specs.Iterator.{at_most};

use crate::rack::Controller;
use block::{NAME_LENGTH_AT, USED_AT};
use lines::parts;
use std::io;
use std::io::Write;

// Bytes of a key after its label.
const LABEL_END: usize = 11;

// The keys that are left of a store. A label stands `front` bytes behind a key's start.
#[derive(Drop)]
struct Keys<'a> {
    rest: &'a [u8],
    front: usize,
}

// A key's label, and what stands after the key.
#[derive(Clone, Copy)]
struct Key<'a> {
    label: &'a [u8],
    after: &'a [u8],
}

impl<'a> Iterator for Keys<'a> {
    type Item = Key<'a>;

    ghost remaining = { λ s. at_most (length s.rest.now) };

    fn next(&mut self) -> Option<Key<'a>> {
        let labels = self.rest.get(self.front..)?;
        let (label, end) = labels.split_at(search::zero_at(labels));
        let after = end.get(LABEL_END..)?;
        self.rest = after;
        Some(Key { label, after })
    }
}

// The number of bytes of the keys whose labels are lower.
fn lower_bytes(used: &[u8], front: usize, label: &[u8]) -> usize {
    let keys = Keys { rest: used, front };
    match keys
        .take_while(|key| search::lower(key.label, label))
        .last()
    {
        Some(key) => used.len().saturating_sub(key.after.len()),
        None => 0,
    }
}

// Where a label's stretch starts in the store.
fn start_of(controller: &Controller, label: &[u8]) -> usize {
    let used = parts::number_at(&controller.state, USED_AT) as usize;
    let name_length = controller.state[NAME_LENGTH_AT + 7] as usize;
    lower_bytes(
        parts::front(&controller.store, used),
        name_length + 4,
        label,
    )
}

pub fn look_up<W: Write>(writer: &mut W, controller: &Controller, label: &[u8]) -> io::Result<()> {
    let store = controller.store.as_slice();
    let mut found = store;
    let mut listed = true;
    let answer = capi::ptl_lookup(&controller.state, store, label, &mut found, &mut listed);
    // The stretch of a refusal is at the store's front.
    let start = if answer == 0 {
        start_of(controller, label)
    } else {
        0
    };
    let is_listed = if listed { "yes" } else { "no" };
    let length = found.len();
    write!(writer, " {answer} {is_listed} {start} {length}")?;
    if !parts::from(store, start).starts_with(found) {
        writer.write_all(b" stretch-elsewhere")?;
    }
    Ok(())
}
