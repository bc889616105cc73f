// Dots, contexts, names and answers: the terms that keys, messages, clock and calls share.

#![tactic(auto)]

ghost use Rattle.std.specs.Prelude.{◌≡◌, ◌+◌, ◌≤◌, length};
ghost use Rattle.std.specs.Iterator.{YieldsFirst, item_count};
ghost use Rattle.wire.specs.Lists.{all};
ghost use Rattle.dots.specs.Answer.{number_of, first_of};
ghost use Rattle.dots.specs.Names.{text_ok, name_ok, label_ok, prints, label_prints};
ghost use Rattle.dots.specs.Dots.{dot_ok};
ghost use Rattle.dots.specs.Wire.{dot_bytes, dot_at, dots_of, dot_size};

// ---- limits

// Actors are 1 to this.
pub const ACTOR_MOST: u8 = 16;
// Bytes of a set name and of a label, at most.
pub const NAME_MOST: usize = 16;

pub const LABEL_MOST: usize = 32;
// The lowest and the highest byte that prints.
pub const PRINT_LOW: u8 = 0x20;

pub const PRINT_HIGH: u8 = 0x7E;
// Dots of a context and of the tombstone, at most; bytes of a dot.
pub const CONTEXT_MOST: usize = 64;

pub const TOMBSTONE_MOST: usize = 128;

pub const DOT_SIZE: usize = 9;
// The bytes of a tombstone.
pub const TOMBSTONE_SIZE: usize = TOMBSTONE_MOST * DOT_SIZE;

// ---- answers

// The answers of the table, with its numbers.
#[derive(Clone, Copy, PartialEq, Eq)]
pub enum Answer {
    Done = 0,
    Damaged = 1,
    NoMark = 2,
    BadVersion = 3,
    BadShape = 4,
    BadName = 5,
    BadDot = 6,
    OtherSet = 7,
    OwnAhead = 8,
    CounterEnd = 9,
    TooFar = 10,
    TombstoneFull = 11,
    StoreFull = 12,
    OutputShort = 13,
    BadChecksum = 14,
    ActorTaken = 15,
}

// The table's number of an answer.
impl From<Answer> for u8 {
    ghost from_gives = { λ a n. n ≡ number_of a };

    fn from(answer: Answer) -> u8 {
        answer as u8
    }
}

// The first refusal of a table that holds, else done.
pub fn first_of(rows: &[(bool, Answer)]) -> Answer
    ensures { result ≡ first_of rows.now }
{
    for (holds, answer) in rows {
        if *holds {
            return *answer;
        }
    }
    Answer::Done
}

// ---- names and labels

// Whether no byte is 0, and there are 1 to `most`.
fn text_ok(most: usize, text: &[u8]) -> bool
    ensures { result ≡ text_ok most text.now }
{
    let nonzero = search::zero_at(text) == text.len();
    (1 <= text.len()) & (text.len() <= most) & nonzero
}

pub fn name_ok(name: &[u8]) -> bool
    ensures { result ≡ name_ok name.now }
{
    text_ok(NAME_MOST, name)
}

pub fn label_ok(label: &[u8]) -> bool
    ensures { result ≡ label_ok label.now }
{
    text_ok(LABEL_MOST, label)
}

// Whether every byte prints. Each byte is looked at: `all` stops at the first that does not print, and was measured to be slower.
fn all_print(text: &[u8]) -> bool
    ensures { result ≡ all prints text.now }
{
    let mut ok = true;
    for b in text {
        ok &= (PRINT_LOW <= *b) & (*b <= PRINT_HIGH);
    }
    ok
}

// Whether an add may have the label: it keeps its rule, and every byte prints. No byte that prints is 0.
pub fn label_prints(label: &[u8]) -> bool
    ensures { result ≡ label_prints label.now }
{
    if LABEL_MOST < label.len() {
        return false;
    }
    (1 <= label.len()) & all_print(label)
}

// ---- dots

// The number of a controller, 1 to 16.
#[derive(Clone, Copy, Default, PartialEq, Eq, PartialOrd, Ord)]
pub struct Actor {
    pub number: u8,
}

// The number of an event of one actor, 1 and up.
#[derive(Clone, Copy, Default, PartialEq, Eq, PartialOrd, Ord)]
pub struct Counter {
    pub number: u64,
}

// An event: its actor and its number there.
#[derive(Clone, Copy, Default, PartialEq, Eq, PartialOrd, Ord)]
pub struct Dot {
    pub actor: Actor,
    pub counter: Counter,
}

// Whether a dot keeps its rule.
pub fn dot_ok(dot: Dot) -> bool
    ensures { result ≡ dot_ok dot }
{
    (1 <= dot.actor.number) & (dot.actor.number <= ACTOR_MOST) & (1 <= dot.counter.number)
}

// ---- dots in bytes, nine each

// The dot in the 9 bytes from a place on. A function and no `From`: messages reads a dot at a place in longer bytes.
pub fn dot_at(s: &[u8], at: usize) -> Dot
    requires { at + dot_size ≤ length s.now }
    ensures { result ≡ dot_at s.now at }
{
    let actor = s[at];
    let counter = wire::number_at(s, at + 1);
    Dot {
        actor: Actor { number: actor },
        counter: Counter { number: counter },
    }
}

// A dot in 9 bytes, written out: `copy_from_slice` would call memmove, which the library may not.
// A function and no `From`: the callers borrow the bytes, so `into` would need their type written out.
pub fn dot_bytes(dot: Dot) -> [u8; DOT_SIZE]
    ensures { result ≡ dot_bytes dot }
{
    let c = wire::number_bytes(dot.counter.number);
    let actor = dot.actor.number;
    [actor, c[0], c[1], c[2], c[3], c[4], c[5], c[6], c[7]]
}

// The dots that bytes hold, from the first on; bytes that are left over are none.
#[derive(Clone, Copy)]
pub struct Dots<'a> {
    pub bytes: &'a [u8],
}

impl<'a> Iterator for Dots<'a> {
    type Item = Dot;

    ghost next_gives = { YieldsFirst (λ s. dots_of s.bytes.now) };

    ghost remaining = { item_count (λ s. dots_of s.bytes.now) };

    fn next(&mut self) -> Option<Dot> {
        let (front, rest) = self.bytes.split_first_chunk::<DOT_SIZE>()?;
        self.bytes = rest;
        Some(dot_at(front, 0))
    }

    fn size_hint(&self) -> (usize, Option<usize>) {
        let count = self.bytes.len() / DOT_SIZE;
        (count, Some(count))
    }
}

// A loop over the dots that bytes hold.
pub fn dots_in<'a>(bytes: &'a [u8]) -> Dots<'a>
    ensures { result.bytes ≡ bytes.entry }
{
    Dots { bytes: bytes }
}
