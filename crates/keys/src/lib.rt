// Keys in bytes: the four types of document 01, written and read.

#![tactic(auto)]

ghost use Rattle.std.specs.Prelude.{◌≡◌, true, cond, [], ◌+◌, ◌≤◌, length, drop, Ok};
ghost use Rattle.wire.specs.Bytes.{AreBytes, byte_at, number_at, span, put_at};
ghost use Rattle.keys.specs.declared.KeyKind.TheVariants.{ClockKey, LabelKey, EndKey};
ghost use Rattle.keys.specs.Key.{type_byte, has_label, has_actor, names_ok, key_counter_ok, key_bytes, suffix_size, prefix_fixed};
ghost use Rattle.keys.specs.Read.{name_length, is_key, found_key, read_key, read_as};
ghost use Rattle.keys.specs.Write.{key_in, KeyPut, WroteKey, write_answer};
ghost use Rattle.dots.specs.Answer.{Answered};
ghost use Rattle.dots.specs.Dots.{actor_ok};
ghost use Rattle.keys.specs.Parts.{tail_length, tail_bytes, FrontPut};
ghost use Rattle.keys.specs.Tests.{kind_of, Typed, front_ok, label_after, actor_after, end_after, after_ok};

// Bytes of a label key before its label beside the name, after its label, and in all beside name and label.
pub const PREFIX_FIXED: usize = 4;

pub const SUFFIX_SIZE: usize = 11;

pub const LABEL_KEY_FIXED: usize = PREFIX_FIXED + SUFFIX_SIZE;

// The type of a key: clock, tombstone, label or end.
#[derive(Clone, Copy, PartialEq, Eq)]
pub enum KeyKind {
    ClockKey,
    TombstoneKey,
    LabelKey,
    EndKey,
}

// What a key says: its type, where name and label stand, actor and counter; a field that the type lacks is 0.
// Not an enum with fields: `read_as` (specs/Read) and ptl_read_key of the C interface have all fields of every key.
#[derive(Clone, Copy)]
pub struct KeyFields {
    pub kind: KeyKind,
    pub name: wire::Span,
    pub label: wire::Span,
    pub actor: u8,
    pub counter: u64,
}

// A key to write. A field that the type lacks is not looked at. Not an enum with fields: ptl_write_key of the C interface is given them all.
#[derive(Clone, Copy)]
pub struct NewKey<'a> {
    pub kind: KeyKind,
    pub name: &'a [u8],
    pub label: &'a [u8],
    pub actor: u8,
    pub counter: u64,
}

// ---- the types

// The byte of a type.
impl From<KeyKind> for u8 {
    ghost from_gives = { λ kind byte. byte ≡ type_byte kind };

    fn from(kind: KeyKind) -> u8 {
        match kind {
            KeyKind::ClockKey => b'c',
            KeyKind::TombstoneKey => b'd',
            KeyKind::LabelKey => b'e',
            KeyKind::EndKey => b'z',
        }
    }
}

// The type of a type byte; a byte that is none is refused.
impl TryFrom<u8> for KeyKind {
    type Error = dots::Answer;

    ghost try_from_gives = { Typed };

    fn try_from(byte: u8) -> Result<Self, dots::Answer> {
        match byte {
            b'c' => Ok(KeyKind::ClockKey),
            b'd' => Ok(KeyKind::TombstoneKey),
            b'e' => Ok(KeyKind::LabelKey),
            b'z' => Ok(KeyKind::EndKey),
            _ => Err(dots::Answer::BadShape),
        }
    }
}

// The type of a type byte, and that of end keys for a byte that is none.
pub fn kind_of(byte: u8) -> KeyKind
    ensures { result ≡ kind_of byte }
{
    KeyKind::try_from(byte).unwrap_or(KeyKind::EndKey)
}

impl KeyKind {
    // Whether keys of this type have a label and a counter.
    fn has_label(self) -> bool
        ensures { result ≡ has_label self }
    {
        matches!(self, KeyKind::LabelKey)
    }

    fn has_actor(self) -> bool
        ensures { result ≡ has_actor self }
    {
        !matches!(self, KeyKind::EndKey)
    }

    // The number of bytes after the label.
    fn tail_length(self) -> usize
        ensures { (result ≡ tail_length self) × (result ≤ suffix_size) }
    {
        match self {
            KeyKind::ClockKey | KeyKind::TombstoneKey => 3,
            KeyKind::LabelKey => SUFFIX_SIZE,
            KeyKind::EndKey => 2,
        }
    }
}

// ---- writing

fn actor_ok(actor: u8) -> bool
    ensures { result ≡ actor_ok actor }
{
    (1 <= actor) & (actor <= dots::ACTOR_MOST)
}

impl<'a> NewKey<'a> {
    // Whether name, label and actor keep their rules, where the type has them.
    fn names_ok(self) -> bool
        ensures { result ≡ names_ok (key_in self.entry) }
    {
        let name_fits = dots::name_ok(self.name);
        let label_fits = !self.kind.has_label() | dots::label_ok(self.label);
        let actor_fits = !self.kind.has_actor() | actor_ok(self.actor);
        name_fits & (label_fits & actor_fits)
    }

    // Whether the counter keeps its rule, where the type has it.
    fn counter_ok(self) -> bool
        ensures { result ≡ key_counter_ok (key_in self.entry) }
    {
        !self.kind.has_label() | (1 <= self.counter)
    }

    // The label, and no bytes where the type has none.
    fn kept_label(self) -> &'a [u8]
        ensures { result.now ≡ cond (has_label self.entry.kind) self.entry.label.now [] }
    {
        if self.kind.has_label() {
            self.label
        } else {
            &self.label[..0]
        }
    }

    // The answer to writing the key into `room` bytes.
    fn write_answer(self, room: usize) -> Result<(), dots::Answer>
        ensures { Answered (write_answer (key_in self.entry) room) result }
    {
        if !self.names_ok() {
            return Err(dots::Answer::BadName);
        }
        if !self.counter_ok() {
            return Err(dots::Answer::BadDot);
        }
        let label = self.kept_label();
        let size = self.name.len() + label.len() + (PREFIX_FIXED + self.kind.tail_length());
        if room < size {
            return Err(dots::Answer::OutputShort);
        }
        Ok(())
    }

    // Puts the key at the front of out.
    fn put(self, out: &mut [u8]) -> usize
        requires { length (key_bytes (key_in self)) ≤ length out.old }
        ensures { KeyPut (key_in self.entry) out.old out.new result }
    {
        let label_at = put_front(out, self.name, u8::from(self.kind));
        let tail_at = moves::put(out, label_at, self.kept_label());
        put_tail(out, tail_at, self.kind, self.actor, self.counter)
    }
}

// Puts magic byte, version byte, name, 00 and type byte at the front of out. Returns their length.
pub fn put_front(out: &mut [u8], name: &[u8], byte: u8) -> usize
    requires { length name.now + prefix_fixed ≤ length out.old }
    ensures { FrontPut name.now byte out.old out.new result }
{
    let head = [2u8, 1u8];
    let next = moves::put(out, 0, &head);
    let end = moves::put(out, next, name);
    let tail = [0u8, byte];
    moves::put(out, end, &tail)
}

// Puts 00, actor and 00 into out at a place.
fn put_actor(out: &mut [u8], at: usize, actor: u8) -> usize
    requires { at + 3 ≤ length out.old }
    ensures { (result ≡ at + 3) × (out.new ≡ put_at out.old at (tail_bytes ClockKey actor 0)) }
{
    let tail = [0u8, actor, 0u8];
    moves::put(out, at, &tail)
}

// Puts 00, actor, 00 and counter into out at a place.
fn put_dot(out: &mut [u8], at: usize, actor: u8, counter: u64) -> usize
    requires { at + suffix_size ≤ length out.old }
    ensures { (result ≡ at + suffix_size) × (out.new ≡ put_at out.old at (tail_bytes LabelKey actor counter)) }
{
    let number = wire::number_bytes(counter);
    let next = put_actor(out, at, actor);
    moves::put(out, next, &number)
}

// Puts 00 and 00 into out at a place.
fn put_end(out: &mut [u8], at: usize) -> usize
    requires { at + 2 ≤ length out.old }
    ensures { (result ≡ at + 2) × (out.new ≡ put_at out.old at (tail_bytes EndKey 0 0)) }
{
    let tail = [0u8, 0u8];
    moves::put(out, at, &tail)
}

// Puts what follows the label into out at a place.
fn put_tail(out: &mut [u8], at: usize, kind: KeyKind, actor: u8, counter: u64) -> usize
    requires { at + tail_length kind ≤ length out.old }
    ensures { (result ≡ at + tail_length kind) × (out.new ≡ put_at out.old at (tail_bytes kind actor counter)) }
{
    match kind {
        KeyKind::ClockKey | KeyKind::TombstoneKey => put_actor(out, at, actor),
        KeyKind::LabelKey => put_dot(out, at, actor, counter),
        KeyKind::EndKey => put_end(out, at),
    }
}

// Writes a key at the front of out. Returns its length.
pub fn write_key(key: NewKey, out: &mut [u8]) -> Result<usize, dots::Answer>
    ensures { WroteKey (key_in key.entry) out.old out.new result }
{
    key.write_answer(out.len())?;
    Ok(key.put(out))
}

// ---- reading

// The bytes from a place on, and none past the end.
fn rest<'a>(s: &'a [u8], at: usize) -> &'a [u8]
    ensures { result.now ≡ drop at s.now }
{
    s.get(at..).unwrap_or_default()
}

// Whether t is label, 00, actor, 00 and counter.
fn label_after(t: &[u8]) -> bool
    ensures { result ≡ label_after t.now }
{
    let n = search::zero_at(t);
    if t.len() - n != SUFFIX_SIZE {
        return false;
    }
    let actor = wire::byte_at(t, n + 1);
    let zero = wire::byte_at(t, n + 2);
    let counter = wire::number_at(t, n + 3);
    ((1 <= n) & (n <= dots::LABEL_MOST)) & actor_ok(actor) & (zero == 0) & (1 <= counter)
}

// Whether t is 00, actor and 00.
fn actor_after(t: &[u8]) -> bool
    ensures { result ≡ actor_after t.now }
{
    let first = wire::byte_at(t, 0);
    let actor = wire::byte_at(t, 1);
    let last = wire::byte_at(t, 2);
    (t.len() == 3) & (first == 0) & actor_ok(actor) & (last == 0)
}

// Whether t is 00 and 00.
fn end_after(t: &[u8]) -> bool
    ensures { result ≡ end_after t.now }
{
    let first = wire::byte_at(t, 0);
    let last = wire::byte_at(t, 1);
    (t.len() == 2) & (first == 0) & (last == 0)
}

// Whether t follows the type byte of a key of this type.
fn after_ok(kind: KeyKind, t: &[u8]) -> bool
    ensures { result ≡ after_ok kind t.now }
{
    match kind {
        KeyKind::ClockKey | KeyKind::TombstoneKey => actor_after(t),
        KeyKind::LabelKey => label_after(t),
        KeyKind::EndKey => end_after(t),
    }
}

// The three functions that follow are apart: what they read has three types, and a function with the reading as a closure would be no plainer.

// Where the label stands, if the type has one.
fn label_span(kind: KeyKind, at: usize, len: usize) -> wire::Span
    ensures { result ≡ cond (has_label kind) (span at len) (span 0 0) }
{
    if kind.has_label() {
        wire::Span { at, len }
    } else {
        wire::Span::default()
    }
}

// The actor at a place, if the type has one.
fn actor_at(s: &[u8], kind: KeyKind, at: usize) -> u8
    ensures { result ≡ cond (has_actor kind) (byte_at s.now at) 0 }
{
    if kind.has_actor() {
        wire::byte_at(s, at)
    } else {
        0
    }
}

// The counter at a place, if the type has one.
fn counter_at(s: &[u8], kind: KeyKind, at: usize) -> u64
    requires { cond (has_label kind) (at + 8) 0 ≤ length s.now }
    ensures { result ≡ cond (has_label kind) (number_at 8 s.now at) 0 }
{
    if kind.has_label() {
        wire::number_at(s, at)
    } else {
        0
    }
}

// Bytes that may be a key, and the length of their set name: it ends at the first 00 after magic and version byte.
#[derive(Clone, Copy)]
struct Named<'a> {
    bytes: &'a [u8],
    len: usize,
    ghost named: { len ≡ name_length bytes.now },
    ghost fits: { len ≤ length bytes.now },
    ghost are_bytes: { AreBytes bytes.now },
}

impl<'a> Named<'a> {
    // The bytes with the length of their set name.
    fn new(bytes: &'a [u8]) -> Named<'a>
        ensures { result.bytes.now ≡ bytes.now }
    {
        Named {
            bytes,
            len: search::zero_at(rest(bytes, 2)),
        }
    }

    // Whether magic byte, version byte, the length of the name and the type byte are those of a key.
    fn front_ok(self, kind: KeyKind) -> bool
        ensures { result ≡ front_ok kind self.entry.bytes.now }
    {
        let magic = wire::byte_at(self.bytes, 0);
        let version = wire::byte_at(self.bytes, 1);
        let byte = wire::byte_at(self.bytes, self.len + 3);
        (magic == 2)
            & (version == 1)
            & ((1 <= self.len) & (self.len <= dots::NAME_MOST))
            & (byte == u8::from(kind))
    }

    // Whether the bytes are a key of this type.
    fn is_key(self, kind: KeyKind) -> bool
        ensures { result ≡ is_key kind self.entry.bytes.now }
    {
        let front = self.front_ok(kind);
        let after = after_ok(kind, rest(self.bytes, self.len + PREFIX_FIXED));
        front & after
    }

    // The fields of a key of this type.
    fn found_key(self, kind: KeyKind) -> KeyFields
        requires { is_key kind self.bytes.now ≡ true }
        ensures { read_as (Ok result) ≡ found_key kind self.entry.bytes.now }
    {
        let s = self.bytes;
        let n = self.len;
        let l = search::zero_at(rest(s, n + PREFIX_FIXED));
        KeyFields {
            kind,
            name: wire::Span { at: 2, len: n },
            label: label_span(kind, n + PREFIX_FIXED, l),
            actor: actor_at(s, kind, n + l + 5),
            counter: counter_at(s, kind, n + l + 7),
        }
    }
}

// Reads a key.
pub fn read_key(s: &[u8]) -> Result<KeyFields, dots::Answer>
    ensures { read_as result ≡ read_key s.now }
{
    let named = Named::new(s);
    let kind = KeyKind::try_from(wire::byte_at(s, named.len + 3))?;
    if named.is_key(kind) {
        Ok(named.found_key(kind))
    } else {
        Err(dots::Answer::BadShape)
    }
}
