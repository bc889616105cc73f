// Messages in bytes: read into answer and places of the fields, and written.

#![tactic(auto)]

ghost use Rattle.std.specs.Prelude.{◌≡◌, ◌∷◌, ◌+◌, ◌≤◌, ◌<◌, length};
ghost use Rattle.wire.specs.Bytes.{byte_at, put_at};
ghost use Rattle.dots.specs.Message.{add, remove};
ghost use Rattle.dots.specs.Names.{name_most};
ghost use Rattle.dots.specs.Wire.{dot_bytes, dots_of, dot_size};
ghost use Rattle.messages.specs.Message.{add_kind, remove_kind, kind_byte, Known, names_ok, dots_ok, front_fixed};
ghost use Rattle.messages.specs.Read.{counted_at, dots_counted_at, add_layout, remove_layout, layout_of, mark_ok, version_ok, shape_ok, name_at, message_at, read_of, read_as};
ghost use Rattle.messages.specs.Layouts.{Within, own_dot};
ghost use Rattle.messages.specs.Places.{laid_in};
ghost use Rattle.messages.specs.Write.{WholeContext, FrontPut, ContextPut, AddFits, RemoveFits, Wrote};

mod places;

use places::Places;

// Bytes of a remove beside name and context: mark, version, kind, name length; number of dots.
pub const REMOVE_FIXED: usize = 8;
// Bytes of an add beside name, label and context: label length and dot too.
pub const ADD_FIXED: usize = REMOVE_FIXED + 1 + dots::DOT_SIZE;

// The kinds of messages.
#[derive(Clone, Copy, PartialEq, Eq)]
pub enum MessageKind {
    Add,
    Remove,
}

// What a message says: where name, label and context stand, and an add's dot; what a remove lacks is 0.
// Not an enum with fields: `read_of` (specs/Read) and ptl_read_message of the C interface have all fields of every message.
#[derive(Clone, Copy)]
pub struct MessageFields {
    pub kind: MessageKind,
    pub name: wire::Span,
    pub label: wire::Span,
    pub dot: dots::Dot,
    pub context: wire::Span,
}

// ---- the kinds

// The byte of a kind.
impl From<MessageKind> for u8 {
    ghost from_gives = { λ kind byte. byte ≡ kind_byte kind };

    fn from(kind: MessageKind) -> u8 {
        match kind {
            MessageKind::Add => b'a',
            MessageKind::Remove => b'r',
        }
    }
}

// The kind of a kind byte; a byte that is none is refused.
impl TryFrom<u8> for MessageKind {
    type Error = dots::Answer;

    ghost try_from_gives = { Known };

    fn try_from(byte: u8) -> Result<Self, dots::Answer> {
        match byte {
            b'a' => Ok(MessageKind::Add),
            b'r' => Ok(MessageKind::Remove),
            _ => Err(dots::Answer::BadShape),
        }
    }
}

// ---- where the fields are, by the length bytes

// The field whose length byte stands at a place.
pub fn counted_at(s: &[u8], at: usize) -> wire::Span
    requires { at ≤ 1024 }
    ensures { (result ≡ counted_at s.now at) × (result.at ≡ at + 1) × (result.len < 256) }
{
    let len = wire::size_at(s, at);
    wire::Span { at: at + 1, len }
}

// The dots whose number stands at a place. One function with the field above would be no plainer: with the size of what is counted as a
// parameter, its clause would name neither `counted_at` nor `dots_counted_at`, of which the layouts in specs/Read speak.
pub fn dots_counted_at(s: &[u8], at: usize) -> wire::Span
    requires { at ≤ 1024 }
    ensures { (result ≡ dots_counted_at s.now at) × (result.at ≡ at + 1) × (result.len ≤ 2295) }
{
    let count = wire::size_at(s, at);
    wire::Span {
        at: at + 1,
        len: dots::DOT_SIZE * count,
    }
}

fn add_places(s: &[u8]) -> Places
    requires { add_kind ≡ byte_at s.now 5 }
    ensures { laid_in result ≡ add_layout s.now }
{
    let name = counted_at(s, 6);
    let label = counted_at(s, name.at + name.len);
    let dot = label.at + label.len;
    let context = dots_counted_at(s, dot + dots::DOT_SIZE);
    Places {
        kind: MessageKind::Add,
        name,
        label,
        dot,
        context,
    }
}

fn remove_places(s: &[u8]) -> Places
    requires { remove_kind ≡ byte_at s.now 5 }
    ensures { laid_in result ≡ remove_layout s.now }
{
    let name = counted_at(s, 6);
    let context = dots_counted_at(s, name.at + name.len);
    Places {
        kind: MessageKind::Remove,
        name,
        label: wire::Span::default(),
        dot: 0,
        context,
    }
}

// Where the fields of a message of this kind are.
fn places_of(s: &[u8], kind: MessageKind) -> Places
    requires { kind_byte kind ≡ byte_at s.now 5 }
    ensures { laid_in result ≡ layout_of s.now }
{
    match kind {
        MessageKind::Add => add_places(s),
        MessageKind::Remove => remove_places(s),
    }
}

// ---- the answer

pub fn mark_ok(s: &[u8]) -> bool
    ensures { result ≡ mark_ok s.now }
{
    let first = wire::byte_at(s, 0);
    let second = wire::byte_at(s, 1);
    let third = wire::byte_at(s, 2);
    (5 <= s.len()) & ((first == b'P') & ((second == b'T') & (third == b'L')))
}

// Not one function with image's: the versions of messages and of images are two numbers, though both are 1.
fn version_ok(s: &[u8]) -> bool
    ensures { result ≡ version_ok s.now }
{
    wire::size_at(s, 3) * 256 + wire::size_at(s, 4) == 1
}

// Whether the fields end where the bytes do.
fn shape_ok(s: &[u8], l: Places) -> bool
    ensures { result ≡ shape_ok s.now (laid_in l) }
{
    l.context.at + l.context.len == s.len()
}

// Whether set name and label keep their rules; an add has a label that prints.
fn names_ok(s: &[u8], l: Places) -> bool
    ensures { result ≡ names_ok (name_at s.now (laid_in l)) (message_at s.now (laid_in l)) }
{
    let name = dots::name_ok(wire::part(s, l.name.at, l.name.len));
    match l.kind {
        MessageKind::Add => name & dots::label_prints(wire::part(s, l.label.at, l.label.len)),
        MessageKind::Remove => name,
    }
}

// Whether dot and context keep their rules, and the own dot is not in the context.
fn dots_ok(s: &[u8], l: Places) -> bool
    requires { Within s.now (laid_in l) }
    ensures { result ≡ dots_ok (message_at s.now (laid_in l)) }
{
    let context = wire::part(s, l.context.at, l.context.len);
    let rule = contexts::context_ok(context);
    match l.kind {
        MessageKind::Add => {
            let own = dots::dot_at(s, l.dot);
            dots::dot_ok(own) & (rule & !contexts::has_dot(context, own))
        }
        MessageKind::Remove => rule,
    }
}

// ---- reading

// An add's own dot, and the zero dot of a remove.
fn own_dot(s: &[u8], l: Places) -> dots::Dot
    requires { Within s.now (laid_in l) }
    ensures { result ≡ own_dot s.now (laid_in l) }
{
    match l.kind {
        MessageKind::Add => dots::dot_at(s, l.dot),
        MessageKind::Remove => dots::Dot::default(),
    }
}

// Reads a message. The refusals are tested in the table's order.
pub fn read_message(s: &[u8]) -> Result<MessageFields, dots::Answer>
    ensures { read_as result ≡ read_of s.now }
{
    if !mark_ok(s) {
        return Err(dots::Answer::NoMark);
    }
    if !version_ok(s) {
        return Err(dots::Answer::BadVersion);
    }
    let l = places_of(s, MessageKind::try_from(wire::byte_at(s, 5))?);
    if !shape_ok(s, l) {
        return Err(dots::Answer::BadShape);
    }
    if !names_ok(s, l) {
        return Err(dots::Answer::BadName);
    }
    if !dots_ok(s, l) {
        return Err(dots::Answer::BadDot);
    }
    Ok(MessageFields {
        kind: l.kind,
        name: l.name,
        label: l.label,
        dot: own_dot(s, l),
        context: l.context,
    })
}

// ---- writing

// Puts a count and what it counts.
pub fn put_counted(out: &mut [u8], at: usize, count: u8, field: &[u8]) -> usize
    requires { at + 1 + length field.now ≤ length out.old }
    ensures { (result ≡ at + 1 + length field.now) × (out.new ≡ put_at out.old at (count ∷ field.now)) }
{
    let first = [count];
    let next = moves::put(out, at, &first);
    moves::put(out, next, field)
}

// Puts mark, version 1, kind and set name at the front. The kind is a byte, since an image gives its own, which no message has.
pub fn put_front(out: &mut [u8], kind: u8, name: &[u8]) -> usize
    requires { (length name.now ≤ name_most) × (length name.now + front_fixed ≤ length out.old) }
    ensures { FrontPut kind name.now out.old out.new result }
{
    let head = [b'P', b'T', b'L', 0, 1, kind];
    let at = moves::put(out, 0, &head);
    put_counted(out, at, name.len() as u8, name)
}

// Puts a dot in nine bytes.
fn put_dot(out: &mut [u8], at: usize, dot: dots::Dot) -> usize
    requires { at + dot_size ≤ length out.old }
    ensures { (result ≡ at + dot_size) × (out.new ≡ put_at out.old at (dot_bytes dot)) }
{
    let bytes = dots::dot_bytes(dot);
    moves::put(out, at, &bytes)
}

// Puts the number of dots of a context, and the context.
fn put_context(out: &mut [u8], at: usize, context: &[u8]) -> usize
    requires { WholeContext context.now × (at + 1 + length context.now ≤ length out.old) }
    ensures { ContextPut context.now at out.old out.new result }
{
    put_counted(out, at, (context.len() / dots::DOT_SIZE) as u8, context)
}

// Writes an add message at the front of out. Returns its length.
pub fn write_add(name: &[u8], label: &[u8], dot: dots::Dot, context: &[u8], out: &mut [u8]) -> usize
    requires { AddFits name.now label.now context.now (length out.old) }
    ensures { Wrote name.now (add label.now dot (dots_of context.now)) out.old out.new result }
{
    let label_at = put_front(out, u8::from(MessageKind::Add), name);
    let dot_at = put_counted(out, label_at, label.len() as u8, label);
    let context_at = put_dot(out, dot_at, dot);
    put_context(out, context_at, context)
}

// Writes a remove message at the front of out. Returns its length.
pub fn write_remove(name: &[u8], context: &[u8], out: &mut [u8]) -> usize
    requires { RemoveFits name.now context.now (length out.old) }
    ensures { Wrote name.now (remove (dots_of context.now)) out.old out.new result }
{
    let context_at = put_front(out, u8::from(MessageKind::Remove), name);
    put_context(out, context_at, context)
}
