// The steps that calls share: the tests of refusals but for 1, and applying a context or an add.

#![tactic(auto)]

ghost use Rattle.std.specs.Prelude.{◌≡◌, true, not, ◌∷◌, ◌+◌, ◌≤◌, ltb, length};
ghost use Rattle.std.proofs.Math.Dec.{compare_is_eq};
ghost use Rattle.wire.specs.Lists.{any, member};
ghost use Rattle.wire.specs.Bytes.{compare_bytes};
ghost use Rattle.dots.specs.Answer.{first_of};
ghost use Rattle.dots.specs.Dots.{dot_of, dot_ok, compare_dots, tombstone_most};
ghost use Rattle.dots.specs.Wire.{dots_of};
ghost use Rattle.clock.specs.Clock.{sees, row_at};
ghost use Rattle.clock.specs.Row.{window_width};
ghost use Rattle.clock.specs.Reach.{Offer, OfferWith, CanJoinContext, CanJoinWithDot};
ghost use Rattle.keys.specs.Key.{label_key_fixed};
ghost use Rattle.calls.specs.State.{tombstone_dots};
ghost use Rattle.calls.specs.Refusals.{bad_context};
ghost use Rattle.steps.specs.Tests.{passed, ahead_of, joins_tombstone, held_dots, next_tombstone, with_dot, with_seen, Grows, Tombstoned, Padded, ContextFits, TombstoneIs, TombstoneTakes, Joined, MayStore, Stored, add_tests, remove_late};

// The lengths of the store and of the output that are lent to a call, and whether refusal 1 holds. A flag, since `Told` and
// `Answers` (specs/Tests) speak of it, and refusal 1 is a row of each call's table (calls/specs/Calls) like the others.
#[derive(Clone, Copy)]
pub struct Lent {
    pub store: usize,
    pub out: usize,
    pub damage: bool,
}

// The first refusal of a table whose test holds.
pub fn refused(rows: &[(bool, dots::Answer)]) -> Result<(), dots::Answer>
    ensures { result ≡ passed (first_of rows.now) }
{
    let answer = dots::first_of(rows);
    if answer == dots::Answer::Done {
        return Ok(());
    }
    Err(answer)
}

// ---- refusal 7

// Whether a name is another than the set's. By `search::starts_with`: the loop of std's `==` is the one that was tried there and is slower.
pub fn other_set(name: &[u8], given: &[u8]) -> bool
    ensures { result ≡ not (compare_is_eq (compare_bytes given.now name.now)) }
{
    let starts = search::starts_with(given, name);
    !(starts & (given.len() == name.len()))
}

// ---- refusals 6, 8, 9 and 11
//
// Own actor and own base are two parameters: a state in their place is no plainer, since each test would read the base from the clock again; an own add reads it once
// for two of these tests and for refusal 9, a message taken in for two.

// The own base.
pub fn own_base(state: &calls::State) -> u64
    ensures { result ≡ (row_at state.now.clock.words state.now.actor.number).base }
{
    let row = clock::row_of(&state.clock.words, state.actor);
    row.base
}

// Whether the dot is of the own actor and above the own base.
pub fn dot_ahead(own: dots::Actor, base: u64, dot: dots::Dot) -> bool
    ensures { result ≡ ahead_of own base dot }
{
    (dot.actor == own) & (base < dot.counter.number)
}

// Whether some dot is.
pub fn own_ahead(own: dots::Actor, base: u64, offered: &[u8]) -> bool
    ensures { result ≡ any (ahead_of own base) (dots_of offered.now) }
{
    dots::dots_in(offered).any(|dot| dot_ahead(own, base, dot))
}

// Whether the context has the dot that an own add takes; at the largest own base there is none.
pub fn has_next(own: dots::Actor, base: u64, context: &[u8]) -> bool
    ensures { result ≡ member compare_dots (dot_of own (base + 1)) (dots_of context.now) }
{
    if base == u64::MAX {
        return false;
    }
    contexts::has_dot(
        context,
        dots::Dot {
            actor: own,
            counter: dots::Counter { number: base + 1 },
        },
    )
}

// Whether the dot was seen and is not in the tombstone.
fn joins_tombstone(
    words: &clock::Words,
    tombstone: contexts::AscendingDots<'_>,
    dot: dots::Dot,
) -> bool
    ensures { result ≡ joins_tombstone words.now (dots_of tombstone.entry.dots.now) dot }
{
    clock::sees(words, dot) && !tombstone.holds(dot)
}

// How many dots of a context would join the tombstone.
fn tombstone_growth(
    words: &clock::Words,
    tombstone: contexts::AscendingDots<'_>,
    context: &[u8],
) -> usize
    ensures { Grows words.now (dots_of tombstone.entry.dots.now) context.now result }
{
    dots::dots_in(context)
        .filter(|dot| joins_tombstone(words, tombstone, *dot))
        .count()
}

// Whether the bytes are no context.
pub fn context_bad(context: &[u8]) -> bool
    ensures { result ≡ bad_context context.now }
{
    let rule = contexts::context_ok(context);
    !((context.len() % dots::DOT_SIZE == 0) & rule)
}

// Refusal 11: whether the tombstone would pass 128 dots.
fn tombstone_full(state: &calls::State, context: &[u8]) -> bool
    requires { Tombstoned state.now.tombstone.bytes state.now.tombstone.count × ContextFits context.now }
    ensures { result ≡ ltb tombstone_most (length (next_tombstone state.now (dots_of context.now))) }
{
    let count = state.tombstone.count;
    if count + context.len() / dots::DOT_SIZE <= dots::TOMBSTONE_MOST {
        return false;
    }
    let held = contexts::AscendingDots {
        dots: &state.tombstone.bytes[..count * dots::DOT_SIZE],
    };
    dots::TOMBSTONE_MOST < count + tombstone_growth(&state.clock.words, held, context)
}

// The refusals 10, 11 and 13 of a remove; short says whether the output is shorter than its message.
pub fn remove_late(state: &calls::State, context: &[u8], short: bool) -> Result<(), dots::Answer>
    requires { Offer window_width state.now.clock.words (dots_of context.now) × Tombstoned state.now.tombstone.bytes state.now.tombstone.count × ContextFits context.now }
    ensures { result ≡ passed (first_of (remove_late state.now (dots_of context.now) short)) }
{
    let close = clock::near_context(&state.clock.words, context);
    let full = tombstone_full(state, context);
    refused(&[
        (!close, dots::Answer::TooFar),
        (full, dots::Answer::TombstoneFull),
        (short, dots::Answer::OutputShort),
    ])
}

// Whether a store of so many bytes has no room for the key of a label.
pub fn crowded(state: &calls::State, size: usize, label: &[u8]) -> bool
    requires { state.now.used + (state.now.name.len + length label.now + label_key_fixed) ≤ 18446744073709551615 }
    ensures { result ≡ ltb size (state.now.used + (state.now.name.len + length label.now + label_key_fixed)) }
{
    size < state.used + (state.name.len + label.len() + keys::LABEL_KEY_FIXED)
}

// The refusals 10 to 13 of an add; crowded says whether its key has no room in the store, short as above.
pub fn add_late(
    state: &calls::State,
    context: &[u8],
    dot: dots::Dot,
    crowded: bool,
    short: bool,
) -> Result<(), dots::Answer>
    requires { OfferWith window_width state.now.clock.words context.now dot × Tombstoned state.now.tombstone.bytes state.now.tombstone.count × ContextFits context.now }
    ensures { result ≡ passed (first_of (add_tests state.now.clock.words (tombstone_dots state.now) dot (dots_of context.now) crowded short)) }
{
    let close = clock::near_with_dot(&state.clock.words, context, dot);
    let seen = clock::sees(&state.clock.words, dot);
    refused(&[
        (!close, dots::Answer::TooFar),
        (tombstone_full(state, context), dots::Answer::TombstoneFull),
        (!seen & crowded, dots::Answer::StoreFull),
        (short, dots::Answer::OutputShort),
    ])
}

// ---- applying a context

// Puts a dot that was seen into the tombstone, once.
fn tombstone_with_dot(words: &clock::Words, tombstone: &mut calls::Tombstone, dot: dots::Dot)
    requires { Padded tombstone.old.bytes tombstone.old.count × (dot_ok dot ≡ true) × (length (with_dot words.now dot (held_dots tombstone.old.bytes tombstone.old.count)) ≤ tombstone_most) }
    ensures { TombstoneIs tombstone.new.bytes tombstone.new.count (with_dot words.now dot (held_dots tombstone.old.bytes tombstone.old.count)) }
{
    if clock::sees(words, dot) {
        tombstone.count = contexts::insert_dot(&mut tombstone.bytes, tombstone.count, dot);
    }
}

// Puts the dots of a context that were seen into the tombstone.
fn tombstone_with_context(words: &clock::Words, tombstone: &mut calls::Tombstone, context: &[u8])
    requires { TombstoneTakes words.now tombstone.old.bytes tombstone.old.count context.now }
    ensures { TombstoneIs tombstone.new.bytes tombstone.new.count (with_seen words.now (dots_of context.now) (held_dots tombstone.old.bytes tombstone.old.count)) }
{
    for dot in dots::dots_in(context) {
        tombstone_with_dot(words, tombstone, dot);
    }
}

// Applies a context: its dots that were seen join the tombstone, all of them join the clock. Words and tombstone are two parameters: changing
// a copy of the whole state in place was tried and is slower (docs/DECISIONS.md, row "parts of a state").
pub fn join_context(words: &mut clock::Words, tombstone: &mut calls::Tombstone, context: &[u8])
    requires { TombstoneTakes words.old tombstone.old.bytes tombstone.old.count context.now × CanJoinContext window_width words.old context.now }
    ensures { Joined words.old tombstone.old context.now (dots_of context.now) words.new tombstone.new }
{
    tombstone_with_context(words, tombstone, context);
    clock::join_context(words, context);
}

// The same, and one more dot joins the clock.
pub fn join_add(
    words: &mut clock::Words,
    tombstone: &mut calls::Tombstone,
    context: &[u8],
    dot: dots::Dot,
)
    requires { TombstoneTakes words.old tombstone.old.bytes tombstone.old.count context.now × CanJoinWithDot window_width words.old context.now dot }
    ensures { Joined words.old tombstone.old context.now (dot ∷ dots_of context.now) words.new tombstone.new }
{
    tombstone_with_context(words, tombstone, context);
    clock::join_with_dot(words, context, dot);
}

// Puts the key of an add in its place, unless its dot was seen. The keys of its label do not stand in the first `low` bytes. Returns the used length after it.
pub fn store_add(
    state: &calls::State,
    store: &mut [u8],
    label: &[u8],
    dot: dots::Dot,
    low: usize,
) -> usize
    requires { MayStore state.now (sees state.now.clock.words dot) store.old label.now low }
    ensures { Stored state.now (sees state.now.clock.words dot) store.old label.now dot store.new result }
{
    let seen = clock::sees(&state.clock.words, dot);
    if seen {
        return state.used;
    }
    let name = state.name.bytes;
    store::insert_entry(store, state.used, &name[..state.name.len], label, dot, low)
}
