// The label store in a lent buffer: label keys end to end, read, compared and moved as raw bytes.

#![tactic(auto)]

ghost use Rattle.std.specs.Prelude.{◌≡◌, ◌+◌, ◌-◌, ◌<◌, ◌≤◌, Bool, true, None, Some, length, take, if◌then◌else◌};
ghost use Rattle.wire.specs.Lists.{is_lt};
ghost use Rattle.std.specs.Iterator.{YieldsFirstRef, item_count};
ghost use Rattle.wire.specs.Bytes.{Bytes, compare_bytes, zero_at, starts_with, put_at};
ghost use Rattle.dots.specs.Names.{name_ok, label_ok, name_most};
ghost use Rattle.dots.specs.Entries.{entry};
ghost use Rattle.keys.specs.Entry.{prefix};
ghost use Rattle.store.specs.Cut.{key_length, keys_of, key_dot};
ghost use Rattle.store.specs.Valid.{used_ok, store_most};
ghost use Rattle.store.specs.Place.{length_while, Tests, place_in, LabelPassed, PlacePast};
ghost use Rattle.store.specs.Place.{KeysJudged, StoreJudged, IsSpanFrom, IsSpan, IsStretch};
ghost use Rattle.store.specs.Place.{LabelStartPut, KeyPut, inserted_key, EntryHasPlace, EntryInserted};
ghost use Rattle.store.specs.Front.{after_length, front_length, LengthIs, part_to, TailIn, tail_of};
ghost use Rattle.store.specs.Pass.{prefix_most, key_most, tail_most, name_in, IsStart, IsPrefix, AreBytes, MarkTells, LabelIs, dot_seen, AfterIs, Passing, NextIs, LowAfter};
ghost use Rattle.keys.specs.Key.{label_key_fixed, prefix_fixed, suffix_size};

// Bytes of a store, at most; of what a set's keys begin with, of what a label's keys begin with, of a key.
pub const STORE_MOST: usize = 65536;

// Bytes of a key from its actor on: actor, 00, counter.
const DOT_TAIL: usize = keys::SUFFIX_SIZE - 1;

const PREFIX_MOST: usize = dots::NAME_MOST + keys::PREFIX_FIXED;

const LABEL_START_MOST: usize = PREFIX_MOST + dots::LABEL_MOST + 1;

const KEY_MOST: usize = dots::NAME_MOST + dots::LABEL_MOST + keys::LABEL_KEY_FIXED;

// The bytes of a key from its label on: where they begin and end among the keys, how long the label is, the mark of its closing 00 in the
// label's first 8 bytes (0 where it is not kept), and the numbers in the first 8 bytes and in the next 4.
#[derive(Clone, Copy)]
struct KeyTail {
    from: usize,
    end: usize,
    len: usize,
    mark: u64,
    word: u64,
    half: u64,
}

// How long a label is, and the mark of its closing 00 as above.
#[derive(Clone, Copy)]
struct LabelEnd {
    len: usize,
    mark: u64,
}

// What a set's keys begin with, for comparing up to 8 bytes at once: how long it is, which bits of a word count, and what they are.
#[derive(Clone, Copy)]
struct Prefix {
    len: usize,
    mask: u64,
    pattern: u64,
}

// ---- validity, place, insertion, stretch

// Puts what the label keys of a set begin with at the front of out. Returns its length.
fn put_prefix(out: &mut [u8], name: &[u8]) -> usize
    requires { length name.now + prefix_fixed ≤ length out.old }
    ensures { (result ≡ length name.now + prefix_fixed) × (out.new ≡ put_at out.old 0 (prefix name.now)) }
{
    keys::put_front(out, name, u8::from(keys::KeyKind::LabelKey))
}

// The number in the first 8 bytes of a label, with 0s after a shorter one. It only spares comparisons, so nothing is promised of it.
fn label_number(label: &[u8]) -> u64 {
    let mut bytes = [0u8; 8];
    let k = label.len().min(8);
    moves::put(&mut bytes, 0, &label[..k]);
    wire::number_at(&bytes, 0)
}

// How long label, 00, actor, 00 and counter are at the front of what follows a prefix, if they keep their rules and the dot is seen.
fn after_length(words: &clock::Words, t: &[u8]) -> Option<usize>
    ensures { LengthIs (after_length words.now t.now) result }
{
    let n = search::zero_at(t);
    if t.len() < n + keys::SUFFIX_SIZE {
        return None;
    }
    let number = t[n + 1];
    let ended = t[n + 2] == 0;
    let event = wire::number_at(t, n + 3);
    let shaped = ((1 <= n) & (n <= dots::LABEL_MOST))
        & ((1 <= number) & (number <= dots::ACTOR_MOST))
        & ended
        & (1 <= event);
    if !shaped {
        return None;
    }
    let dot = dots::Dot {
        actor: dots::Actor { number: number },
        counter: dots::Counter { number: event },
    };
    if clock::sees(words, dot) {
        return Some(n + keys::SUFFIX_SIZE);
    }
    None
}

// How long the key at the front is, if it is a label key of the set whose dot is seen. `start` is what the set's keys begin with.
fn front_length(start: &[u8], words: &clock::Words, s: &[u8]) -> Option<usize>
    requires { IsStart start.now }
    ensures { LengthIs (front_length (name_in start.now) words.now s.now) result }
{
    if !search::starts_with(start, s) {
        return None;
    }
    let at = start.len();
    let len = after_length(words, &s[at..])?;
    Some(at + len)
}

// One of two numbers, which the compiler picks without a branch: with a branch in `ascends` judging was slower.
fn pick(first: bool, a: u64, b: u64) -> u64
    ensures { result ≡ (if first then a else b) }
{
    if first { a } else { b }
}

// Whether the bytes from a place to another, without the first 8, come before others.
fn lower_later(keys: &[u8], label: usize, at: usize, from: usize, end: usize) -> bool
    requires { (label + 8 ≤ at) × (at ≤ length keys.now) × (from + 8 ≤ end) × (end ≤ length keys.now) }
    ensures { result ≡ is_lt (compare_bytes (part_to keys.now (label + 8) at) (part_to keys.now (from + 8) end)) }
{
    let after = label + 8;
    let next = from + 8;
    search::lower(&keys[after..at], &keys[next..end])
}

// Whether a tail comes before another. The numbers in the first 8 bytes and in the next 4 of both decide unless they are equal.
fn ascends(keys: &[u8], last: KeyTail, next: KeyTail) -> bool
    requires { TailIn keys.now last × (TailIn keys.now next × (next.from < next.end)) }
    ensures { result ≡ is_lt (compare_bytes (tail_of keys.now last) (tail_of keys.now next)) }
{
    let same = last.word == next.word;
    let low = pick(same, last.half, last.word);
    let high = pick(same, next.half, next.word);
    if low != high {
        return low < high;
    }
    if last.from == last.end {
        return true;
    }
    lower_later(keys, last.from, last.end, next.from, next.end)
}

// ---- a key with room for the longest after it

// The label at the front of t. A label that ends in its first 8 bytes is mostly as long as the last key's: its mark is compared, and no length waits for it.
fn label_end(t: &[u8], last: KeyTail) -> Option<LabelEnd>
    requires { (tail_most ≤ length t.now) × MarkTells last.mark last.len }
    ensures { LabelIs (zero_at t.now) result }
{
    let marks = search::zero_marks(wire::low_at(t, 0));
    if marks == 0 {
        let len = search::zero_near(t, 0);
        if dots::LABEL_MOST < len {
            return None;
        }
        return Some(LabelEnd { len, mark: 0 });
    }
    let mark = search::lowest_mark(marks);
    if mark != last.mark {
        let len = search::mark_place(marks);
        if len == 0 {
            return None;
        }
        return Some(LabelEnd { len, mark });
    }
    Some(LabelEnd {
        len: last.len,
        mark,
    })
}

// Whether actor, 00 and counter from a place on are a dot that the clock sees. Actor and 00 are one number, from 1 to 16.
fn dot_seen(words: &clock::Words, t: &[u8], at: usize) -> bool
    requires { at + (suffix_size - 1) ≤ length t.now }
    ensures { result ≡ dot_seen words.now t.now at }
{
    let row = wire::low_pair_at(t, at).wrapping_sub(1);
    if dots::ACTOR_MOST as u64 <= row {
        return false;
    }
    clock::sees_event(words, row, wire::number_at(t, at + 2))
}

// The label at the front of what follows a prefix, where 00, actor, 00 and counter after it keep their rules and the dot is seen.
fn seen_label(words: &clock::Words, t: &[u8], last: KeyTail) -> Option<LabelEnd>
    requires { (tail_most ≤ length t.now) × MarkTells last.mark last.len }
    ensures { AfterIs (after_length words.now t.now) result }
{
    let label = label_end(t, last)?;
    dot_seen(words, t, label.len + 1).then_some(label)
}

// Whether bytes with room for the longest key begin with a set's prefix.
fn begins(start: &[u8], prefix: Prefix, s: &[u8]) -> bool
    requires { IsPrefix start.now prefix × (tail_most ≤ length s.now) }
    ensures { result ≡ starts_with start.now s.now }
{
    if prefix.len <= 8 {
        return wire::low_at(s, 0) & prefix.mask == prefix.pattern;
    }
    search::starts_near(start, s)
}

// What a set's keys begin with, for comparing.
fn prefix_of(start: &[u8]) -> Prefix
    requires { length start.now ≤ prefix_most }
    ensures { IsPrefix start.now result }
{
    let len = start.len();
    let mut bytes = [0u8; PREFIX_MOST];
    moves::put(&mut bytes, 0, start);
    let pattern = wire::low_at(&bytes, 0);
    if len < 8 {
        return Prefix {
            len,
            mask: (1u64 << (8 * len)) - 1,
            pattern,
        };
    }
    Prefix {
        len,
        mask: u64::MAX,
        pattern,
    }
}

// What the pass over a store reads: what the set's keys begin with, and that for comparing, the clock, and the keys.
#[derive(Clone, Copy)]
struct Pass<'a> {
    start: &'a [u8],
    prefix: Prefix,
    words: &'a clock::Words,
    keys: &'a [u8],
    ghost is_start: { IsStart start.now },
    ghost is_prefix: { IsPrefix start.now prefix },
    ghost are_bytes: { AreBytes keys.now },
}

impl<'a> Pass<'a> {
    // The next key of a pass, with room for the longest key. `any_key` stays beside it: one reader for both made judging 3 to 4 % slower.
    fn roomy_key(self, last: KeyTail) -> Option<KeyTail>
        requires { Passing (name_in self.start.now) self.words.now self.keys.now last × (last.end + key_most ≤ length self.keys.now) }
        ensures { NextIs (name_in self.entry.start.now) self.entry.words.now self.entry.keys.now (last.end + 1) result }
    {
        let Pass {
            start,
            prefix,
            words,
            keys,
            ..
        } = self;
        let len = prefix.len;
        let at = last.end;
        let tails = &keys[len..];
        let tail = &tails[at..];
        let label = seen_label(words, tail, last)?;
        if !begins(start, prefix, &keys[at..]) {
            return None;
        }
        let from = at + len;
        let end = (at + (len + keys::SUFFIX_SIZE)) + label.len;
        let next = KeyTail {
            from,
            end,
            len: label.len,
            mark: label.mark,
            word: wire::number_at(tail, 0),
            half: wire::half_at(tail, 8),
        };
        if !ascends(keys, last, next) {
            return None;
        }
        Some(next)
    }

    // The keys of a pass up to one that ends at `stop` or past it, each with room for the longest key.
    fn judge_run(self, first: KeyTail, stop: usize) -> Option<KeyTail>
        requires { Passing (name_in self.start.now) self.words.now self.keys.now first × (stop + key_most ≤ length self.keys.now + 1) }
        ensures { NextIs (name_in self.entry.start.now) self.entry.words.now self.entry.keys.now stop result }
    {
        let mut last = first;
        // Where the next key begins is known only when this one has been read, so that there is nothing to iterate over.
        while last.end < stop {
            last = self.roomy_key(last)?;
        }
        Some(last)
    }

    // The next key of a pass, wherever it stands.
    fn any_key(self, last: KeyTail) -> Option<KeyTail>
        requires { Passing (name_in self.start.now) self.words.now self.keys.now last × (last.end < length self.keys.now) }
        ensures { NextIs (name_in self.entry.start.now) self.entry.words.now self.entry.keys.now (last.end + 1) result }
    {
        let Pass {
            start,
            words,
            keys,
            ..
        } = self;
        let at = last.end;
        let size = front_length(start, words, &keys[at..])?;
        let from = at + start.len();
        let end = at + size;
        let next = KeyTail {
            from,
            end,
            len: 0,
            mark: 0,
            word: wire::number_at(keys, from),
            half: wire::half_at(keys, from + 8),
        };
        let was = last.from;
        if !search::lower(&keys[was..at], &keys[from..end]) {
            return None;
        }
        Some(next)
    }

    // The keys of a pass from the last one read to the end. If they are sound, so are all, and `low` is told.
    fn judge_rest(self, first: KeyTail, low: usize) -> Option<usize>
        requires { Passing (name_in self.start.now) self.words.now self.keys.now first }
        ensures { result ≡ (if used_ok (name_in self.entry.start.now) self.entry.words.now self.entry.keys.now then Some low else None) }
    {
        let mut last = first;
        // As in `judge_run`, there is nothing to iterate over.
        while last.end < self.keys.len() {
            last = self.any_key(last)?;
        }
        Some(low)
    }
}

// ---- the pass

// Where a run of keys stops that begins at a place: a part of the keys further on, at least 128 bytes, or where there is no more room for the longest key.
fn run_end(at: usize, size: usize) -> usize
    requires { (at + key_most ≤ size) × (size ≤ store_most) }
    ensures { (at < result) × (result + key_most ≤ size + 1) }
{
    let stop = at + (size / 32 + 128);
    let last = size - (KEY_MOST - 1);
    stop.min(last)
}

// How many bytes come before all keys of a label, as far as is known: those up to the end of the last key, if all up to where its run began do and it does.
// `wanted` is the label's number: where that of the last key is above, the key is.
fn low_after(keys: &[u8], label: &[u8], wanted: u64, last: KeyTail, low: usize, at: usize) -> usize
    requires { TailIn keys.now last }
    ensures { LowAfter keys.now label.now last low result }
{
    if (low != at) | (wanted < last.word) {
        return low;
    }
    let from = last.from;
    let end = last.end;
    if search::lower(&keys[from..end], label) {
        return end;
    }
    low
}

// Whether bytes are label keys of the set end to end, ascending, each dot seen, and how many bytes come before all keys of a label.
// The keys begin alike, so that their order is that of what follows `start`. After each run the last key is compared with the label.
fn judge_keys(start: &[u8], words: &clock::Words, keys: &[u8], label: &[u8]) -> Option<usize>
    requires { IsStart start.now × (length keys.now ≤ store_most) }
    ensures { KeysJudged (name_in start.now) words.now keys.now label.now result }
{
    let prefix = prefix_of(start);
    let pass = Pass {
        start,
        prefix,
        words,
        keys,
    };
    let wanted = label_number(label);
    // Before the first key an empty tail, and no Option: that would be no plainer, as each key would be asked whether it is the first.
    let mut last = KeyTail {
        from: 0,
        end: 0,
        len: 0,
        mark: 0,
        word: 0,
        half: 0,
    };
    let mut low = 0;
    // As in `judge_run`, there is nothing to iterate over.
    while last.end + KEY_MOST <= keys.len() {
        let at = last.end;
        let stop = run_end(at, keys.len());
        let next = pass.judge_run(last, stop)?;
        low = low_after(keys, label, wanted, next, low, at);
        last = next;
    }
    pass.judge_rest(last, low)
}

// Whether the store is undamaged: its length and used length, and one pass over the keys, which tells how many bytes come before all keys of a label.
// The pass asks a copy of the clock on the stack.
pub fn judge(
    name: &[u8],
    words: &clock::Words,
    store: &[u8],
    used: usize,
    label: &[u8],
) -> Option<usize>
    requires { name_ok name.now ≡ true }
    ensures { StoreJudged name.now words.now store.now used label.now result }
{
    if STORE_MOST < store.len() {
        return None;
    }
    if store.len() < used {
        return None;
    }
    if used == 0 {
        return Some(0);
    }
    let mut start = [0; PREFIX_MOST];
    let n = put_prefix(&mut start, name);
    let here = *words;
    judge_keys(&start[..n], &here, &store[..used], label)
}

// How long the key at the front of s is, by its label's closing 00; at most all of s.
pub fn key_length(n: usize, s: &[u8]) -> usize
    requires { n ≤ name_most }
    ensures { result ≡ key_length n s.now }
{
    let at = n + keys::PREFIX_FIXED;
    if s.len() < at {
        return s.len();
    }
    let len = at + search::zero_at(&s[at..]) + keys::SUFFIX_SIZE;
    if s.len() < len {
        return s.len();
    }
    len
}

// Keys end to end, of a set whose name has n bytes, from the first on.
#[derive(Clone, Copy)]
struct Keys<'a> {
    n: usize,
    rest: &'a [u8],
    ghost short: { n ≤ name_most },
}

impl<'a> Iterator for Keys<'a> {
    type Item = &'a [u8];

    ghost next_gives = { YieldsFirstRef (λ s. keys_of s.n s.rest.now) };

    ghost remaining = { item_count (λ s. keys_of s.n s.rest.now) };

    // In line: with a call, a lookup of a label with thousands of keys took 1.1 to 1.2 times as long.
    #[inline(always)]
    fn next(&mut self) -> Option<&'a [u8]> {
        let rest = self.rest;
        if rest.is_empty() {
            return None;
        }
        let len = key_length(self.n, rest);
        self.rest = &rest[len..];
        Some(&rest[..len])
    }
}

// How many bytes the keys at the front take that a walk goes past. Raw bytes are compared, and nothing is decoded.
fn walk_past<F: Fn(&[u8]) -> bool>(n: usize, keys: &[u8], passes: F) -> usize
    requires short { n ≤ name_most }
    requires callable { F.IsAlwaysCallable passes }
    ensures walked { (test : Bytes → Bool) → Tests (F.post passes) test → result ≡ length_while test (keys_of n keys.now) }
    ensures within { result ≤ length keys.now }
{
    let mut len = 0;
    for key in (Keys { n, rest: keys }) {
        if !passes(key) {
            return len;
        }
        len += key.len();
    }
    len
}

// Where a key goes in keys end to end, the first `low` bytes of which come before it.
fn place(n: usize, keys: &[u8], key: &[u8], low: usize) -> usize
    requires { (n ≤ name_most) × PlacePast n keys.now key.now low }
    ensures { (result ≡ place_in key.now (keys_of n keys.now)) × (result ≤ length keys.now) }
{
    low + walk_past(n, &keys[low..], |k| search::lower(k, key))
}

// Puts what the keys of a label begin with at the front of out. Returns its length.
fn put_label_start(out: &mut [u8], name: &[u8], label: &[u8]) -> usize
    requires { length name.now + length label.now + 5 ≤ length out.old }
    ensures { LabelStartPut name.now label.now out.old out.new result }
{
    let label_at = put_prefix(out, name);
    let end = moves::put(out, label_at, label);
    let zero = [0];
    moves::put(out, end, &zero)
}

// Puts the key of an entry at the front of out. Returns its length.
fn put_key(out: &mut [u8], name: &[u8], label: &[u8], dot: dots::Dot) -> usize
    requires { length name.now + length label.now + label_key_fixed ≤ length out.old }
    ensures { KeyPut name.now (entry label.now dot) out.old out.new result }
{
    let at = put_label_start(out, name, label);
    let actor = [dot.actor.number, 0];
    let next = moves::put(out, at, &actor);
    let counter = wire::number_bytes(dot.counter.number);
    moves::put(out, next, &counter)
}

// Puts a key in its place among the first `used` bytes, of which the first `low` come before it; those from there on move up.
// `used` stays beside the store: no heap, and the key goes into the bytes past the used ones, which a slice of these would not have.
fn insert_key(store: &mut [u8], used: usize, n: usize, key: &[u8], low: usize)
    requires { (n ≤ name_most) × (used + length key.now ≤ length store.old) × PlacePast n (take used store.old) key.now low }
    ensures { store.new ≡ inserted_key n store.old used key.now }
{
    let at = place(n, &store[..used], key, low);
    moves::insert_piece(store, used, at, key);
}

// Puts the key of an entry in its place, which is not among the first `low` bytes; the used bytes from there on move up, and the rest keeps its values. Returns the new used length.
pub fn insert_entry(
    store: &mut [u8],
    used: usize,
    name: &[u8],
    label: &[u8],
    dot: dots::Dot,
    low: usize,
) -> usize
    requires { EntryHasPlace name.now label.now store.old used low }
    ensures { EntryInserted name.now (entry label.now dot) used store.old store.new result }
{
    let mut key = [0; KEY_MOST];
    let len = put_key(&mut key, name, label, dot);
    insert_key(store, used, name.len(), &key[..len], low);
    used + len
}

// Where the keys are that begin with `start`, from its place on.
fn span_from(n: usize, keys: &[u8], start: &[u8], low: usize) -> wire::Span
    requires { (n ≤ name_most) × PlacePast n keys.now start.now low }
    ensures { IsSpanFrom n keys.now start.now result }
{
    let at = place(n, keys, start, low);
    let len = walk_past(n, &keys[at..], |k| search::starts_with(start, k));
    wire::Span { at: at, len: len }
}

// Where the keys of a label are, none of which is among the first `low` bytes; no bytes at the place they would go if there are none.
pub fn label_span(keys: &[u8], name: &[u8], label: &[u8], low: usize) -> wire::Span
    requires { (name_ok name.now ≡ true) × (label_ok label.now ≡ true) × LabelPassed name.now label.now keys.now low }
    ensures { IsSpan name.now label.now keys.now result }
{
    let mut start = [0; LABEL_START_MOST];
    let len = put_label_start(&mut start, name, label);
    span_from(name.len(), keys, &start[..len], low)
}

// The very stretch of the keys of a label.
pub fn stretch<'a, 'b>(keys: &'a [u8], name: &'b [u8], label: &'b [u8], low: usize) -> &'a [u8]
    requires { (name_ok name.now ≡ true) × (label_ok label.now ≡ true) × LabelPassed name.now label.now keys.now low }
    ensures { IsStretch name.now label.now keys.entry result }
{
    let span = label_span(keys, name, label, low);
    let at = span.at;
    let end = at + span.len;
    &keys[at..end]
}

// ---- what a key says

// The dot of a key.
pub fn key_dot(key: &[u8]) -> dots::Dot
    requires { suffix_size - 1 ≤ length key.now }
    ensures { result ≡ key_dot key.now }
{
    let actor = key[key.len() - DOT_TAIL];
    let counter = wire::number_at(key, key.len() - 8);
    dots::Dot {
        actor: dots::Actor { number: actor },
        counter: dots::Counter { number: counter },
    }
}
