// Two stores of one set walked side by side: one listing from two controllers.

#![tactic(auto)]

ghost use Rattle.std.specs.Prelude.{◌≡◌, true, false, ◌&&◌, ◌+◌, ◌-◌, ◌*◌, ◌≤◌, cond, length, take, drop};
ghost use Rattle.wire.specs.Bytes.{starts_with, put_at};
ghost use Rattle.dots.specs.Names.{name_most, label_most};
ghost use Rattle.dots.specs.Wire.{dots_of, dot_bytes, dot_size};
ghost use Rattle.clock.specs.Clock.{sees};
ghost use Rattle.keys.specs.Key.{suffix_size};
ghost use Rattle.listing.specs.Listing.{is_live};
ghost use Rattle.store.specs.Cut.{keys_of};
ghost use Rattle.store.specs.Place.{length_while};
ghost use Rattle.merge.specs.Step.{Handed};
ghost use Rattle.merge.specs.Sides.{Sides, SameSet};
ghost use Rattle.merge.specs.Labels.{LabelStart, ComesNext};
ghost use Rattle.merge.specs.Kept.{first_dot, next_of, next_in, kept_dot, sides_of, keeps_next, EndToEnd, put_unless};
ghost use Rattle.merge.specs.Lines.{CanPut, LabelWithin, label_in, DotsPut, LinePut, Mergeable, CanMerge, Merges, PutsAll};

use std::cmp::Ordering;
use std::marker::Model;

// ---- the step

// Keys of one set, end to end in two stores. The set's name has n bytes.
#[derive(Clone, Copy)]
struct TwoStores<'a> {
    n: usize,
    a: &'a [u8],
    b: &'a [u8],
    ghost short: { n ≤ name_most },
}

impl<'a> TwoStores<'a> {
    // The first key of whichever of two lent stores sorts lower, on a tie that of the first, and an empty stretch at the end of both.
    // An empty stretch and no Option: `Handed` (specs/Step) asks for it.
    fn lower_key(self) -> &'a [u8]
        ensures { Handed self.entry.n self.entry.a self.entry.b result }
    {
        let TwoStores { n, a, b, .. } = self;
        let i = store::key_length(n, a);
        let j = store::key_length(n, b);
        let first = &a[..i];
        let second = &b[..j];
        let before = search::lower(second, first);
        if (0 < b.len()) & ((a.len() == 0) | before) {
            return second;
        }
        first
    }

    // The keys in the first i bytes of the one and j of the other.
    fn front(self, i: usize, j: usize) -> TwoStores<'a>
        requires { (i ≤ length self.a.now) × (j ≤ length self.b.now) }
        ensures { (result.n ≡ self.entry.n) × (result.a.now ≡ take i self.entry.a.now) × (result.b.now ≡ take j self.entry.b.now) }
    {
        TwoStores {
            n: self.n,
            a: &self.a[..i],
            b: &self.b[..j],
        }
    }

    // The keys after them.
    fn past(self, i: usize, j: usize) -> TwoStores<'a>
        requires { (i ≤ length self.a.now) × (j ≤ length self.b.now) }
        ensures { (result.n ≡ self.entry.n) × (result.a.now ≡ drop i self.entry.a.now) × (result.b.now ≡ drop j self.entry.b.now) }
    {
        TwoStores {
            n: self.n,
            a: &self.a[i..],
            b: &self.b[j..],
        }
    }
}

// ---- the label that comes next

// How many bytes the keys at the front take that begin with `start`, which is what the keys of a label begin with; they are all as long.
fn label_run(n: usize, keys: &[u8], start: &[u8]) -> usize
    requires { (n ≤ name_most) × LabelStart n keys.now start.now }
    ensures { (result ≡ length_while (starts_with start.now) (keys_of n keys.now)) × (result ≤ length keys.now) }
{
    let len = start.len() - (n + keys::PREFIX_FIXED + 1);
    let size = n + len + keys::LABEL_KEY_FIXED;
    let mut at = 0;
    // `at` is no index, but the bytes so far, which are what is returned. An iterator over keys would be no plainer: each key is as long as the first,
    // so that none's closing 00 is looked for.
    while at < keys.len() {
        if !search::starts_with(start, &keys[at..]) {
            return at;
        }
        at += size;
    }
    at
}

// The keys of the label that comes next: how long the label is, and how many bytes they take at the front of each store.
#[derive(Clone, Copy)]
struct NextLabel {
    len: usize,
    first: usize,
    second: usize,
}

impl<'a> TwoStores<'a> {
    // The label that comes next.
    fn next_label(self) -> Option<NextLabel>
        requires { SameSet self.n self.a.now self.b.now }
        ensures { ComesNext self.entry.n self.entry.a.now self.entry.b.now result }
    {
        let key = self.lower_key();
        if key.len() == 0 {
            return None;
        }
        let closed = key.len() - (keys::SUFFIX_SIZE - 1);
        Some(NextLabel {
            len: key.len() - (self.n + keys::LABEL_KEY_FIXED),
            first: label_run(self.n, self.a, &key[..closed]),
            second: label_run(self.n, self.b, &key[..closed]),
        })
    }
}

// ---- the dots of a label

// The dot of the first of a label's keys, which have `size` bytes each.
fn first_dot(size: usize, keys: &[u8]) -> Option<dots::Dot>
    requires { suffix_size - 1 ≤ size }
    ensures { result ≡ first_dot size keys.now }
{
    if keys.len() < size {
        return None;
    }
    Some(store::key_dot(&keys[..size]))
}

// The dot that comes next among the keys of a label in two stores, and which of them hold it.
// Two flags and no enum: each is asked apart from the other, to tell whether its store lists the dot and whether its place goes on.
#[derive(Clone, Copy)]
struct NextDot {
    dot: dots::Dot,
    first: bool,
    second: bool,
}

// The lower of two dots.
fn lower_dot(d: dots::Dot, e: dots::Dot) -> NextDot
    ensures { result ≡ next_of d e }
{
    match d.cmp(&e) {
        Ordering::Less => NextDot {
            dot: d,
            first: true,
            second: false,
        },
        Ordering::Equal => NextDot {
            dot: d,
            first: true,
            second: true,
        },
        Ordering::Greater => NextDot {
            dot: e,
            first: false,
            second: true,
        },
    }
}

impl<'a> TwoStores<'a> {
    // The dot that comes next in keys of one label, which have `size` bytes each.
    fn next_dot(self, size: usize) -> Option<NextDot>
        requires { suffix_size - 1 ≤ size }
        ensures { result ≡ next_in (first_dot size self.entry.a.now) (first_dot size self.entry.b.now) }
    {
        match (first_dot(size, self.a), first_dot(size, self.b)) {
            (Some(d), Some(e)) => Some(lower_dot(d, e)),
            (Some(dot), None) => Some(NextDot {
                dot,
                first: true,
                second: false,
            }),
            (None, Some(dot)) => Some(NextDot {
                dot,
                first: false,
                second: true,
            }),
            (None, None) => None,
        }
    }

    // The keys after it: a store that holds it has one key less.
    fn past_dot(self, size: usize, next: NextDot) -> TwoStores<'a>
        requires { (cond next.first size 0 ≤ length self.a.now) × (cond next.second size 0 ≤ length self.b.now) }
        ensures { (result.n ≡ self.entry.n) × (result.a.now ≡ drop (cond next.first size 0) self.entry.a.now) × (result.b.now ≡ drop (cond next.second size 0) self.entry.b.now) }
    {
        let i = if next.first { size } else { 0 };
        let j = if next.second { size } else { 0 };
        self.past(i, j)
    }
}

// Two sides of a merge: the tombstone and the clock of each. One table has the slots of both tombstones' dots.
#[derive(Drop)]
struct TwoSides<'a> {
    first: slots::SlottedDots<'a>,
    here: &'a clock::Words,
    second: slots::SlottedDots<'a>,
    there: &'a clock::Words,
}

impl<'a> Model for TwoSides<'a> {
    ghost Value = { Sides };

    ghost view = { λ s. record { tombstone = s.first.dots.now; words = s.here.now; tombstone' = s.second.dots.now; words' = s.there.now } };
}

// Whether a dot is listed, where it is held or not.
fn is_listed(held: bool, dead: slots::SlottedDots<'_>, dot: dots::Dot) -> bool
    ensures { result ≡ (held && is_live (dots_of dead.entry.dots.now) dot) }
{
    held && !dead.holds(dot)
}

impl<'a> TwoSides<'a> {
    // Whether a dot is kept that each of two lists or not. A clock is asked only where just one lists it.
    fn kept(&self, first: bool, second: bool, dot: dots::Dot) -> bool
        ensures { result ≡ kept_dot first second (sees self.now.words dot) (sees self.now.words' dot) }
    {
        if first & second {
            return true;
        }
        if first {
            return !clock::sees(self.there, dot);
        }
        if second {
            return !clock::sees(self.here, dot);
        }
        false
    }

    // The same of the dot that comes next, by the two tombstones.
    fn keeps(&self, next: NextDot) -> bool
        ensures { result ≡ keeps_next self.now next }
    {
        let dot = next.dot;
        let first = is_listed(next.first, self.first, dot);
        let second = is_listed(next.second, self.second, dot);
        self.kept(first, second, dot)
    }
}

// Puts a dot at a place, unless the run is dry. In its only caller the test would stand in a branch in a loop, which would be no plainer.
fn put_dot(dry: bool, out: &mut [u8], at: usize, dot: dots::Dot)
    requires { dry ≡ false → at + dot_size ≤ length out.old }
    ensures { out.new ≡ put_unless dry out.old at (dot_bytes dot) }
{
    if !dry {
        let bytes = dots::dot_bytes(dot);
        moves::put(out, at, &bytes);
    }
}

// ---- its line

// Where a line goes: the length of its label, its place in the output, and whether the run is dry.
#[derive(Clone, Copy)]
struct Spot {
    len: usize,
    at: usize,
    dry: bool,
}

impl<'a> TwoStores<'a> {
    // Puts the kept dots of a label's keys where they go in its line. Returns how many there are.
    fn put_kept(self, spot: Spot, sides: &TwoSides<'_>, out: &mut [u8]) -> usize
        requires { CanPut self.n spot sides.now self.a.now self.b.now (length out.old) }
        ensures { DotsPut self.entry.n spot sides.now self.entry.a.now self.entry.b.now out.old out.new result }
    {
        let size = self.n + spot.len + keys::LABEL_KEY_FIXED;
        let from = spot.at + spot.len + listing::LINE_FIXED;
        let mut rest = self;
        let mut count = 0;
        while let Some(next) = rest.next_dot(size) {
            if sides.keeps(next) {
                put_dot(spot.dry, out, from + dots::DOT_SIZE * count, next.dot);
                count += 1;
            }
            rest = rest.past_dot(size, next);
        }
        count
    }

    // The label of keys of which the first store or the second has some.
    fn label(self, len: usize) -> &'a [u8]
        requires { (len ≤ label_most) × LabelWithin self.n len self.a.now self.b.now }
        ensures { result.now ≡ label_in self.entry.n len self.entry.a.now self.entry.b.now }
    {
        let from = self.n + keys::PREFIX_FIXED;
        let to = from + len;
        if self.a.len() == 0 {
            return &self.b[from..to];
        }
        &self.a[from..to]
    }

    // Puts the line of a label in its place, if a dot of it is kept. Returns how many bytes it takes.
    fn put_line(self, spot: Spot, sides: &TwoSides<'_>, out: &mut [u8]) -> usize
        requires { CanPut self.n spot sides.now self.a.now self.b.now (length out.old) }
        ensures { LinePut self.entry.n spot sides.now self.entry.a.now self.entry.b.now out.old out.new result }
    {
        let count = self.put_kept(spot, sides, out);
        if count == 0 {
            return 0;
        }
        let size = listing::LINE_FIXED + spot.len + dots::DOT_SIZE * count;
        if spot.dry {
            return size;
        }
        let at = spot.at;
        listing::put_head(&mut out[at..], self.label(spot.len), count);
        size
    }
}

// ---- all lines

impl<'a> TwoStores<'a> {
    // Puts the lines of two stores at the front of out, which has room for them; a dry run only counts their bytes and labels.
    // `dry` stays a flag: as an Option the output would be borrowed out of it anew for each line, and two functions would be twins.
    fn merge_lines(self, dry: bool, sides: &TwoSides<'_>, out: &mut [u8]) -> listing::LinesPut
        requires { CanMerge self.n dry sides.now self.a.now self.b.now (length out.old) }
        ensures { Merges self.entry.n dry sides.now self.entry.a.now self.entry.b.now out.old out.new result }
    {
        let mut rest = self;
        let mut bytes = 0;
        let mut labels = 0;
        while let Some(next) = rest.next_label() {
            let spot = Spot {
                len: next.len,
                at: bytes,
                dry,
            };
            let label = rest.front(next.first, next.second);
            let size = label.put_line(spot, sides, out);
            labels += usize::from(0 < size);
            bytes += size;
            rest = rest.past(next.first, next.second);
        }
        listing::LinesPut {
            bytes,
            labels,
            more: false,
        }
    }

    // Puts all lines of two stores at the front of out, or nothing where they do not fit. They are never longer than the keys of both.
    fn put_all(self, sides: &TwoSides<'_>, out: &mut [u8]) -> listing::LinesPut
        requires { Mergeable self.n self.a.now self.b.now }
        ensures { PutsAll self.entry.n sides.now self.entry.a.now self.entry.b.now out.old out.new result }
    {
        if self.a.len() + self.b.len() <= out.len() {
            return self.merge_lines(false, sides, out);
        }
        let counted = self.merge_lines(true, sides, out);
        if out.len() < counted.bytes {
            return listing::LinesPut {
                bytes: 0,
                labels: 0,
                more: true,
            };
        }
        self.merge_lines(false, sides, out)
    }
}

// Bytes of two tombstones.
pub const DEAD_SIZE: usize = 2 * dots::TOMBSTONE_SIZE;

// Puts the first count dots of a tombstone at a place. Returns the place after them.
// The count stays beside the bytes: callers have both in a `Tombstone`, and a slice would be no plainer, as each would cut it by itself.
pub fn put_tombstone(dead: &mut [u8], at: usize, tombstone: &[u8], count: usize) -> usize
    requires { (count * dot_size ≤ length tombstone.now) × (at + count * dot_size ≤ length dead.old) }
    ensures { (result ≡ at + count * dot_size) × (dead.new ≡ put_at dead.old at (take (count * dot_size) tombstone.now)) }
{
    let size = count * dots::DOT_SIZE;
    moves::put(dead, at, &tombstone[..size])
}

// Puts the merged listing of two sides at the front of out, or nothing where it does not fit. Their tombstones stand end to end, the first of `split` bytes.
// Two slices would be no plainer: one table has the slots of both, so that they would be put end to end here. `TwoSides` holds the three references
// at one lifetime, which is named: without a name it did not prove.
pub fn put_merged<'s>(
    n: usize,
    split: usize,
    a: &[u8],
    b: &[u8],
    dead: &'s [u8],
    here: &'s clock::Words,
    there: &'s clock::Words,
    out: &mut [u8],
) -> listing::LinesPut
    requires { Mergeable n a.now b.now × EndToEnd dead.now split }
    ensures { PutsAll n (sides_of dead.now split here.now there.now) a.now b.now out.old out.new result }
{
    let mut slots = [0u8; slots::SLOTS];
    slots::fill_slots(dead, &mut slots);
    let sides = TwoSides {
        first: slots::SlottedDots {
            dots: &dead[..split],
            slots: &slots,
        },
        here,
        second: slots::SlottedDots {
            dots: &dead[split..],
            slots: &slots,
        },
        there,
    };
    let stores = TwoStores { n, a, b };
    stores.put_all(&sides, out)
}
