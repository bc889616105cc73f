// The listing of a label store: the line at a place, lines put out, and whether a stretch has a live key.

#![tactic(auto)]

ghost use Rattle.std.specs.Prelude.{◌≡◌, true, ◌+◌, ◌-◌, ◌^◌, ◌≤◌, ◌<◌, length};
ghost use Rattle.wire.specs.Lists.{any, keep};
ghost use Rattle.wire.specs.Bytes.{put_at};
ghost use Rattle.dots.specs.Names.{name_most, label_most};
ghost use Rattle.dots.specs.Dots.{ascending_dots};
ghost use Rattle.dots.specs.Wire.{dots_of, dot_bytes, dots_bytes, dot_size};
ghost use Rattle.dots.specs.Entries.{Entry};
ghost use Rattle.keys.specs.Key.{suffix_size};
ghost use Rattle.store.specs.Cut.{key_dot, entries_in};
ghost use Rattle.store.specs.Valid.{keys_fit};
ghost use Rattle.listing.specs.Listing.{is_live, key_lines, line_fixed, line_bytes, CanList, PutsOrCounts, PutsWanted};
ghost use Rattle.listing.specs.Lines.{CanAddKey, with_key, CanGoOn, goes_on, FirstLine, listed_size, dots_in, listed_by, line_head, CanPutDots, line_of, CanPutLine, lines_of_line, CanPutListed, ListedPut};

// Bytes of a line beside its label and its dots: the label's length and the number of dots.
pub const LINE_FIXED: usize = 3;

// ---- keys

// Whether some key's dot is not in the tombstone.
pub fn any_live(n: usize, keys: &[u8], tombstone: &[u8]) -> bool
    requires { (n ≤ name_most) × (keys_fit n keys.now ≡ true) × (ascending_dots (dots_of tombstone.now) ≡ true) }
    ensures { result ≡ any (λ (e : Entry). is_live (dots_of tombstone.now) e.dot) (entries_in n keys.now) }
{
    let dead = contexts::AscendingDots { dots: tombstone };
    let mut at = 0;
    // `at` is the place of document 01's reader, and no index: keys differ in length, and each says where it ends.
    while at < keys.len() {
        let end = reader::key_end(keys, at, n);
        let dot = store::key_dot(&keys[at..end]);
        if !dead.holds(dot) {
            return true;
        }
        at = end;
    }
    false
}

// What a listing is made of: keys end to end of a set whose name has n bytes, and the dots of a tombstone, which are not listed.
#[derive(Clone, Copy)]
struct Listing<'a> {
    n: usize,
    keys: &'a [u8],
    dead: slots::SlottedDots<'a>,
}

// ---- the line at a place

// A line at the front of keys: how long its label is, where its keys end, how many of its dots are listed, and whether all are.
#[derive(Clone, Copy)]
struct ListedLine {
    len: usize,
    end: usize,
    count: usize,
    all: bool,
}

impl ListedLine {
    // Bytes that a line takes in a listing: none where no dot of it is listed.
    fn listed_size(self) -> usize
        requires { (self.len ≤ label_most) × (self.count < 256 ^ 2) }
        ensures { result ≡ listed_size self }
    {
        if self.count == 0 {
            return 0;
        }
        LINE_FIXED + self.len + dots::DOT_SIZE * self.count
    }
}

impl<'a> Listing<'a> {
    // The line with one more key of its label.
    fn with_key(self, line: ListedLine) -> ListedLine
        requires { CanAddKey self.n self.keys.now line }
        ensures { result ≡ with_key self.entry.n self.entry.keys.now (dots_of self.entry.dead.dots.now) line }
    {
        let at = line.end;
        let end = at + (self.n + line.len + keys::LABEL_KEY_FIXED);
        let dot = store::key_dot(&self.keys[at..end]);
        if self.dead.holds(dot) {
            return ListedLine {
                end,
                all: false,
                ..line
            };
        }
        ListedLine {
            end,
            count: line.count + 1,
            ..line
        }
    }

    // Whether the key after those of a line has the line's label. The labels' last bytes are looked at first: most labels differ there.
    fn goes_on(self, line: ListedLine) -> bool
        requires { CanGoOn self.n self.keys.now line }
        ensures { result ≡ goes_on self.entry.n self.entry.keys.now line }
    {
        let keys = self.keys;
        let from = self.n + keys::PREFIX_FIXED;
        let last = from + (line.len - 1);
        let next_last = line.end + last;
        if keys.len() <= next_last {
            return false;
        }
        if keys[next_last] != keys[last] {
            return false;
        }
        let closed = last + 2;
        let next = line.end + from;
        search::starts_with(&keys[from..closed], &keys[next..])
    }

    // The line at the front of the keys.
    fn first_line(self) -> ListedLine
        requires { CanList self.n self.keys.now × (0 < length self.keys.now) }
        ensures { FirstLine self.entry.n self.entry.keys.now (dots_of self.entry.dead.dots.now) result }
    {
        let size = reader::key_end(self.keys, 0, self.n);
        let mut line = ListedLine {
            len: size - (self.n + keys::LABEL_KEY_FIXED),
            end: 0,
            count: 0,
            all: true,
        };
        // A line's end is no index: it is where the key just read ends, and the keys of other labels may follow.
        while line.end < self.keys.len() {
            line = self.with_key(line);
            if !self.goes_on(line) {
                return line;
            }
        }
        line
    }
}

// ---- lines put out

// Puts what stands before the dots of a line at the front of out. Returns its length.
pub fn put_head(out: &mut [u8], label: &[u8], count: usize) -> usize
    requires { (length label.now ≤ label_most) × (count < 256 ^ 2) × (length label.now + line_fixed ≤ length out.old) }
    ensures { (result ≡ length label.now + line_fixed) × (out.new ≡ put_at out.old 0 (line_head label.now count)) }
{
    let from = moves::put(out, 0, &[label.len() as u8]);
    let next = moves::put(out, from, label);
    let number = (count as u16).to_be_bytes();
    moves::put(out, next, &number)
}

// Puts the dot of a key at a place: its actor and the eight bytes of its counter, as they stand in the key. Returns the place after it.
fn put_key_dot(out: &mut [u8], at: usize, key: &[u8]) -> usize
    requires { (suffix_size - 1 ≤ length key.now) × (at + dot_size ≤ length out.old) }
    ensures { (result ≡ at + dot_size) × (out.new ≡ put_at out.old at (dot_bytes (key_dot key.now))) }
{
    let end = key.len();
    let actor = [key[end - (keys::SUFFIX_SIZE - 1)]];
    let next = moves::put(out, at, &actor);
    let counter = end - 8;
    moves::put(out, next, &key[counter..end])
}

// Whether the dot of a key is listed: where no dead dots are given, each is.
fn is_listed(dead: Option<slots::SlottedDots<'_>>, key: &[u8]) -> bool
    requires { suffix_size - 1 ≤ length key.now }
    ensures { result ≡ listed_by dead.entry (key_dot key.now) }
{
    match dead {
        Some(dots) => !dots.holds(store::key_dot(key)),
        None => true,
    }
}

// Puts the listed dots of keys with labels of one length at the front of out.
fn put_dots(n: usize, len: usize, keys: &[u8], dead: Option<slots::SlottedDots<'_>>, out: &mut [u8])
    requires { CanPutDots n len keys.now dead (length out.old) }
    ensures { out.new ≡ put_at out.old 0 (dots_bytes (keep (listed_by dead.entry) (dots_in n keys.now))) }
{
    let size = n + len + keys::LABEL_KEY_FIXED;
    let mut next = 0;
    for key in keys.chunks_exact(size) {
        if is_listed(dead, key) {
            next = put_key_dot(out, next, key);
        }
    }
}

// What lines put out take: their bytes, how many they are, and whether more follow.
#[derive(Clone, Copy)]
pub struct LinesPut {
    pub bytes: usize,
    pub labels: usize,
    pub more: bool,
}

impl<'a> Listing<'a> {
    // Puts the line at the front of the keys at the front of out.
    fn put_line(self, line: ListedLine, out: &mut [u8])
        requires { CanPutLine self.n self.keys.now (dots_of self.dead.dots.now) line (length out.old) }
        ensures { out.new ≡ put_at out.old 0 (line_bytes (line_of self.entry.n self.entry.keys.now (dots_of self.entry.dead.dots.now) line)) }
    {
        let n = self.n;
        let from = n + keys::PREFIX_FIXED;
        let len = line.len;
        let to = from + len;
        let end = line.end;
        let next = put_head(out, &self.keys[from..to], line.count);
        let dead = (!line.all).then_some(self.dead);
        put_dots(n, len, &self.keys[..end], dead, &mut out[next..]);
    }

    // The same, where a dot of it is listed. Returns how many lines that is.
    fn put_listed(self, line: ListedLine, out: &mut [u8]) -> usize
        requires { CanPutListed self.n self.keys.now (dots_of self.dead.dots.now) line (length out.old) }
        ensures { ListedPut (lines_of_line self.entry.n self.entry.keys.now (dots_of self.entry.dead.dots.now) line) out.old out.new result }
    {
        if line.count == 0 {
            return 0;
        }
        self.put_line(line, out);
        1
    }

    // Puts as many whole lines of the listing of the keys as fit at the front of out; the rest keeps its values. A dry run only tells whether more follow.
    // `dry` stays a flag: as an Option the output would be borrowed out of it anew for each line, and two functions would be twins.
    fn put_lines(self, dry: bool, out: &mut [u8]) -> LinesPut
        requires { CanList self.n self.keys.now }
        ensures { PutsOrCounts dry (key_lines self.entry.n self.entry.keys.now self.entry.dead.dots.now) out.old out.new result }
    {
        let mut bytes = 0;
        let mut labels = 0;
        let mut at = 0;
        // `at` is no index: a line says where it ends.
        while at < self.keys.len() {
            let rest = Listing {
                keys: &self.keys[at..],
                ..self
            };
            let line = rest.first_line();
            let size = line.listed_size();
            if out.len() - bytes < size {
                return LinesPut {
                    bytes,
                    labels,
                    more: true,
                };
            }
            if !dry {
                labels += rest.put_listed(line, &mut out[bytes..]);
            }
            bytes += size;
            at += line.end;
        }
        LinesPut {
            bytes,
            labels,
            more: false,
        }
    }
}

// Puts as many whole lines of the listing of keys as fit; where all are wanted and do not fit, none.
// `all` stays a flag: two functions would make `put_used` (reads) two as well, alike but for one call, and so be no plainer.
pub fn put_wanted(
    n: usize,
    keys: &[u8],
    dead: slots::SlottedDots<'_>,
    all: bool,
    out: &mut [u8],
) -> LinesPut
    requires { CanList n keys.now }
    ensures { PutsWanted all (key_lines n keys.now dead.entry.dots.now) out.old out.new result }
{
    let listed = Listing { n, keys, dead };
    if all & (out.len() < keys.len()) {
        let counted = listed.put_lines(true, out);
        if counted.more {
            return LinesPut {
                bytes: 0,
                labels: 0,
                more: true,
            };
        }
    }
    listed.put_lines(false, out)
}
