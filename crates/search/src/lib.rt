// Order of bytes, the first 0 and common starts, several bytes at a time.

#![tactic(auto)]

ghost use Rattle.std.specs.Prelude.{◌≡◌, ◌+◌, ◌≤◌, min, length, take, drop};
ghost use Rattle.wire.specs.Lists.{is_lt};
ghost use Rattle.wire.specs.Bytes.{part_at, compare_bytes, little_endian, zero_at, starts_with};
ghost use Rattle.search.specs.Marks.{mark_place};

// ---- order and search, by words of several bytes

// Whether a comes before b, byte by byte.
fn lower_bytes(a: &[u8], b: &[u8]) -> bool
    ensures { result ≡ is_lt (compare_bytes a.now b.now) }
{
    for (x, y) in a.iter().zip(b) {
        if *x != *y {
            return *x < *y;
        }
    }
    a.len() < b.len()
}

// Whether a comes before b, where the first 8 bytes are the same and n is the shorter length: by words, the last of which ends at n.
// A loop by hand: with `step_by` here and in `zero_near`, calls on stores of labels of 32 bytes took 1.1 to 1.2 times as long.
fn lower_words(a: &[u8], b: &[u8], n: usize) -> bool
    requires { ((8 ≤ n) × (n ≡ min (length a.now) (length b.now))) × (take 8 a.now ≡ take 8 b.now) }
    ensures { result ≡ is_lt (compare_bytes a.now b.now) }
{
    let mut i = 8;
    while i + 8 <= n {
        let x = wire::number_at(a, i);
        let y = wire::number_at(b, i);
        if x != y {
            return x < y;
        }
        i += 8;
    }
    let x = wire::number_at(a, n - 8);
    let y = wire::number_at(b, n - 8);
    if x != y {
        return x < y;
    }
    n < b.len()
}

// Whether a comes before b in byte order. The first word is looked at apart: most labels differ there.
// By words, since std's order of slices was tried here and is slower: it goes byte by byte.
pub fn lower(a: &[u8], b: &[u8]) -> bool
    ensures { result ≡ is_lt (compare_bytes a.now b.now) }
{
    let n = a.len().min(b.len());
    if n < 8 {
        return lower_bytes(a, b);
    }
    let x = wire::number_at(a, 0);
    let y = wire::number_at(b, 0);
    if x != y {
        return x < y;
    }
    lower_words(a, b, n)
}

// Marks of the bytes of a word that are 0: the high bit of each, and no bit below the lowest of these.
pub fn zero_marks(w: u64) -> u64
    ensures { mark_place result ≡ zero_at (little_endian 8 w) }
{
    w.wrapping_sub(0x0101010101010101) & !w & 0x8080808080808080
}

// The lowest of the marks alone.
pub fn lowest_mark(marks: u64) -> u64
    ensures { mark_place result ≡ mark_place marks }
{
    marks & marks.wrapping_neg()
}

// Which byte has the lowest mark, and 8 if none has.
pub fn mark_place(marks: u64) -> usize
    ensures { (result ≡ mark_place marks) × (result ≤ 8) }
{
    marks.trailing_zeros() as usize / 8
}

// The index of the lowest byte of a word that is 0, and 8 if none is.
fn first_zero(w: u64) -> usize
    ensures { (result ≡ zero_at (little_endian 8 w)) × (result ≤ 8) }
{
    mark_place(zero_marks(w))
}

// The index of the first 0 of s, or its length, byte by byte.
fn zero_bytes(s: &[u8]) -> usize
    ensures { (result ≡ zero_at s.now) × (result ≤ length s.now) }
{
    s.iter().position(|b| *b == 0).unwrap_or(s.len())
}

// The index of the first 0 of s, or its length: by words, the last bytes one by one. std's position alone was tried here and is slower.
fn zero_words(s: &[u8]) -> usize
    ensures { (result ≡ zero_at s.now) × (result ≤ length s.now) }
{
    let (words, rest) = s.as_chunks();
    for (i, word) in words.iter().enumerate() {
        let z = first_zero(u64::from_le_bytes(*word));
        if z < 8 {
            return i * 8 + z;
        }
    }
    words.len() * 8 + zero_bytes(rest)
}

// The index of the first 0 of s, or its length. The first word is looked at apart: most labels end there.
pub fn zero_at(s: &[u8]) -> usize
    ensures { (result ≡ zero_at s.now) × (result ≤ length s.now) }
{
    if s.len() < 8 {
        return zero_bytes(s);
    }
    let z = first_zero(wire::low_at(s, 0));
    if z < 8 {
        return z;
    }
    8 + zero_words(&s[8..])
}

// The first 0 among 40 bytes from a place on, the first 8 of which have none, and 40 if the others have none. A loop by hand, as in `lower_words`.
pub fn zero_near(s: &[u8], at: usize) -> usize
    requires { (at + 40 ≤ length s.now) × (zero_at (drop at s.now) ≡ 8 + zero_at (drop (at + 8) s.now)) }
    ensures { result ≡ min 40 (zero_at (drop at s.now)) }
{
    let mut i = 8;
    while i < 40 {
        let marks = zero_marks(wire::low_at(s, at + i));
        if marks != 0 {
            return i + mark_place(marks);
        }
        i += 8;
    }
    40
}

// Whether the 4 bytes from a place on are the same in a and s. Apart from the next function, since a const parameter does not choose the word's type.
fn same_half(a: &[u8], s: &[u8], at: usize) -> bool
    requires { (at + 4 ≤ length a.now) × (at + 4 ≤ length s.now) }
    ensures { result ≡ starts_with (part_at a.now at 4) (drop at s.now) }
{
    wire::low_half_at(s, at) == wire::low_half_at(a, at)
}

// Whether the 8 bytes from a place on are the same in a and s.
fn same_word(a: &[u8], s: &[u8], at: usize) -> bool
    requires { (at + 8 ≤ length a.now) × (at + 8 ≤ length s.now) }
    ensures { result ≡ starts_with (part_at a.now at 8) (drop at s.now) }
{
    wire::low_at(s, at) == wire::low_at(a, at)
}

// Whether s, which is no shorter, begins with a of 8 to 24 bytes: by three words that may overlap.
pub fn starts_near(a: &[u8], s: &[u8]) -> bool
    requires { ((8 ≤ length a.now) × (length a.now ≤ 24)) × (length a.now ≤ length s.now) }
    ensures { result ≡ starts_with a.now s.now }
{
    let last = a.len() - 8;
    let middle = last.min(8);
    same_word(a, s, 0) & same_word(a, s, middle) & same_word(a, s, last)
}

// Whether s, which is no shorter, begins with a of 8 bytes or more: by words, the last of which ends with a. A loop by hand, as in `lower_words`.
#[inline(never)]
fn starts_words(a: &[u8], s: &[u8]) -> bool
    requires { (8 ≤ length a.now) × (length a.now ≤ length s.now) }
    ensures { result ≡ starts_with a.now s.now }
{
    let n = a.len();
    let mut i = 0;
    while i + 8 <= n {
        if !same_word(a, s, i) {
            return false;
        }
        i += 8;
    }
    same_word(a, s, n - 8)
}

// Whether s begins with a. What is asked has mostly 4 to 24 bytes, which go by pieces that may overlap, and longer ones by words: std's loop was tried there and is slower.
pub fn starts_with(a: &[u8], s: &[u8]) -> bool
    ensures { result ≡ starts_with a.now s.now }
{
    let n = a.len();
    if s.len() < n {
        return false;
    }
    match n {
        4..=8 => same_half(a, s, 0) & same_half(a, s, n - 4),
        9..=24 => starts_near(a, s),
        25.. => starts_words(a, s),
        _ => s.starts_with(a),
    }
}
