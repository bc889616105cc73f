// Bytes: the definitions of their order, of numbers in them and of pieces moved inside a buffer; code that reads bytes and numbers.

#![tactic(auto)]

ghost use Rattle.std.specs.Prelude.{◌≡◌, ◌+◌, ◌*◌, ◌^◌, ◌≤◌, ◌<◌, length, get_or};
ghost use Rattle.wire.specs.Bytes.{byte_at, part_at, number_at, big_endian, low_number_at};

// A stretch of bytes: its first place and its length.
#[derive(Clone, Copy, Default)]
pub struct Span {
    pub at: usize,
    pub len: usize,
}

// ---- reading

// The byte at a place, and 0 past the end.
pub fn byte_at(s: &[u8], at: usize) -> u8
    ensures { result ≡ byte_at s.now at }
{
    s.get(at).copied().unwrap_or(0)
}

// The byte at a place as a size.
pub fn size_at(s: &[u8], at: usize) -> usize
    ensures { (result ≡ byte_at s.now at) × (result < 256) }
{
    usize::from(byte_at(s, at))
}

// The bytes from a place on, at most `len` of them.
pub fn part<'a>(s: &'a [u8], at: usize, len: usize) -> &'a [u8]
    requires { (at ≤ 4096) × (len ≤ 4096) }
    ensures { result.now ≡ part_at s.now at len }
{
    let rest = &s[at.min(s.len())..];
    &rest[..len.min(rest.len())]
}

// The N bytes from a place on. The numbers below have a function for each size, since std's methods belong to u16, u32 and u64, and a const
// parameter does not choose the type.
fn bytes_at<const N: usize>(s: &[u8], at: usize) -> [u8; N]
    requires { at + N ≤ length s.now }
    ensures { result ≡ part_at s.now at N }
{
    *s[at..at + N].as_array().unwrap()
}

// ---- words: numbers whose lowest byte comes first

// The word in the 2 bytes from a place on.
pub fn low_pair_at(s: &[u8], at: usize) -> u64
    requires { at + 2 ≤ length s.now }
    ensures { result ≡ get_or s.now (at + 1) 0 * 256 + get_or s.now at 0 }
{
    u64::from(u16::from_le_bytes(bytes_at(s, at)))
}

// The word in the 4 bytes from a place on.
pub fn low_half_at(s: &[u8], at: usize) -> u64
    requires { at + 4 ≤ length s.now }
    ensures { (result ≡ low_number_at 4 s.now at) × (result < 2 ^ 32) }
{
    u64::from(u32::from_le_bytes(bytes_at(s, at)))
}

// The word in the 8 bytes from a place on.
pub fn low_at(s: &[u8], at: usize) -> u64
    requires { at + 8 ≤ length s.now }
    ensures { result ≡ low_number_at 8 s.now at }
{
    u64::from_le_bytes(bytes_at(s, at))
}

// ---- numbers, highest byte first

// The number in the 4 bytes from a place on.
pub fn half_at(s: &[u8], at: usize) -> u64
    requires { at + 4 ≤ length s.now }
    ensures { (result ≡ number_at 4 s.now at) × (result < 2 ^ 32) }
{
    u64::from(u32::from_be_bytes(bytes_at(s, at)))
}

// The number in the 8 bytes from a place on: the word with its bytes swapped.
pub fn number_at(s: &[u8], at: usize) -> u64
    requires { at + 8 ≤ length s.now }
    ensures { result ≡ number_at 8 s.now at }
{
    low_at(s, at).swap_bytes()
}

// A number in 8 bytes.
pub fn number_bytes(n: u64) -> [u8; 8]
    ensures { result ≡ big_endian 8 n }
{
    n.to_be_bytes()
}

// A number in 4 bytes.
pub fn four_bytes(n: u32) -> [u8; 4]
    ensures { result ≡ big_endian 4 n }
{
    n.to_be_bytes()
}
