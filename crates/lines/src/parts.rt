// Parts of lent bytes.
ghost use Rattle.std.specs.Prelude.{◌≡◌, ◌≢◌, ◌≤◌, ◌++◌, ◌∷◌, All, IfSome, length, MatchOption};

// The first n bytes, or all where there are fewer.
pub fn front<'a>(s: &'a [u8], n: usize) -> &'a [u8]
    ensures { length result.now ≤ length s.now }
{
    s.get(..n).unwrap_or(s)
}

// The bytes from a place on; none where there are none.
pub fn from<'a>(s: &'a [u8], at: usize) -> &'a [u8]
    ensures { length result.now ≤ length s.now }
{
    s.get(at..).unwrap_or_default()
}

// What stands before the first mark and after it, if there is one.
pub(crate) fn split_once<'a>(s: &'a [u8], mark: u8) -> Option<(&'a [u8], &'a [u8])>
    ensures unmarked { MatchOption result (All (λ b. b ≢ mark) s.now) (λ p. All (λ b. b ≢ mark) p.0.now) }
    ensures whole { IfSome result (λ p. s.now ≡ p.0.now ++ (mark ∷ p.1.now)) }
{
    let at = s.iter().position(|b| *b == mark)?;
    Some((&s[..at], &s[at + 1..]))
}

// The number in the eight bytes from a place on, highest first; 0 where there are fewer.
pub fn number_at(s: &[u8], at: usize) -> u64 {
    match from(s, at).first_chunk() {
        Some(bytes) => u64::from_be_bytes(*bytes),
        None => 0,
    }
}

// Puts bytes to a place, if they fit there.
pub fn put(out: &mut [u8], at: usize, bytes: &[u8]) {
    if at <= out.len() && bytes.len() <= out.len() - at {
        moves::put(out, at, bytes);
    }
}
