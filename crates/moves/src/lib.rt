// Bytes written and moved inside a buffer.

#![tactic(auto)]

ghost use Rattle.std.specs.Prelude.{◌≡◌, ◌++◌, ◌+◌, ◌-◌, ◌≤◌, length, take, drop, replicate};
ghost use Rattle.wire.specs.Bytes.{big_endian, put_at, inserted_at};

// ---- writing and moving

// Copies src over all of part, by a loop: std's copy is a call of memmove, which the library does without.
fn copy(part: &mut [u8], src: &[u8])
    requires { length src.now ≡ length part.old }
    ensures { part.new ≡ src.now }
{
    for (i, b) in src.iter().enumerate() {
        part[i] = *b;
    }
}

// Puts src into out at a place. Returns the place after it.
pub fn put(out: &mut [u8], at: usize, src: &[u8]) -> usize
    requires { at + length src.now ≤ length out.old }
    ensures { (result ≡ at + length src.now) × (out.new ≡ put_at out.old at src.now) }
{
    let end = at + src.len();
    copy(&mut out[at..end], src);
    end
}

// Puts a number in eight bytes at a place. Returns the place after it.
pub fn put_number(out: &mut [u8], at: usize, number: u64) -> usize
    requires { at + 8 ≤ length out.old }
    ensures { (result ≡ at + 8) × (out.new ≡ put_at out.old at (big_endian 8 number)) }
{
    put(out, at, &wire::number_bytes(number))
}

// The same in four bytes. Apart, since the numbers and their bytes have other types, and a const parameter does not choose a type.
pub fn put_four(out: &mut [u8], at: usize, number: u32) -> usize
    requires { at + 4 ≤ length out.old }
    ensures { (result ≡ at + 4) × (out.new ≡ put_at out.old at (big_endian 4 number)) }
{
    put(out, at, &wire::four_bytes(number))
}

// Moves all but the last `by` bytes of s up by `by`, in place; the first `by` keep their values.
// By a loop, as below: std's copy_within is a call of memmove, which the library does without.
fn shift_up(s: &mut [u8], by: usize)
    requires { by ≤ length s.old }
    ensures { s.new ≡ take by s.old ++ take (length s.old - by) s.old }
{
    for i in (0..s.len() - by).rev() {
        s[i + by] = s[i];
    }
}

// Moves all but the first `by` bytes of s down by `by`, in place; the last `by` keep their values.
pub fn shift_down(s: &mut [u8], by: usize)
    requires { by ≤ length s.old }
    ensures { s.new ≡ drop by s.old ++ drop (length s.old - by) s.old }
{
    for i in 0..s.len() - by {
        s[i] = s[i + by];
    }
}

// Sets all of s to 0.
pub fn clear(s: &mut [u8])
    ensures { s.new ≡ replicate (length s.old) 0 }
{
    s.fill(0);
}

// Puts the piece before the bytes of s, which move up; the last ones, as many as the piece has, are lost.
fn insert_front(s: &mut [u8], piece: &[u8])
    requires { length piece.now ≤ length s.old }
    ensures { s.new ≡ piece.now ++ take (length s.old - length piece.now) s.old }
{
    shift_up(s, piece.len());
    copy(&mut s[..piece.len()], piece);
}

// Inserts a piece at a place of the first `used` bytes; what follows it there moves up, and the rest keeps its values.
pub fn insert_piece(s: &mut [u8], used: usize, at: usize, piece: &[u8])
    requires { (at ≤ used) × (used + length piece.now ≤ length s.old) }
    ensures { s.new ≡ inserted_at s.old used at piece.now }
{
    let end = used + piece.len();
    insert_front(&mut s[at..end], piece);
}
