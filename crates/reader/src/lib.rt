// A reader of keys end to end: the lent keys, and a place in them.

#![tactic(auto)]

ghost use Rattle.std.specs.Prelude.{◌≡◌};
ghost use Rattle.reader.specs.Reading.{key_end};

// "A reader holds the lent store and its place in it": the used part, and where the key that comes next begins.
// A struct, and not the iterator `Keys` of `store`: document 01 asks for this form.
#[derive(Clone, Copy)]
struct Reader<'a> {
    keys: &'a [u8],
    at: usize,
}

impl<'a> Reader<'a> {
    // Where the key that it has come to ends, for a set name of n bytes; past the last key, and for a name too long, the end of the keys.
    #[inline(always)]
    fn key_end(self, n: usize) -> usize
        ensures { result ≡ key_end self.entry.keys.now self.entry.at n }
    {
        let Reader { keys, at } = self;
        if (keys.len() <= at) | (dots::NAME_MOST < n) {
            return keys.len();
        }
        at + store::key_length(n, &keys[at..])
    }
}

// The same at a place, by a reader that is made here. In line, since a walk finds the next key only through it: with a call a listing took up to 1.3 times as long.
#[inline(always)]
pub fn key_end(keys: &[u8], at: usize, n: usize) -> usize
    ensures { result ≡ key_end keys.now at n }
{
    Reader { keys, at }.key_end(n)
}
