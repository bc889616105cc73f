// A state as a block of bytes, every field at its full width and place, and back: how a state crosses the C interface.

#![tactic(auto)]

ghost use Rattle.std.specs.Prelude.{◌≡◌, [], ◌∷◌, ◌++◌, ◌+◌, ◌*◌, ◌≤◌, length};
ghost use Rattle.wire.specs.Bytes.{big_endian, part_at};
ghost use Rattle.clock.specs.Clock.{clock_words};
ghost use Rattle.block.specs.Block.{block_size, AreWords, words_bytes, words_at, Fills, state_bytes, state_in, clock_at};

// Where the fields of a block begin: actor, set name, its length, clock, tombstone, its number of dots, used length. Numbers have 8 bytes.
pub const NAME_AT: usize = 1;

pub const NAME_LENGTH_AT: usize = NAME_AT + dots::NAME_MOST;

pub const CLOCK_AT: usize = NAME_LENGTH_AT + 8;

// Bytes of a row of the clock.
pub const ROW_SIZE: usize = clock::ROW_WORDS * 8;

pub const TOMBSTONE_AT: usize = CLOCK_AT + dots::ACTOR_MOST as usize * ROW_SIZE;

pub const COUNT_AT: usize = TOMBSTONE_AT + dots::TOMBSTONE_SIZE;

pub const USED_AT: usize = COUNT_AT + 8;
// How many bytes a block has.
pub const STATE_SIZE: usize = USED_AT + 8;

// ---- a state in a block

// Puts bytes and a number after them.
fn put_with_number(block: &mut [u8], at: usize, bytes: &[u8], number: u64) -> usize
    requires { at + length bytes.now + 8 ≤ length block.old }
    ensures { Fills at result (bytes.now ++ big_endian 8 number) block.old block.new }
{
    let next = moves::put(block, at, bytes);
    moves::put_number(block, next, number)
}

// Puts words, eight bytes each.
fn put_words(block: &mut [u8], at: usize, words: &[u64]) -> usize
    requires { at + 8 * length words.now ≤ length block.old }
    ensures { Fills at result (words_bytes words.now) block.old block.new × AreWords words.now }
{
    let mut next = at;
    for word in words {
        next = moves::put_number(block, next, *word);
    }
    next
}

// Writes a state into a block, which then is read as that state.
pub fn pack(state: calls::State, block: &mut [u8])
    requires { length block.old ≡ block_size }
    ensures { (block.new ≡ state_bytes state) × (state_in block.new ≡ state) }
{
    let name = &state.name;
    let tombstone = &state.tombstone;
    moves::put(block, 0, &[state.actor.number]);
    put_with_number(block, NAME_AT, &name.bytes, name.len as u64);
    put_words(block, CLOCK_AT, &state.clock.words);
    put_with_number(
        block,
        TOMBSTONE_AT,
        &tombstone.bytes,
        tombstone.count as u64,
    );
    moves::put_number(block, USED_AT, state.used as u64);
}

// ---- a block read as a state

// So many bytes of a block from a place on.
fn bytes_in<const N: usize>(block: &[u8], at: usize) -> [u8; N]
    requires { at + N ≤ length block.now }
    ensures { result ≡ part_at block.now at N }
{
    let mut bytes = [0u8; N];
    moves::put(&mut bytes, 0, &block[at..at + N]);
    bytes
}

// The words of a block's clock.
fn words_in(block: &[u8]) -> clock::Words
    requires { length block.now ≡ block_size }
    ensures { result ≡ words_at clock_words block.now clock_at }
{
    let mut words = [0u64; clock::CLOCK_WORDS];
    for (i, word) in words.iter_mut().enumerate() {
        *word = wire::number_at(block, CLOCK_AT + i * 8);
    }
    words
}

// Reads the state of a block.
pub fn unpack(block: &[u8]) -> calls::State
    requires { length block.now ≡ block_size }
    ensures { result ≡ state_in block.now }
{
    calls::State {
        actor: dots::Actor { number: block[0] },
        name: calls::SetName {
            bytes: bytes_in(block, NAME_AT),
            len: wire::number_at(block, NAME_LENGTH_AT) as usize,
        },
        clock: clock::Clock {
            words: words_in(block),
        },
        tombstone: calls::Tombstone {
            bytes: bytes_in(block, TOMBSTONE_AT),
            count: wire::number_at(block, COUNT_AT) as usize,
        },
        used: wire::number_at(block, USED_AT) as usize,
    }
}
