// Set-up and compaction.

#![tactic(auto)]

ghost use Rattle.std.specs.Prelude.{◌≡◌, false, [], ◌≤◌, length};
ghost use Rattle.dots.specs.Names.{name_most};
ghost use Rattle.calls.specs.Damage.{damaged as is_damaged};
ghost use Rattle.calls.specs.State.{Sized};
ghost use Rattle.calls.specs.Effect.{padded};
ghost use Rattle.calls.specs.Calls.{fresh_state, set_up, compact_done, compact_result};
ghost use Rattle.calls.specs.Promise.{Leaves};

// ---- set-up

// Bytes at the front of N bytes, the others 0.
pub fn padded<const N: usize>(front: &[u8]) -> [u8; N]
    requires { length front.now ≤ N }
    ensures { result ≡ padded N front.now }
{
    let mut bytes = [0u8; N];
    moves::put(&mut bytes, 0, front);
    bytes
}

// The state of a controller that has seen nothing.
pub fn fresh_state(actor: u8, name: &[u8]) -> calls::State
    requires { length name.now ≤ name_most }
    ensures { result ≡ fresh_state actor name.now }
{
    calls::State {
        actor: dots::Actor { number: actor },
        name: calls::SetName {
            bytes: padded(name),
            len: name.len(),
        },
        clock: clock::Clock {
            words: [0u64; clock::CLOCK_WORDS],
        },
        tombstone: calls::Tombstone {
            bytes: [0u8; dots::TOMBSTONE_SIZE],
            count: 0,
        },
        used: 0,
    }
}

// Sets a controller up.
pub fn set_up(actor: u8, name: &[u8]) -> calls::SetUp
    ensures { result ≡ set_up actor name.now }
{
    let named = dots::name_ok(name);
    if !((1 <= actor) & (actor <= dots::ACTOR_MOST)) | !named {
        return calls::SetUp {
            answer: dots::Answer::BadName,
            state: fresh_state(0, &name[0..0]),
        };
    }
    calls::SetUp {
        answer: dots::Answer::Done,
        state: fresh_state(actor, name),
    }
}

// ---- compaction

// Drops the dead keys of an undamaged state's store, and leaves its tombstone empty.
fn compact_done(state: calls::State, store: &mut [u8]) -> calls::Outcome
    requires { (is_damaged state store.old ≡ false) × Sized state }
    ensures { Leaves (compact_done state store.old) store.new [] result }
{
    let used = state.used;
    let left = compaction::compact(
        state.name.len,
        &mut store[..used],
        &state.tombstone.bytes,
        state.tombstone.count,
    );
    calls::Outcome {
        answer: dots::Answer::Done,
        state: calls::State {
            tombstone: calls::Tombstone {
                bytes: [0u8; dots::TOMBSTONE_SIZE],
                count: 0,
            },
            used: left,
            ..state
        },
        written: 0,
    }
}

// Drops the keys whose dots are in the tombstone, and empties it. With no dots there all stays.
pub fn compact(state: calls::State, store: &mut [u8]) -> calls::Outcome
    ensures { Leaves (compact_result state store.old) store.new [] result }
{
    let damage = judging::damaged(&state, store);
    if damage | (state.tombstone.count == 0) {
        return calls::Outcome {
            answer: dots::first_of(&[(damage, dots::Answer::Damaged)]),
            state,
            written: 0,
        };
    }
    compact_done(state, store)
}

// What a compaction answers. With no dots in the tombstone that is all of it: state and store stay.
pub fn compact_answer(state: calls::State, store: &[u8]) -> dots::Answer
    ensures { result ≡ (compact_result state store.now).answer }
{
    let damage = judging::damaged(&state, store);
    dots::first_of(&[(damage, dots::Answer::Damaged)])
}
