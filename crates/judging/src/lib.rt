// Judging a state and its store: refusal 1, and in the same pass where the keys of a label can stand.

#![tactic(auto)]

ghost use Rattle.std.specs.Prelude.{◌≡◌, true, ◌≤◌, eqb};
ghost use Rattle.wire.specs.Lists.{all};
ghost use Rattle.dots.specs.Names.{name_most, name_ok};
ghost use Rattle.dots.specs.Wire.{dots_of};
ghost use Rattle.clock.specs.Clock.{sees};
ghost use Rattle.calls.specs.State.{name_of};
ghost use Rattle.calls.specs.Damage.{damaged as is_damaged};
ghost use Rattle.judging.specs.Judging.{is_set_name, is_tombstone, state_ok, JudgesStore, Judges};

// Whether every byte is 0. Each byte is read: the compiler then reads many at once.
fn all_zero(s: &[u8]) -> bool
    ensures { result ≡ all (λ b. eqb b 0) s.now }
{
    let mut bits = 0;
    for b in s {
        bits |= *b;
    }
    bits == 0
}

// Whether the clock sees every dot.
fn all_seen(words: &clock::Words, seen: &[u8]) -> bool
    ensures { result ≡ all (sees words.now) (dots_of seen.now) }
{
    dots::dots_in(seen).all(|dot| clock::sees(words, dot))
}

// Whether the first bytes, as many as the name is long, are a set name, and the others 0.
fn set_name_ok(name: &calls::SetName) -> bool
    ensures { result ≡ is_set_name name.now.bytes name.now.len }
{
    if dots::NAME_MOST < name.len {
        return false;
    }
    let text = dots::name_ok(&name.bytes[..name.len]);
    text & all_zero(&name.bytes[name.len..])
}

// Whether the dots that count are a tombstone of the clock, and the other bytes 0.
fn tombstone_ok(words: &clock::Words, tombstone: &calls::Tombstone) -> bool
    ensures { result ≡ is_tombstone words.now tombstone.now.bytes tombstone.now.count }
{
    if dots::TOMBSTONE_MOST < tombstone.count {
        return false;
    }
    let used = tombstone.count * dots::DOT_SIZE;
    let ascend = contexts::ascending_dots(&tombstone.bytes[..used]);
    let seen = all_seen(words, &tombstone.bytes[..used]);
    ascend & (seen & all_zero(&tombstone.bytes[used..]))
}

// Whether actor, set name, clock and tombstone keep their rules.
fn state_ok(state: &calls::State) -> bool
    ensures { result ≡ state_ok state.now }
{
    let own = state.actor;
    let named = set_name_ok(&state.name);
    let rows = clock::clock_ok(own, &state.clock.words);
    let removed = tombstone_ok(&state.clock.words, &state.tombstone);
    ((1 <= own.number) & (own.number <= dots::ACTOR_MOST)) & (named & (rows & removed))
}

// Whether the store is undamaged, and how many used bytes come before all keys of a label.
fn judge_store(state: &calls::State, store: &[u8], label: &[u8]) -> Option<usize>
    requires { (state.now.name.len ≤ name_most) × (name_ok (name_of state.now) ≡ true) }
    ensures { JudgesStore state.now.name state.now.clock.words store.now state.now.used label.now result }
{
    let name = &state.name.bytes[..state.name.len];
    store::judge(name, &state.clock.words, store, state.used, label)
}

// Refusal 1, and where to look for a label.
pub fn judge(state: &calls::State, store: &[u8], label: &[u8]) -> Option<usize>
    ensures { Judges state.now store.now label.now result }
{
    if !state_ok(state) {
        return None;
    }
    judge_store(state, store, label)
}

// Refusal 1.
pub fn damaged(state: &calls::State, store: &[u8]) -> bool
    ensures { result ≡ is_damaged state.now store.now }
{
    judge(state, store, &store[0..0]).is_none()
}
