// The calls that a controller makes of its own: own add and own remove.

#![tactic(auto)]

ghost use Rattle.std.specs.Prelude.{◌≡◌, ◌+◌, ◌≤◌, length};
ghost use Rattle.dots.specs.Answer.{first_of};
ghost use Rattle.dots.specs.Dots.{max_counter};
ghost use Rattle.clock.specs.Clock.{row_at};
ghost use Rattle.steps.specs.Tests.{passed, own_next, Told};
ghost use Rattle.own.specs.Work.{add_early, remove_early, AddAnswers, RemoveAnswers, MayAdd, Added, MayWriteRemove, Removed};
ghost use Rattle.calls.specs.Calls.{own_add_result, own_remove_result};
ghost use Rattle.calls.specs.Promise.{Leaves};

// ---- own add

// The dot that an own add takes.
fn next_dot(state: &calls::State) -> dots::Dot
    requires { (row_at state.now.clock.words state.now.actor.number).base + 1 ≤ max_counter }
    ensures { result ≡ own_next state.now }
{
    let base = steps::own_base(state);
    dots::Dot {
        actor: state.actor,
        counter: dots::Counter { number: base + 1 },
    }
}

// The refusals 1, 5, 6, 8 and 9 of an own add. `damage` is refusal 1.
fn add_early(
    state: &calls::State,
    label: &[u8],
    context: &[u8],
    damage: bool,
) -> Result<(), dots::Answer>
    ensures { result ≡ passed (first_of (add_early damage state.now.actor state.now.clock.words label.now context.now)) }
{
    let own = state.actor;
    let base = steps::own_base(state);
    let named = dots::label_prints(label);
    let bad = steps::context_bad(context);
    let taken = steps::has_next(own, base, context);
    let ahead = steps::own_ahead(own, base, context);
    steps::refused(&[
        (damage, dots::Answer::Damaged),
        (!named, dots::Answer::BadName),
        (bad | taken, dots::Answer::BadDot),
        (ahead, dots::Answer::OwnAhead),
        (base == u64::MAX, dots::Answer::CounterEnd),
    ])
}

// The refusals of an own add.
fn add_answer(
    state: &calls::State,
    label: &[u8],
    context: &[u8],
    lent: steps::Lent,
) -> Result<(), dots::Answer>
    requires { Told state.now lent }
    ensures { AddAnswers state.now label.now context.now lent result }
{
    add_early(state, label, context, lent.damage)?;
    let dot = next_dot(state);
    let short = lent.out < state.name.len + label.len() + context.len() + messages::ADD_FIXED;
    let crowded = steps::crowded(state, lent.store, label);
    steps::add_late(state, context, dot, crowded, short)
}

// Writes the add message, and applies the add. The label's keys do not stand in the first `low` bytes.
// `intake::take_add` ends alike: one function for both, with a state by value in and out, was tried and made the stack 9 KB deep, past the 8 KiB that a test
// holds each call below (docs/DECISIONS.md, rows "parts of a state" and "stack").
fn add_done(
    state: calls::State,
    store: &mut [u8],
    label: &[u8],
    context: &[u8],
    out: &mut [u8],
    low: usize,
) -> calls::Outcome
    requires { MayAdd state store.old label.now context.now (length out.old) low }
    ensures { Added state store.old label.now context.now out.old store.new out.new result }
{
    let dot = next_dot(&state);
    let name = state.name;
    let written = messages::write_add(&name.bytes[..name.len], label, dot, context, out);
    let used = steps::store_add(&state, store, label, dot, low);
    let mut words = state.clock.words;
    let mut tombstone = state.tombstone;
    steps::join_add(&mut words, &mut tombstone, context, dot);
    calls::Outcome {
        answer: dots::Answer::Done,
        state: calls::State {
            clock: clock::Clock { words },
            tombstone,
            used,
            ..state
        },
        written,
    }
}

// Adds a label under a new dot of this controller, and removes a context. Writes the add message.
pub fn own_add(
    state: calls::State,
    store: &mut [u8],
    label: &[u8],
    context: &[u8],
    out: &mut [u8],
) -> calls::Outcome
    ensures { Leaves (own_add_result state store.old label.now context.now out.old) store.new out.new result }
{
    let judged = judging::judge(&state, store, label);
    let lent = steps::Lent {
        store: store.len(),
        out: out.len(),
        damage: judged.is_none(),
    };
    if let Err(answer) = add_answer(&state, label, context, lent) {
        return calls::Outcome {
            answer,
            state,
            written: 0,
        };
    }
    add_done(state, store, label, context, out, judged.unwrap_or(0))
}

// ---- own remove

// The refusals 1, 6 and 8 of an own remove. `damage` is refusal 1.
fn remove_early(state: &calls::State, context: &[u8], damage: bool) -> Result<(), dots::Answer>
    ensures { result ≡ passed (first_of (remove_early damage state.now.actor state.now.clock.words context.now)) }
{
    let base = steps::own_base(state);
    let dot = steps::context_bad(context);
    let ahead = steps::own_ahead(state.actor, base, context);
    steps::refused(&[
        (damage, dots::Answer::Damaged),
        (dot, dots::Answer::BadDot),
        (ahead, dots::Answer::OwnAhead),
    ])
}

// The refusals of an own remove.
fn remove_answer(
    state: &calls::State,
    context: &[u8],
    lent: steps::Lent,
) -> Result<(), dots::Answer>
    requires { Told state.now lent }
    ensures { RemoveAnswers state.now context.now lent result }
{
    remove_early(state, context, lent.damage)?;
    let short = lent.out < state.name.len + context.len() + messages::REMOVE_FIXED;
    steps::remove_late(state, context, short)
}

// Writes the remove message, and applies the context. `intake::take_remove` ends alike, for the reason at `add_done`.
fn remove_done(state: calls::State, context: &[u8], out: &mut [u8]) -> calls::Outcome
    requires { MayWriteRemove state context.now (length out.old) }
    ensures { Removed state context.now out.old out.new result }
{
    let name = state.name;
    let mut words = state.clock.words;
    let mut tombstone = state.tombstone;
    let written = messages::write_remove(&name.bytes[..name.len], context, out);
    steps::join_context(&mut words, &mut tombstone, context);
    calls::Outcome {
        answer: dots::Answer::Done,
        state: calls::State {
            clock: clock::Clock { words },
            tombstone,
            ..state
        },
        written,
    }
}

// Removes a context. Writes the remove message.
pub fn own_remove(
    state: calls::State,
    store: &[u8],
    context: &[u8],
    out: &mut [u8],
) -> calls::Outcome
    ensures { Leaves (own_remove_result state store.now context.now out.old) store.now out.new result }
{
    let lent = steps::Lent {
        store: store.len(),
        out: out.len(),
        damage: judging::damaged(&state, store),
    };
    if let Err(answer) = remove_answer(&state, context, lent) {
        return calls::Outcome {
            answer,
            state,
            written: 0,
        };
    }
    remove_done(state, context, out)
}
