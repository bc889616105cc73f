// Taking a message in: one that another controller of the set wrote, or the same.

#![tactic(auto)]

ghost use Rattle.std.specs.Prelude.{◌≡◌, [], length, Ok};
ghost use Rattle.wire.specs.Bytes.{part_of};
ghost use Rattle.dots.specs.Answer.{first_of};
ghost use Rattle.messages.specs.Read.{read_of, read_as};
ghost use Rattle.calls.specs.Calls.{take_in_result};
ghost use Rattle.calls.specs.Promise.{Leaves};
ghost use Rattle.dots.specs.Wire.{dots_of};
ghost use Rattle.judging.specs.Judging.{LowPart};
ghost use Rattle.steps.specs.Tests.{passed, Told, MayApply, MayRemove, removed_state, done_with};
ghost use Rattle.intake.specs.Work.{taken_of, taken_early, TakesIn, MayJudge, TookAdd};

// The refusals 7 and 8.
fn taken_early(other: bool, ahead: bool) -> Result<(), dots::Answer>
    ensures { result ≡ passed (first_of (taken_early other ahead)) }
{
    steps::refused(&[
        (other, dots::Answer::OtherSet),
        (ahead, dots::Answer::OwnAhead),
    ])
}

// The refusals 7, 8 and 10 to 12 of a message, for a store of so many bytes.
fn taken_late(
    state: &calls::State,
    size: usize,
    message: &[u8],
    read: messages::MessageFields,
) -> Result<(), dots::Answer>
    requires { MayJudge state.now message.now (read_as (Ok read)) }
    ensures { result ≡ passed (first_of (taken_of state.now size message.now)) }
{
    let context = wire::part(message, read.context.at, read.context.len);
    let own = state.actor;
    let base = steps::own_base(state);
    let ahead = steps::own_ahead(own, base, context);
    let given = wire::part(message, read.name.at, read.name.len);
    let other = steps::other_set(&state.name.bytes[..state.name.len], given);
    match read.kind {
        messages::MessageKind::Add => {
            let label = wire::part(message, read.label.at, read.label.len);
            taken_early(other, steps::dot_ahead(own, base, read.dot) | ahead)?;
            let crowded = steps::crowded(state, size, label);
            steps::add_late(state, context, read.dot, crowded, false)
        }
        messages::MessageKind::Remove => {
            taken_early(other, ahead)?;
            steps::remove_late(state, context, false)
        }
    }
}

// The refusals of taking in a message that was read; what is not refused is handed back.
fn take_answer(
    state: &calls::State,
    message: &[u8],
    read: Result<messages::MessageFields, dots::Answer>,
    lent: steps::Lent,
) -> Result<messages::MessageFields, dots::Answer>
    requires { (read_as read ≡ read_of message.now) × Told state.now lent }
    ensures { TakesIn state.now message.now lent read result }
{
    if lent.damage {
        return Err(dots::Answer::Damaged);
    }
    let fields = read?;
    taken_late(state, lent.store, message, fields)?;
    Ok(fields)
}

// The label of a message that was read; of one that is refused no bytes.
fn label_of<'a>(message: &'a [u8], read: Result<messages::MessageFields, dots::Answer>) -> &'a [u8]
    requires { read_as read ≡ read_of message.now }
    ensures { result.now ≡ part_of message.now (read_as read).label }
{
    match read {
        Ok(fields) => wire::part(message, fields.label.at, fields.label.len),
        Err(_) => &message[..0],
    }
}

// Applies an add. The keys of its label do not stand in the first `low` bytes. `own::add_done` ends alike; the reason stands there.
fn take_add(
    state: calls::State,
    store: &mut [u8],
    label: &[u8],
    context: &[u8],
    dot: dots::Dot,
    low: usize,
) -> calls::Outcome
    requires { MayApply state store.old label.now context.now dot × LowPart state store.old label.now low }
    ensures { TookAdd state store.old label.now context.now dot store.new result }
{
    let used = steps::store_add(&state, store, label, dot, low);
    let mut words = state.clock.words;
    let mut tombstone = state.tombstone;
    steps::join_add(&mut words, &mut tombstone, context, dot);
    calls::Outcome {
        answer: dots::Answer::Done,
        state: calls::State {
            clock: clock::Clock { words: words },
            tombstone: tombstone,
            used: used,
            ..state
        },
        written: 0,
    }
}

// Applies a context. `own::remove_done` ends alike; the reason stands at `own::add_done`.
fn take_remove(state: calls::State, context: &[u8]) -> calls::Outcome
    requires { MayRemove state context.now }
    ensures { result ≡ done_with (removed_state state (dots_of context.now)) }
{
    let mut words = state.clock.words;
    let mut tombstone = state.tombstone;
    steps::join_context(&mut words, &mut tombstone, context);
    calls::Outcome {
        answer: dots::Answer::Done,
        state: calls::State {
            clock: clock::Clock { words: words },
            tombstone: tombstone,
            ..state
        },
        written: 0,
    }
}

// Takes a message in.
pub fn take_in(state: calls::State, store: &mut [u8], message: &[u8]) -> calls::Outcome
    ensures { Leaves (take_in_result state store.old message.now) store.new [] result }
{
    let read = messages::read_message(message);
    let label = label_of(message, read);
    let judged = judging::judge(&state, store, label);
    let lent = steps::Lent {
        store: store.len(),
        out: 0,
        damage: judged.is_none(),
    };
    let fields = match take_answer(&state, message, read, lent) {
        Ok(fields) => fields,
        Err(answer) => {
            return calls::Outcome {
                answer,
                state,
                written: 0,
            };
        }
    };
    let context = wire::part(message, fields.context.at, fields.context.len);
    match fields.kind {
        messages::MessageKind::Add => {
            let low = judged.unwrap_or(0);
            take_add(state, store, label, context, fields.dot, low)
        }
        messages::MessageKind::Remove => take_remove(state, context),
    }
}
