// The calls that only read: listing, page, merged read and lookup.

#![tactic(auto)]

ghost use Rattle.std.specs.Prelude.{◌≡◌, false, ◌≤◌, length};
ghost use Rattle.dots.specs.Answer.{first_of};
ghost use Rattle.listing.specs.Listing.{PutsWanted};
ghost use Rattle.calls.specs.Refusals.{bad_start};
ghost use Rattle.calls.specs.Calls.{list_result, merge_result};
ghost use Rattle.calls.specs.Promise.{Lists, PagesAfter, LooksUp};
ghost use Rattle.steps.specs.Tests.{passed};
ghost use Rattle.reads.specs.Reads.{Readable, lines_in, put_answer, listed_of, early_refusals, set_refusals, Startable, IsStart, paged_of, LiveTestable, any_live};

// ---- lines put out

// Puts out the lines of keys that fit, without the dots of a tombstone; where all are wanted and do not fit, none.
fn put_used(
    n: usize,
    keys: &[u8],
    tombstone: &calls::Tombstone,
    all: bool,
    out: &mut [u8],
) -> listing::LinesPut
    requires { Readable n keys.now tombstone.now.bytes tombstone.now.count }
    ensures { PutsWanted all (lines_in n keys.now tombstone.now.bytes tombstone.now.count) out.old out.new result }
{
    let gone = &tombstone.bytes[..tombstone.count * dots::DOT_SIZE];
    let mut slots = [0u8; slots::SLOTS];
    slots::fill_slots(gone, &mut slots);
    let dead = slots::SlottedDots {
        dots: gone,
        slots: &slots,
    };
    listing::put_wanted(n, keys, dead, all, out)
}

// Refusal 13, where lines are left and none was put, else done: an answer and no result, as it goes into `Listed` and `Paged`, which hold one beside
// the counts.
fn put_answer(put: listing::LinesPut) -> dots::Answer
    ensures { result ≡ put_answer put }
{
    if put.more & (put.labels == 0) {
        return dots::Answer::OutputShort;
    }
    dots::Answer::Done
}

// What a listing gives of the lines put out.
fn listed(put: listing::LinesPut) -> calls::Listed
    ensures { result ≡ listed_of put }
{
    calls::Listed {
        answer: put_answer(put),
        written: put.bytes,
        labels: put.labels,
    }
}

// ---- listing

// Lists the labels.
pub fn list(state: calls::State, store: &[u8], out: &mut [u8]) -> calls::Listed
    ensures { Lists (list_result state store.now out.old) out.new result }
{
    if judging::damaged(&state, store) {
        return calls::Listed {
            answer: dots::Answer::Damaged,
            written: 0,
            labels: 0,
        };
    }
    let keys = &store[..state.used];
    listed(put_used(state.name.len, keys, &state.tombstone, true, out))
}

// The first of the refusals 1 and 5 that holds.
fn early_refusal(damage: bool, bad: bool) -> Result<(), dots::Answer>
    ensures { result ≡ passed (first_of (early_refusals damage bad)) }
{
    steps::refused(&[
        (damage, dots::Answer::Damaged),
        (bad, dots::Answer::BadName),
    ])
}

// ---- page

// Whether a starting label breaks its rule; the empty one is the front.
fn start_bad(start: &[u8]) -> bool
    ensures { result ≡ bad_start start.now }
{
    if start.len() == 0 {
        return false;
    }
    !dots::label_ok(start)
}

// Where a page starts in the keys of a set, of which the first `low` bytes come before all keys of the starting label.
fn page_start(keys: &[u8], name: &[u8], start: &[u8], low: usize) -> usize
    requires { Startable keys.now name.now start.now low }
    ensures { IsStart keys.now name.now start.now result }
{
    if start.len() == 0 {
        return 0;
    }
    let span = store::label_span(keys, name, start, low);
    span.at + span.len
}

// What a page gives of the lines put out.
fn paged(put: listing::LinesPut) -> calls::Paged
    ensures { result ≡ paged_of put }
{
    calls::Paged {
        answer: put_answer(put),
        written: put.bytes,
        labels: put.labels,
        more: put.more & (0 < put.labels),
    }
}

// Lists the labels after a starting one, as many as fit.
pub fn page(state: calls::State, store: &[u8], start: &[u8], out: &mut [u8]) -> calls::Paged
    ensures { PagesAfter state store.now start.now out.old out.new result }
{
    let judged = judging::judge(&state, store, start);
    if let Err(answer) = early_refusal(judged.is_none(), start_bad(start)) {
        return calls::Paged {
            answer,
            written: 0,
            labels: 0,
            more: false,
        };
    }
    let name = &state.name.bytes[..state.name.len];
    let keys = &store[..state.used];
    let from = page_start(keys, name, start, judged.unwrap_or(0));
    paged(put_used(state.name.len, &keys[from..], &state.tombstone, false, out))
}

// ---- merged read

// The first of the refusals 1 and 7 that holds, by whether a state is damaged and by the set names of both.
fn merge_refusal(
    damage: bool,
    name: &calls::SetName,
    given: &calls::SetName,
) -> Result<(), dots::Answer>
    requires { damage ≡ false → (name.now.len ≤ length name.now.bytes) × (given.now.len ≤ length given.now.bytes) }
    ensures { result ≡ passed (first_of (set_refusals damage name.now given.now)) }
{
    if damage {
        return Err(dots::Answer::Damaged);
    }
    if steps::other_set(&name.bytes[..name.len], &given.bytes[..given.len]) {
        return Err(dots::Answer::OtherSet);
    }
    Ok(())
}

// Lists the labels of two controllers as one. Of both states only the dots of the tombstones are copied, end to end.
pub fn merge<'a>(
    first: calls::State,
    a: &'a [u8],
    second: calls::State,
    b: &'a [u8],
    out: &mut [u8],
) -> calls::Listed
    ensures { Lists (merge_result first a.now second b.now out.old) out.new result }
{
    let first_damaged = judging::damaged(&first, a);
    let second_damaged = judging::damaged(&second, b);
    let damage = first_damaged | second_damaged;
    if let Err(answer) = merge_refusal(damage, &first.name, &second.name) {
        return calls::Listed {
            answer,
            written: 0,
            labels: 0,
        };
    }
    let count = first.tombstone.count;
    let more = second.tombstone.count;
    let mut dead = [0u8; merge::DEAD_SIZE];
    let split = merge::put_tombstone(&mut dead, 0, &first.tombstone.bytes, count);
    let end = merge::put_tombstone(&mut dead, split, &second.tombstone.bytes, more);
    let used = first.used;
    let size = second.used;
    listed(merge::put_merged(
        first.name.len,
        split,
        &a[..used],
        &b[..size],
        &dead[..end],
        &first.clock.words,
        &second.clock.words,
        out,
    ))
}

// ---- lookup

// Whether some key's dot is not in the tombstone.
fn any_listed(n: usize, keys: &[u8], tombstone: &calls::Tombstone) -> bool
    requires { LiveTestable n keys.now tombstone.now }
    ensures { result ≡ any_live n keys.now tombstone.now }
{
    let size = tombstone.count * dots::DOT_SIZE;
    listing::any_live(n, keys, &tombstone.bytes[..size])
}

// Looks a label up: hands back the stretch of the lent store that holds its keys. Number and listed are written through references: `LooksUp` of calls
// says of a refusal too what both are, and ptl_lookup hands them on as C takes them; a struct would be taken apart there at once.
pub fn lookup<'a>(
    state: calls::State,
    store: &'a [u8],
    label: &[u8],
    number: &mut u8,
    listed: &mut bool,
) -> &'a [u8]
    ensures { LooksUp state store.entry label.now number.new listed.new result }
{
    let judged = judging::judge(&state, store, label);
    *number = dots::Answer::Done as u8;
    *listed = false;
    if let Err(answer) = early_refusal(judged.is_none(), !dots::label_ok(label)) {
        *number = u8::from(answer);
        return &store[0..0];
    }
    let name = &state.name.bytes[..state.name.len];
    let keys = &store[..state.used];
    let stretch = store::stretch(keys, name, label, judged.unwrap_or(0));
    *listed = any_listed(state.name.len, stretch, &state.tombstone);
    stretch
}
