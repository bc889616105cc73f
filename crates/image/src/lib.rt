// The hand-off image: a controller's state and keys in bytes, written, and loaded by the box that takes a dead one's place.

#![tactic(auto)]

ghost use Rattle.std.specs.Prelude.{◌≡◌, [], ◌+◌, ◌*◌, ◌≤◌, ◌<◌, ◌^◌, length, take};
ghost use Rattle.wire.specs.Bytes.{byte_at, big_endian, put_at, end_of, part_of};
ghost use Rattle.crc.specs.Crc.{crc_of};
ghost use Rattle.dots.specs.Answer.{first_of};
ghost use Rattle.dots.specs.declared.Answer.TheVariants.{Done};
ghost use Rattle.dots.specs.Names.{name_most};
ghost use Rattle.dots.specs.Dots.{actor_most, tombstone_most};
ghost use Rattle.clock.specs.Code.{row_of};
ghost use Rattle.clock.specs.Clock.{row_at};
ghost use Rattle.store.specs.Valid.{store_most};
ghost use Rattle.calls.specs.Damage.{damaged as is_damaged};
ghost use Rattle.calls.specs.Calls.{fresh_state};
ghost use Rattle.calls.specs.Image.{row_size, row_bytes, rows_bytes, image_bytes};
ghost use Rattle.calls.specs.ImageRead.{four_at, version_ok, layout_of, shape_ok, Within, crc_ok, row_in, clock_in, state_at, written_at, free_of, writer_ok};
ghost use Rattle.calls.specs.HandOff.{image_result, loaded_at, load_result};
ghost use Rattle.image.specs.Sizes.{window_size, rows_size, actor_fixed, image_size};
ghost use Rattle.image.specs.Writing.{FrontPut, KeysPut, RestFits, RestPut, image_of, PartsFit, PutsImage, Writable};
ghost use Rattle.steps.specs.Tests.{passed};
ghost use Rattle.image.specs.Loading.{Small, Loadable, field_refusals, early_refusals, late_refusals, fields_result};
ghost use Rattle.image.specs.Promise.{WritesImage, LoadsImage};

mod places;

use places::{Image, ImageFields};

// ---- sizes

// The version that is taken, and the kind byte.
const IMAGE_VERSION: usize = 1;

const IMAGE_KIND: u8 = b'i';
// Bytes of a row, base and window, and of all rows.
const ROW_SIZE: usize = clock::ROW_WORDS * 8;

const ROWS_SIZE: usize = dots::ACTOR_MOST as usize * ROW_SIZE;
// Bytes of the used length, and of the CRC.
const USED_SIZE: usize = 4;

const CRC_SIZE: usize = 4;
// Bytes of an image beside name, tombstone and keys: what a remove message has beside name and dots; writer's actor, rows, used length, CRC.
pub const IMAGE_FIXED: usize = messages::REMOVE_FIXED + 1 + ROWS_SIZE + USED_SIZE + CRC_SIZE;

// ---- writing

// Puts a row at a place. Returns the place after it.
fn put_row(out: &mut [u8], at: usize, row: clock::Row) -> usize
    requires { at + row_size window_size ≤ length out.old }
    ensures { (result ≡ at + row_size window_size) × (out.new ≡ put_at out.old at (row_bytes window_size (row_of row))) }
{
    let next = moves::put_number(out, at, row.base);
    moves::put_number(out, next, row.window)
}

// Puts the rows of all actors.
fn put_rows(out: &mut [u8], at: usize, words: &clock::Words) -> usize
    requires { at + rows_size ≤ length out.old }
    ensures { (result ≡ at + rows_size) × (out.new ≡ put_at out.old at (rows_bytes window_size actor_most words.now)) }
{
    let mut next = at;
    for a in 0..dots::ACTOR_MOST {
        let row = clock::row_of(words, dots::Actor { number: a + 1 });
        next = put_row(out, next, row);
    }
    next
}

// Puts mark, version, kind, set name and writer's actor at the front.
fn put_front(out: &mut [u8], name: &[u8], actor: u8) -> usize
    requires { (length name.now ≤ name_most) × (actor_fixed + length name.now ≤ length out.old) }
    ensures { FrontPut name.now actor out.old out.new result }
{
    let next = messages::put_front(out, IMAGE_KIND, name);
    moves::put(out, next, &[actor])
}

// Puts the used length and the keys.
fn put_keys(out: &mut [u8], at: usize, keys: &[u8]) -> usize
    requires { (length keys.now ≤ store_most) × (at + 4 + length keys.now ≤ length out.old) }
    ensures { KeysPut keys.now at out.old out.new result }
{
    let next = moves::put_four(out, at, keys.len() as u32);
    moves::put(out, next, keys)
}

// Puts rows, tombstone, used length and keys.
fn put_rest(out: &mut [u8], at: usize, words: &clock::Words, tombstone: &[u8], keys: &[u8]) -> usize
    requires { RestFits tombstone.now keys.now at (length out.old) }
    ensures { RestPut words.now tombstone.now keys.now at out.old out.new result }
{
    let count_at = put_rows(out, at, words);
    let count = (tombstone.len() / dots::DOT_SIZE) as u8;
    let used_at = messages::put_counted(out, count_at, count, tombstone);
    put_keys(out, used_at, keys)
}

// Puts the CRC of the bytes before a place.
fn put_crc(out: &mut [u8], at: usize) -> usize
    requires { at + 4 ≤ length out.old }
    ensures { (result ≡ at + 4) × (out.new ≡ put_at out.old at (big_endian 4 (crc_of (take at out.old)))) }
{
    let crc = crc::crc(&out[..at]);
    moves::put_four(out, at, crc)
}

// Puts the image of these parts at the front. Returns its length.
fn put_parts(
    out: &mut [u8],
    actor: u8,
    name: &[u8],
    words: &clock::Words,
    tombstone: &[u8],
    keys: &[u8],
) -> usize
    requires { PartsFit name.now tombstone.now keys.now (length out.old) }
    ensures { PutsImage (image_of actor name.now words.now tombstone.now keys.now) out.old out.new result }
{
    let at = put_front(out, name, actor);
    let crc_at = put_rest(out, at, words, tombstone, keys);
    put_crc(out, crc_at)
}

// Puts the image of a state and its store.
fn put_image(out: &mut [u8], state: &calls::State, store: &[u8]) -> usize
    requires { Writable state.now (length store.now) × (image_size state.now ≤ length out.old) }
    ensures { PutsImage (image_bytes state.now store.now) out.old out.new result }
{
    let size = state.tombstone.count * dots::DOT_SIZE;
    put_parts(
        out,
        state.actor.number,
        &state.name.bytes[..state.name.len],
        &state.clock.words,
        &state.tombstone.bytes[..size],
        &store[..state.used],
    )
}

// How long an image is.
fn image_size(state: &calls::State) -> usize
    requires { (state.now.name.len ≤ name_most) × (state.now.tombstone.count ≤ tombstone_most) × (state.now.used ≤ store_most) }
    ensures { result ≡ image_size state.now }
{
    IMAGE_FIXED + state.name.len + state.tombstone.count * dots::DOT_SIZE + state.used
}

// Writes an image. Tells how many bytes were put out.
pub fn write_image(state: calls::State, store: &[u8], out: &mut [u8]) -> Result<usize, dots::Answer>
    ensures { WritesImage (image_result state store.now out.old) out.new result }
{
    if judging::damaged(&state, store) {
        return Err(dots::Answer::Damaged);
    }
    if out.len() < image_size(&state) {
        return Err(dots::Answer::OutputShort);
    }
    Ok(put_image(out, &state, store))
}

// ---- reading

// The number in the two bytes at a place; bytes past the end count as 0.
fn two_at(s: &[u8], at: usize) -> usize
    requires { at ≤ 4096 }
    ensures { (result ≡ byte_at s.now at * 256 + byte_at s.now (at + 1)) × (result < 2 ^ 16) }
{
    wire::size_at(s, at) * 256 + wire::size_at(s, at + 1)
}

// The same of four bytes.
fn four_at(s: &[u8], at: usize) -> usize
    requires { at + 2 ≤ 4096 }
    ensures { (result ≡ four_at s.now at) × (result < 2 ^ 32) }
{
    two_at(s, at) * 65536 + two_at(s, at + 2)
}

// Where the fields lie, by the length fields.
fn layout_of(s: &[u8]) -> calls::ImageLayout
    ensures { (result ≡ layout_of s.now) × Small result }
{
    let name = messages::counted_at(s, 6);
    let actor = name.at + name.len;
    let rows = actor + 1;
    let count_at = rows + ROWS_SIZE;
    let count = wire::size_at(s, count_at);
    let dots = messages::dots_counted_at(s, count_at);
    let used_at = dots.at + dots.len;
    let used = four_at(s, used_at);
    calls::ImageLayout {
        name,
        actor,
        rows,
        count,
        dots,
        keys: wire::Span {
            at: used_at + USED_SIZE,
            len: used,
        },
    }
}

// The row at a place.
fn row_in(s: &[u8], at: usize) -> clock::Row
    requires { at + row_size window_size ≤ length s.now }
    ensures { row_of result ≡ row_in window_size s.now at }
{
    clock::Row {
        base: wire::number_at(s, at),
        window: wire::number_at(s, at + 8),
    }
}

// The clock with the rows from a place on.
fn words_in(s: &[u8], at: usize) -> clock::Words
    requires { at + rows_size ≤ length s.now }
    ensures { result ≡ clock_in window_size actor_most s.now at }
{
    let mut words = [0u64; clock::CLOCK_WORDS];
    for a in 0..dots::ACTOR_MOST {
        let row = row_in(s, at + a as usize * ROW_SIZE);
        clock::set_row(&mut words, dots::Actor { number: a + 1 }, row);
    }
    words
}

// The bytes of a stretch.
fn bytes_in(s: &[u8], field: wire::Span) -> &[u8]
    requires { end_of field ≤ length s.now }
    ensures { result.now ≡ part_of s.now field }
{
    &s[field.at..field.at + field.len]
}

// The state of the fields, under an actor, made in place of one that is zero throughout.
fn state_in(actor: u8, image: ImageFields, state: &mut calls::State)
    requires { (state.old ≡ fresh_state 0 []) × (image.places.count ≤ tombstone_most) }
    ensures { state.new ≡ state_at actor image.entry.bytes.now image.entry.places }
{
    let ImageFields { bytes, places, .. } = image;
    moves::put(&mut state.name.bytes, 0, bytes_in(bytes, places.name));
    moves::put(&mut state.tombstone.bytes, 0, bytes_in(bytes, places.dots));
    state.actor = dots::Actor { number: actor };
    state.name.len = places.name.len;
    state.clock.words = words_in(bytes, places.rows);
    state.tombstone.count = places.count;
    state.used = places.keys.len;
}

// ---- the answer

// Whether the version is known.
fn version_ok(s: &[u8]) -> bool
    ensures { result ≡ version_ok s.now }
{
    two_at(s, 3) == IMAGE_VERSION
}

// Whether the kind is right, and the keys and four bytes more end where the bytes do.
fn shape_ok(image: Image) -> bool
    ensures { result ≡ shape_ok image.entry.bytes.now image.entry.places }
{
    let kind = wire::byte_at(image.bytes, 5);
    let keys = image.places.keys;
    (kind == IMAGE_KIND) & (keys.at + keys.len + CRC_SIZE == image.bytes.len())
}

// Whether the last four bytes are the CRC of those before them.
fn crc_ok(s: &[u8]) -> bool
    requires { 4 ≤ length s.now }
    ensures { result ≡ crc_ok s.now }
{
    let at = s.len() - CRC_SIZE;
    let crc = crc::crc(&s[..at]);
    wire::half_at(s, at) == crc as u64
}

// The row of an actor in the rows from a place on; of no actor it is zero.
fn actor_row(s: &[u8], rows: usize, actor: u8) -> clock::Row
    requires { rows + rows_size ≤ length s.now }
    ensures { row_of result ≡ row_at (clock_in window_size actor_most s.now rows) actor }
{
    if actor < 1 {
        return clock::Row { base: 0, window: 0 };
    }
    if dots::ACTOR_MOST < actor {
        return clock::Row { base: 0, window: 0 };
    }
    row_in(s, rows + (actor - 1) as usize * ROW_SIZE)
}

// Whether an actor is free: from 1 to 16, not the writer's, its row empty. Of the rows from a place on this one alone is read.
fn actor_free(actor: u8, writer: u8, s: &[u8], rows: usize) -> bool
    requires { rows + rows_size ≤ length s.now }
    ensures { result ≡ free_of actor writer (clock_in window_size actor_most s.now rows) }
{
    let row = actor_row(s, rows, actor);
    ((1 <= actor) & (actor <= dots::ACTOR_MOST))
        & (!(actor == writer) & ((row.base == 0) & (row.window == 0)))
}

// Whether set name and writer's actor keep their rules.
fn writer_ok(image: Image) -> bool
    ensures { result ≡ writer_ok image.entry.bytes.now image.entry.places }
{
    let name = image.places.name;
    let named = dots::name_ok(wire::part(image.bytes, name.at, name.len));
    let writer = wire::byte_at(image.bytes, image.places.actor);
    named & ((1 <= writer) & (writer <= dots::ACTOR_MOST))
}

// Refusals 14, 15 and 5, and 6 where there are more dots than a state holds.
fn checked_answer(actor: u8, image: Image) -> Result<(), dots::Answer>
    requires { Within image.bytes.now image.places }
    ensures { result ≡ passed (first_of (field_refusals actor image.entry.bytes.now image.entry.places)) }
{
    let Image { bytes, places, .. } = image;
    let writer = wire::byte_at(bytes, places.actor);
    let free = actor_free(actor, writer, bytes, places.rows);
    steps::refused(&[
        (!crc_ok(bytes), dots::Answer::BadChecksum),
        (!free, dots::Answer::ActorTaken),
        (!writer_ok(image), dots::Answer::BadName),
        (dots::TOMBSTONE_MOST < places.count, dots::Answer::BadDot),
    ])
}

// Refusals 1 to 4, then those of the fields of an image that has its shape.
fn load_answer(actor: u8, image: Image, store: &[u8]) -> Result<(), dots::Answer>
    ensures { result ≡ passed (first_of (early_refusals actor image.entry.bytes.now store.now)) }
{
    steps::refused(&[
        (store::STORE_MOST < store.len(), dots::Answer::Damaged),
        (!messages::mark_ok(image.bytes), dots::Answer::NoMark),
        (!version_ok(image.bytes), dots::Answer::BadVersion),
        (!shape_ok(image), dots::Answer::BadShape),
    ])?;
    checked_answer(actor, image)
}

// Whether the contents are a damaged state under the writer's actor. The state is lent, and the keys are judged where they stand.
fn contents_damaged(image: ImageFields, state: &calls::State) -> bool
    requires { state.now ≡ written_at image.bytes.now image.places }
    ensures { result ≡ is_damaged (written_at image.entry.bytes.now image.entry.places) (part_of image.entry.bytes.now image.entry.places.keys) }
{
    judging::damaged(state, bytes_in(image.bytes, image.places.keys))
}

// Refusals 6 and 12, for a store of so many bytes.
fn late_answer(room: usize, image: ImageFields, state: &calls::State) -> Result<(), dots::Answer>
    requires { state.now ≡ written_at image.bytes.now image.places }
    ensures { result ≡ passed (first_of (late_refusals room image.entry.bytes.now image.entry.places)) }
{
    steps::refused(&[
        (contents_damaged(image, state), dots::Answer::BadDot),
        (room < image.places.keys.len, dots::Answer::StoreFull),
    ])
}

// ---- loading

// Loads an image that is not refused: the writer's state becomes the actor's.
fn load_done(actor: u8, image: ImageFields, state: &mut calls::State, store: &mut [u8])
    requires { Loadable image.places (length store.old) × (state.old ≡ written_at image.bytes.now image.places) }
    ensures { LoadsImage (loaded_at actor image.entry.bytes.now store.old image.entry.places) store.new (record { answer = Done; state = state.new }) }
{
    moves::put(store, 0, bytes_in(image.bytes, image.places.keys));
    state.actor = dots::Actor { number: actor };
}

// Judges the fields of an image as the writer's state, and loads them. The one state is made in place of one that is zero throughout, which a refusal leaves.
fn load_fields(
    actor: u8,
    image: ImageFields,
    state: &mut calls::State,
    store: &mut [u8],
) -> dots::Answer
    requires { (state.old ≡ fresh_state 0 []) × (image.places.count ≤ tombstone_most) }
    ensures { LoadsImage (fields_result actor image.entry.bytes.now store.old image.entry.places) store.new (record { answer = result; state = state.new }) }
{
    let ImageFields { bytes, places, .. } = image;
    state_in(wire::byte_at(bytes, places.actor), image, state);
    if let Err(answer) = late_answer(store.len(), image, state) {
        *state = controller::fresh_state(0, &bytes[0..0]);
        return answer;
    }
    load_done(actor, image, state, store);
    dots::Answer::Done
}

// Loads an image.
pub fn load(actor: u8, image: &[u8], store: &mut [u8]) -> calls::SetUp
    ensures { LoadsImage (load_result actor image.now store.old) store.new result }
{
    let places = layout_of(image);
    let given = Image {
        bytes: image,
        places,
    };
    let mut state = controller::fresh_state(0, &image[0..0]);
    if let Err(answer) = load_answer(actor, given, store) {
        return calls::SetUp { answer, state };
    }
    let fields = ImageFields {
        bytes: image,
        places,
    };
    let answer = load_fields(actor, fields, &mut state, store);
    calls::SetUp { answer, state }
}
