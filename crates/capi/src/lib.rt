// The C interface: the calls of the controller on a state that crosses as a block of bytes.
// Counts, places and lengths go out through references, one by one, as C takes them.

#![tactic(auto)]

ghost use Rattle.std.specs.Prelude.{◌≡◌};
ghost use Rattle.capi.specs.Left.{take_in_left, compact_left, load_left};
ghost use Rattle.capi.specs.Promise.{interface_version, SetsUp, OwnAdds, OwnRemoves, Changes, ListsLabels, PagesLabels, MergesLabels, WritesImage, LooksUp, WritesKeyOf, ReadsKeyIn, ReadsMessageIn};

// The version of this interface: 100 times its major number and its minor number.
const VERSION: u32 = 402;
// The numbers of a call that is done, of one that is given bytes that are no block, and of a type byte that is none.
const DONE: u8 = dots::Answer::Done as u8;

const NO_BLOCK: u8 = dots::Answer::Damaged as u8;

const NO_KIND: u8 = dots::Answer::BadShape as u8;

// Tells the version of the interface.
pub fn ptl_version() -> u32
    ensures { result ≡ interface_version }
{
    VERSION
}

// ---- the calls of the controller

// Sets a controller up. A refused set-up leaves a block of zeros.
pub fn ptl_set_up(actor: u8, name: &[u8], state: &mut [u8]) -> u8
    ensures { SetsUp actor name.now state.old state.new result }
{
    if state.len() != block::STATE_SIZE {
        return NO_BLOCK;
    }
    let done = controller::set_up(actor, name);
    block::pack(done.state, state);
    u8::from(done.answer)
}

// Adds a label under a new dot of this controller, and removes a context. Writes the add message.
pub fn ptl_own_add(
    state: &mut [u8],
    store: &mut [u8],
    label: &[u8],
    context: &[u8],
    out: &mut [u8],
    written: &mut usize,
) -> u8
    ensures { OwnAdds state store label context out written result }
{
    *written = 0;
    if state.len() != block::STATE_SIZE {
        return NO_BLOCK;
    }
    let done = own::own_add(block::unpack(state), store, label, context, out);
    *written = done.written;
    block::pack(done.state, state);
    u8::from(done.answer)
}

// Removes a context. Writes the remove message.
pub fn ptl_own_remove(
    state: &mut [u8],
    store: &[u8],
    context: &[u8],
    out: &mut [u8],
    written: &mut usize,
) -> u8
    ensures { OwnRemoves state store context out written result }
{
    *written = 0;
    if state.len() != block::STATE_SIZE {
        return NO_BLOCK;
    }
    let done = own::own_remove(block::unpack(state), store, context, out);
    *written = done.written;
    block::pack(done.state, state);
    u8::from(done.answer)
}

// Takes a message in.
pub fn ptl_take_in(state: &mut [u8], store: &mut [u8], message: &[u8]) -> u8
    ensures { Changes (take_in_left state.old store.old message.now) state.new store.new result }
{
    if state.len() != block::STATE_SIZE {
        return NO_BLOCK;
    }
    let done = intake::take_in(block::unpack(state), store, message);
    block::pack(done.state, state);
    u8::from(done.answer)
}

// Lists the labels.
pub fn ptl_list(
    state: &[u8],
    store: &[u8],
    out: &mut [u8],
    written: &mut usize,
    labels: &mut usize,
) -> u8
    ensures { ListsLabels state store out written labels result }
{
    *written = 0;
    *labels = 0;
    if state.len() != block::STATE_SIZE {
        return NO_BLOCK;
    }
    let done = reads::list(block::unpack(state), store, out);
    *written = done.written;
    *labels = done.labels;
    u8::from(done.answer)
}

// Lists the labels after a starting one, as many as fit, and tells whether more follow.
pub fn ptl_page(
    state: &[u8],
    store: &[u8],
    start: &[u8],
    out: &mut [u8],
    written: &mut usize,
    labels: &mut usize,
    more: &mut bool,
) -> u8
    ensures { PagesLabels state store start out written labels more result }
{
    *written = 0;
    *labels = 0;
    *more = false;
    if state.len() != block::STATE_SIZE {
        return NO_BLOCK;
    }
    let page = reads::page(block::unpack(state), store, start, out);
    *written = page.written;
    *labels = page.labels;
    *more = page.more;
    u8::from(page.answer)
}

// Lists the labels of two controllers as one.
pub fn ptl_merge<'a>(
    first: &[u8],
    first_store: &'a [u8],
    second: &[u8],
    second_store: &'a [u8],
    out: &mut [u8],
    written: &mut usize,
    labels: &mut usize,
) -> u8
    ensures { MergesLabels first first_store second second_store out written labels result }
{
    *written = 0;
    *labels = 0;
    if first.len() != block::STATE_SIZE {
        return NO_BLOCK;
    }
    if second.len() != block::STATE_SIZE {
        return NO_BLOCK;
    }
    let state = block::unpack(first);
    let done = reads::merge(state, first_store, block::unpack(second), second_store, out);
    *written = done.written;
    *labels = done.labels;
    u8::from(done.answer)
}

// Looks a label up: hands back the stretch of the lent store that holds its keys, and whether the listing has it.
pub fn ptl_lookup<'a>(
    state: &[u8],
    store: &'a [u8],
    label: &[u8],
    found: &mut &'a [u8],
    listed: &mut bool,
) -> u8
    ensures { LooksUp state.now store.entry label.now found.new listed.new result }
{
    if state.len() != block::STATE_SIZE {
        *found = &store[0..0];
        *listed = false;
        return NO_BLOCK;
    }
    let mut number = DONE;
    *found = reads::lookup(block::unpack(state), store, label, &mut number, listed);
    number
}

// Drops the keys whose dots are in the tombstone, and empties it. With no dots there the block stays as it is.
pub fn ptl_compact(state: &mut [u8], store: &mut [u8]) -> u8
    ensures { Changes (compact_left state.old store.old) state.new store.new result }
{
    if state.len() != block::STATE_SIZE {
        return NO_BLOCK;
    }
    let read = block::unpack(state);
    if read.tombstone.count == 0 {
        return u8::from(controller::compact_answer(read, store));
    }
    let done = controller::compact(read, store);
    block::pack(done.state, state);
    u8::from(done.answer)
}

// ---- hand-off images

// Writes a hand-off image.
pub fn ptl_write_image(state: &[u8], store: &[u8], out: &mut [u8], written: &mut usize) -> u8
    ensures { WritesImage state store out written result }
{
    *written = 0;
    if state.len() != block::STATE_SIZE {
        return NO_BLOCK;
    }
    match image::write_image(block::unpack(state), store, out) {
        Ok(size) => {
            *written = size;
            DONE
        }
        Err(answer) => u8::from(answer),
    }
}

// Loads a hand-off image under an actor. A refused load leaves a block of zeros.
pub fn ptl_load_image(actor: u8, image: &[u8], state: &mut [u8], store: &mut [u8]) -> u8
    ensures { Changes (load_left actor image.now state.old store.old) state.new store.new result }
{
    if state.len() != block::STATE_SIZE {
        return NO_BLOCK;
    }
    let done = image::load(actor, image, store);
    block::pack(done.state, state);
    u8::from(done.answer)
}

// ---- keys and messages

// Writes a key of the type of a type byte. A field that the type lacks is not looked at.
pub fn ptl_write_key(
    kind: u8,
    name: &[u8],
    label: &[u8],
    actor: u8,
    counter: u64,
    out: &mut [u8],
    written: &mut usize,
) -> u8
    ensures { WritesKeyOf kind name label actor counter out written result }
{
    *written = 0;
    let Ok(typed) = keys::KeyKind::try_from(kind) else {
        return NO_KIND;
    };
    let key = keys::NewKey {
        kind: typed,
        name,
        label,
        actor,
        counter,
    };
    match keys::write_key(key, out) {
        Ok(size) => {
            *written = size;
            DONE
        }
        Err(answer) => u8::from(answer),
    }
}

// Reads a key.
pub fn ptl_read_key(
    bytes: &[u8],
    kind: &mut u8,
    name_at: &mut usize,
    name_len: &mut usize,
    label_at: &mut usize,
    label_len: &mut usize,
    actor: &mut u8,
    counter: &mut u64,
) -> u8
    ensures { ReadsKeyIn bytes kind name_at name_len label_at label_len actor counter result }
{
    (*kind, *actor, *counter) = (0, 0, 0);
    (*name_at, *name_len) = (0, 0);
    (*label_at, *label_len) = (0, 0);
    match keys::read_key(bytes) {
        Ok(key) => {
            (*kind, *actor, *counter) = (u8::from(key.kind), key.actor, key.counter);
            (*name_at, *name_len) = (key.name.at, key.name.len);
            (*label_at, *label_len) = (key.label.at, key.label.len);
            DONE
        }
        Err(answer) => u8::from(answer),
    }
}

// Reads a message.
pub fn ptl_read_message(
    bytes: &[u8],
    kind: &mut u8,
    name_at: &mut usize,
    name_len: &mut usize,
    label_at: &mut usize,
    label_len: &mut usize,
    actor: &mut u8,
    counter: &mut u64,
    context_at: &mut usize,
    context_len: &mut usize,
) -> u8
    ensures { ReadsMessageIn bytes kind name_at name_len label_at label_len actor counter context_at context_len result }
{
    (*kind, *actor, *counter) = (0, 0, 0);
    (*name_at, *name_len) = (0, 0);
    (*label_at, *label_len) = (0, 0);
    (*context_at, *context_len) = (0, 0);
    match messages::read_message(bytes) {
        Ok(message) => {
            *kind = u8::from(message.kind);
            (*actor, *counter) = (message.dot.actor.number, message.dot.counter.number);
            (*name_at, *name_len) = (message.name.at, message.name.len);
            (*label_at, *label_len) = (message.label.at, message.label.len);
            (*context_at, *context_len) = (message.context.at, message.context.len);
            DONE
        }
        Err(answer) => u8::from(answer),
    }
}
