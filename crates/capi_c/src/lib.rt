// The C interface as a static library: each export calls the function of capi with its name, under the same clauses.

#![tactic(auto)]

ghost use Rattle.std.specs.Prelude.{◌≡◌};
ghost use Rattle.capi.specs.Left.{take_in_left, compact_left, load_left};
ghost use Rattle.capi.specs.Promise.{interface_version, SetsUp, OwnAdds, OwnRemoves, Changes, ListsLabels, PagesLabels, MergesLabels, WritesImage, LooksUp, WritesKeyOf, ReadsKeyIn, ReadsMessageIn};

// Tells the version of the interface.
#[unsafe(no_mangle)]
pub extern "C" fn ptl_version() -> u32
    ensures { result ≡ interface_version }
{
    capi::ptl_version()
}

// ---- the calls of the controller

// Sets a controller up. A refused set-up leaves a block of zeros.
#[unsafe(no_mangle)]
pub extern "C" fn ptl_set_up(actor: u8, name: &[u8], state: &mut [u8]) -> u8
    ensures { SetsUp actor name.now state.old state.new result }
{
    capi::ptl_set_up(actor, name, state)
}

// Adds a label under a new dot of this controller, and removes a context. Writes the add message.
#[unsafe(no_mangle)]
pub extern "C" fn ptl_own_add(
    state: &mut [u8],
    store: &mut [u8],
    label: &[u8],
    context: &[u8],
    out: &mut [u8],
    written: &mut usize,
) -> u8
    ensures { OwnAdds state store label context out written result }
{
    capi::ptl_own_add(state, store, label, context, out, written)
}

// Removes a context. Writes the remove message.
#[unsafe(no_mangle)]
pub extern "C" fn ptl_own_remove(
    state: &mut [u8],
    store: &[u8],
    context: &[u8],
    out: &mut [u8],
    written: &mut usize,
) -> u8
    ensures { OwnRemoves state store context out written result }
{
    capi::ptl_own_remove(state, store, context, out, written)
}

// Takes a message in.
#[unsafe(no_mangle)]
pub extern "C" fn ptl_take_in(state: &mut [u8], store: &mut [u8], message: &[u8]) -> u8
    ensures { Changes (take_in_left state.old store.old message.now) state.new store.new result }
{
    capi::ptl_take_in(state, store, message)
}

// Lists the labels.
#[unsafe(no_mangle)]
pub extern "C" fn ptl_list(
    state: &[u8],
    store: &[u8],
    out: &mut [u8],
    written: &mut usize,
    labels: &mut usize,
) -> u8
    ensures { ListsLabels state store out written labels result }
{
    capi::ptl_list(state, store, out, written, labels)
}

// Lists the labels after a starting one, as many as fit, and tells whether more follow.
#[unsafe(no_mangle)]
pub extern "C" fn ptl_page(
    state: &[u8],
    store: &[u8],
    start: &[u8],
    out: &mut [u8],
    written: &mut usize,
    labels: &mut usize,
    more: &mut bool,
) -> u8
    ensures { PagesLabels state store start out written labels more result }
{
    capi::ptl_page(state, store, start, out, written, labels, more)
}

// Lists the labels of two controllers as one.
#[unsafe(no_mangle)]
pub extern "C" fn ptl_merge<'a>(
    first: &[u8],
    first_store: &'a [u8],
    second: &[u8],
    second_store: &'a [u8],
    out: &mut [u8],
    written: &mut usize,
    labels: &mut usize,
) -> u8
    ensures { MergesLabels first first_store second second_store out written labels result }
{
    capi::ptl_merge(
        first,
        first_store,
        second,
        second_store,
        out,
        written,
        labels,
    )
}

// Looks a label up: hands back the stretch of the lent store that holds its keys, and whether the listing has it.
#[unsafe(no_mangle)]
pub extern "C" fn ptl_lookup<'a>(
    state: &[u8],
    store: &'a [u8],
    label: &[u8],
    found: &mut &'a [u8],
    listed: &mut bool,
) -> u8
    ensures { LooksUp state.now store.entry label.now found.new listed.new result }
{
    capi::ptl_lookup(state, store, label, found, listed)
}

// Drops the keys whose dots are in the tombstone, and empties it. With no dots there the block stays as it is.
#[unsafe(no_mangle)]
pub extern "C" fn ptl_compact(state: &mut [u8], store: &mut [u8]) -> u8
    ensures { Changes (compact_left state.old store.old) state.new store.new result }
{
    capi::ptl_compact(state, store)
}

// ---- hand-off images

// Writes a hand-off image.
#[unsafe(no_mangle)]
pub extern "C" fn ptl_write_image(
    state: &[u8],
    store: &[u8],
    out: &mut [u8],
    written: &mut usize,
) -> u8
    ensures { WritesImage state store out written result }
{
    capi::ptl_write_image(state, store, out, written)
}

// Loads a hand-off image under an actor. A refused load leaves a block of zeros.
#[unsafe(no_mangle)]
pub extern "C" fn ptl_load_image(actor: u8, image: &[u8], state: &mut [u8], store: &mut [u8]) -> u8
    ensures { Changes (load_left actor image.now state.old store.old) state.new store.new result }
{
    capi::ptl_load_image(actor, image, state, store)
}

// ---- keys and messages

// Writes a key of the type of a type byte. A field that the type lacks is not looked at.
#[unsafe(no_mangle)]
pub extern "C" fn ptl_write_key(
    kind: u8,
    name: &[u8],
    label: &[u8],
    actor: u8,
    counter: u64,
    out: &mut [u8],
    written: &mut usize,
) -> u8
    ensures { WritesKeyOf kind name label actor counter out written result }
{
    capi::ptl_write_key(kind, name, label, actor, counter, out, written)
}

// Reads a key.
#[unsafe(no_mangle)]
pub extern "C" fn ptl_read_key(
    bytes: &[u8],
    kind: &mut u8,
    name_at: &mut usize,
    name_len: &mut usize,
    label_at: &mut usize,
    label_len: &mut usize,
    actor: &mut u8,
    counter: &mut u64,
) -> u8
    ensures { ReadsKeyIn bytes kind name_at name_len label_at label_len actor counter result }
{
    capi::ptl_read_key(
        bytes, kind, name_at, name_len, label_at, label_len, actor, counter,
    )
}

// Reads a message.
#[unsafe(no_mangle)]
pub extern "C" fn ptl_read_message(
    bytes: &[u8],
    kind: &mut u8,
    name_at: &mut usize,
    name_len: &mut usize,
    label_at: &mut usize,
    label_len: &mut usize,
    actor: &mut u8,
    counter: &mut u64,
    context_at: &mut usize,
    context_len: &mut usize,
) -> u8
    ensures { ReadsMessageIn bytes kind name_at name_len label_at label_len actor counter context_at context_len result }
{
    capi::ptl_read_message(
        bytes,
        kind,
        name_at,
        name_len,
        label_at,
        label_len,
        actor,
        counter,
        context_at,
        context_len,
    )
}
