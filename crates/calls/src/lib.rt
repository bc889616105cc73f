// The calls of a controller as definitions, in specs/, with demand 3 about them; here the state and what a call gives.

#![tactic(auto)]

// A set name: its first len bytes; the others are 0. Fixed memory, no heap; the block of C holds the same two fields (`name_in` in block/specs/Block).
#[derive(Clone, Copy)]
pub struct SetName {
    pub bytes: [u8; dots::NAME_MOST],
    pub len: usize,
}

// The tombstone: its first count dots, nine bytes each; the other bytes are 0. Fixed memory, no heap; the block of C holds the same (`tombstone_in` there).
#[derive(Clone, Copy)]
pub struct Tombstone {
    pub bytes: [u8; dots::TOMBSTONE_SIZE],
    pub count: usize,
}

// What a controller holds, but for the store. C lends the store to each call, and the state keeps how much of it is used.
#[derive(Clone, Copy)]
pub struct State {
    pub name: SetName,
    pub clock: clock::Clock,
    pub tombstone: Tombstone,
    pub used: usize,
    pub actor: dots::Actor,
}

// ---- what calls give
//
// Records of an answer and values, and no `Result`s: what they say of a refusal too (state, counts) is promised by `Leaves`, `Lists`
// and `PagesAfter` (specs/Promise), and demand 3 (specs/Demand3) speaks of these records.

// What set-up gives; a record for `set_up` (specs/Calls) and `LoadsImage` (image/specs/Promise), which say the state after a refusal too.
#[derive(Clone, Copy)]
pub struct SetUp {
    pub answer: dots::Answer,
    pub state: State,
}

// What a call gives that may change the state: the answer, the new state, and how many bytes were put out.
#[derive(Clone, Copy)]
pub struct Outcome {
    pub answer: dots::Answer,
    pub state: State,
    pub written: usize,
}

// What listing gives: the answer, how many bytes were put out, and how many labels they list.
#[derive(Clone, Copy)]
pub struct Listed {
    pub answer: dots::Answer,
    pub written: usize,
    pub labels: usize,
}

// What a page gives: the answer, how many bytes were put out, how many labels they list, and whether more follow.
#[derive(Clone, Copy)]
pub struct Paged {
    pub answer: dots::Answer,
    pub written: usize,
    pub labels: usize,
    pub more: bool,
}

// Where the fields of a hand-off image lie: set name, writer's actor, rows, number of dots in the tombstone, its dots, keys.
#[derive(Clone, Copy)]
pub struct ImageLayout {
    pub name: wire::Span,
    pub actor: usize,
    pub rows: usize,
    pub count: usize,
    pub dots: wire::Span,
    pub keys: wire::Span,
}
