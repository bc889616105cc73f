// The clock: which events of each of 16 actors were seen. A row by value for one actor; the whole clock flat in 32 words.

#![tactic(auto)]

ghost use Rattle.std.specs.Prelude.{◌≡◌, ◌+◌, ◌<◌, ◌≤◌, true, ◌∷◌};
ghost use Rattle.dots.specs.Dots.{max_counter, actor_most, actor_of, dot_of};
ghost use Rattle.dots.specs.Wire.{dots_of};
ghost use Rattle.clock.specs.Row.{window_width, seen as is_seen, well_formed, in_reach, trailing_ones, settled, join as joined};
ghost use Rattle.clock.specs.Code.{row_of};
ghost use Rattle.clock.specs.Clock.{row_at, with_row, sees as is_seen_by, rows_ok, clock_ok, join_dot, join_each, join_all, near};
ghost use Rattle.clock.specs.Reach.{reach_of, reach_start, row_for, reach_step, reach_each, IsReach, dots_around};
ghost use Rattle.clock.specs.Reach.{CanJoinDot, Ready, Offer, OfferWith, CanJoinContext, CanJoinWithDot};

// ---- one row

// Bits of a window.
pub const WINDOW_WIDTH: u64 = 64;
// The same, as the number of its trailing ones is counted.
const WINDOW_RUN: u32 = WINDOW_WIDTH as u32;
// Words of a row and of the clock, a row for each actor.
pub const ROW_WORDS: usize = 2;

pub const CLOCK_WORDS: usize = dots::ACTOR_MOST as usize * ROW_WORDS;

pub type Words = [u64; CLOCK_WORDS];

// The clock: base and window of actor 1, those of actor 2, and so on.
// Words end to end, not an array of rows: contracts and theorems speak of them so (`row_at`, `with_row` in specs/Clock).
#[derive(Clone, Copy)]
pub struct Clock {
    pub words: Words,
}

// Events 1 to base are seen. Bit i of the window says that event base + 1 + i is seen.
#[derive(Clone, Copy)]
pub struct Row {
    pub base: u64,
    pub window: u64,
}

impl Row {
    // Whether the row sees an event.
    fn sees(self, counter: u64) -> bool
        ensures { result ≡ is_seen (row_of self) counter }
    {
        let base = self.base;
        let window = self.window;
        if counter <= base {
            return 1 <= counter;
        }
        let above = counter - base - 1;
        if WINDOW_WIDTH <= above {
            return false;
        }
        (window >> above) % 2 == 1
    }

    // Whether the row keeps its rules: part of the check for damage.
    fn is_well_formed(self) -> bool
        ensures { result ≡ well_formed window_width (row_of self) }
    {
        let base = self.base;
        let window = self.window;
        if window % 2 != 0 {
            return false;
        }
        let room = u64::MAX - base;
        if WINDOW_WIDTH <= room {
            return true;
        }
        window >> room == 0
    }

    // Whether the counter lies no more than 64 above the base.
    fn reaches(self, counter: u64) -> bool
        ensures { result ≡ in_reach window_width (row_of self) counter }
    {
        let base = self.base;
        if counter <= base {
            return 1 <= counter;
        }
        counter - base <= WINDOW_WIDTH
    }

    // Moves the base up by the run of low ones. A run of 64 leaves no bit, and is no shift.
    fn settled(self) -> Row
        requires { self.base + trailing_ones window_width self.window ≤ max_counter }
        ensures { row_of result ≡ settled window_width (row_of self) }
    {
        let base = self.base;
        let window = self.window;
        let run = (!window).trailing_zeros();
        if run < WINDOW_RUN {
            return Row {
                base: base + run as u64,
                window: window >> run,
            };
        }
        Row {
            base: base + WINDOW_WIDTH,
            window: 0,
        }
    }

    // The row that also sees the counter.
    fn join(self, counter: u64) -> Row
        requires { (well_formed window_width (row_of self) ≡ true) × (in_reach window_width (row_of self) counter ≡ true) }
        ensures { row_of result ≡ joined window_width (row_of self) counter }
    {
        if self.sees(counter) {
            return self;
        }
        let base = self.base;
        let window = self.window;
        let above = counter - base - 1;
        let marked = Row {
            base: base,
            window: window | (1u64 << above),
        };
        marked.settled()
    }
}

// ---- the clock of 16 rows

// The actor of the last dot, and its row with all dots so far, which are in reach.
#[derive(Clone, Copy)]
pub struct Reach {
    pub actor: dots::Actor,
    pub row: Row,
}

// The row of an actor; of no actor it is zero.
pub fn row_of(words: &Words, actor: dots::Actor) -> Row
    ensures { row_of result ≡ row_at words.now actor.number }
{
    let a = actor.number;
    if a < 1 {
        return Row { base: 0, window: 0 };
    }
    if dots::ACTOR_MOST < a {
        return Row { base: 0, window: 0 };
    }
    let first = (a - 1) as usize * ROW_WORDS;
    Row {
        base: words[first],
        window: words[first + 1],
    }
}

// Puts the row of an actor in its place.
pub fn set_row(words: &mut Words, actor: dots::Actor, row: Row)
    ensures { words.new ≡ with_row words.old actor.number (row_of row) }
{
    let a = actor.number;
    if a < 1 {
        return;
    }
    if dots::ACTOR_MOST < a {
        return;
    }
    let at = (a - 1) as usize * ROW_WORDS;
    words[at] = row.base;
    words[at + 1] = row.window;
}

// Whether the clock sees a dot.
pub fn sees(words: &Words, dot: dots::Dot) -> bool
    ensures { result ≡ is_seen_by words.now dot }
{
    row_of(words, dot.actor).sees(dot.counter.number)
}

// The base of an actor's row; the actor is told by its number less 1.
fn base_at(words: &Words, row: u64) -> u64
    requires { row < actor_most }
    ensures { result ≡ (row_at words.now (row + 1)).base }
{
    let first = row as usize * ROW_WORDS;
    words[first]
}

// Whether the clock sees an event of an actor, told by its number less 1. Most events are not above the base.
pub fn sees_event(words: &Words, row: u64, event: u64) -> bool
    requires { row < actor_most }
    ensures { result ≡ is_seen_by words.now (dot_of (actor_of (row + 1)) event) }
{
    if event.wrapping_sub(1) < base_at(words, row) {
        return true;
    }
    let actor = (row + 1) as u8;
    let dot = dots::Dot {
        actor: dots::Actor { number: actor },
        counter: dots::Counter { number: event },
    };
    sees(words, dot)
}

// Whether every row keeps its rules.
fn rows_ok(words: &Words) -> bool
    ensures { result ≡ rows_ok window_width words.now }
{
    let mut ok = true;
    for a in 1..=dots::ACTOR_MOST {
        let row = row_of(words, dots::Actor { number: a });
        ok = ok & row.is_well_formed();
    }
    ok
}

// Whether the clock of a controller keeps its rules: the own window is 0.
pub fn clock_ok(own: dots::Actor, words: &Words) -> bool
    ensures { result ≡ clock_ok window_width own.number words.now }
{
    let rows = rows_ok(words);
    let row = row_of(words, own);
    rows & (row.window == 0)
}

// The clock that also sees the dot.
fn join_dot(words: &mut Words, dot: dots::Dot)
    requires { CanJoinDot window_width words.old dot }
    ensures { words.new ≡ join_dot window_width words.old dot }
{
    let row = row_of(words, dot.actor);
    set_row(words, dot.actor, row.join(dot.counter.number));
}

// The row for the next dot of an actor.
fn row_for(words: &Words, x: Reach, actor: dots::Actor) -> Row
    ensures { row_of result ≡ row_for words.now (reach_of x) actor.number }
{
    if x.actor == actor {
        return x.row;
    }
    row_of(words, actor)
}

// The reach with one dot more, if it is in reach.
fn reach_step(words: &Words, x: Reach, dot: dots::Dot) -> Option<Reach>
    requires { (rows_ok window_width words.now ≡ true) × (well_formed window_width (row_of x.row) ≡ true) }
    ensures { IsReach window_width (reach_step window_width words.now (reach_of x) dot) result }
{
    let row = row_for(words, x, dot.actor);
    if !row.reaches(dot.counter.number) {
        return None;
    }
    let joined = row.join(dot.counter.number);
    Some(Reach {
        actor: dot.actor,
        row: joined,
    })
}

// The reach with all dots of the bytes, if each is in reach when its turn comes.
fn reach_dots(words: &Words, from: Reach, offered: &[u8]) -> Option<Reach>
    requires { (rows_ok window_width words.now ≡ true) × (well_formed window_width (row_of from.row) ≡ true) }
    ensures { IsReach window_width (reach_each window_width words.now (reach_of from) (dots_of offered.now)) result }
{
    let mut x = from;
    for dot in dots::dots_in(offered) {
        x = reach_step(words, x, dot)?;
    }
    Some(x)
}

// No dot so far: actor 0 and not an Option, since the definition `reach_start` (specs/Reach) has it so.
fn reach_start() -> Reach
    ensures { reach_of result ≡ reach_start }
{
    Reach {
        actor: dots::Actor { number: 0 },
        row: Row { base: 0, window: 0 },
    }
}

// Joins all dots of the bytes, one after the other.
fn join_dots(words: &mut Words, offered: &[u8])
    requires { Ready window_width words.old (dots_of offered.now) }
    ensures { words.new ≡ join_each window_width words.old (dots_of offered.now) }
{
    for dot in dots::dots_in(offered) {
        join_dot(words, dot);
    }
}

// ---- a context offered to the clock, without or with one more dot

// Whether refusal 10 does not hold for a context. The clock is only read.
pub fn near_context(words: &Words, context: &[u8]) -> bool
    requires { Offer window_width words.now (dots_of context.now) }
    ensures { result ≡ near window_width words.now (dots_of context.now) }
{
    reach_dots(words, reach_start(), context).is_some()
}

// The same for dots below one, the one, and dots above it.
fn near_around(words: &Words, lower: &[u8], dot: dots::Dot, higher: &[u8]) -> bool
    requires { Offer window_width words.now (dots_around lower.now dot higher.now) }
    ensures { result ≡ near window_width words.now (dots_around lower.now dot higher.now) }
{
    let Some(below) = reach_dots(words, reach_start(), lower) else {
        return false;
    };
    let Some(there) = reach_step(words, below, dot) else {
        return false;
    };
    reach_dots(words, there, higher).is_some()
}

// Whether refusal 10 does not hold for a context and one more dot.
pub fn near_with_dot(words: &Words, context: &[u8], dot: dots::Dot) -> bool
    requires { OfferWith window_width words.now context.now dot }
    ensures { result ≡ near window_width words.now (dot ∷ dots_of context.now) }
{
    let at = contexts::place_of(context, dot) * dots::DOT_SIZE;
    near_around(words, &context[..at], dot, &context[at..])
}

// Joins a context where refusal 10 does not hold.
pub fn join_context(words: &mut Words, context: &[u8])
    requires { CanJoinContext window_width words.old context.now }
    ensures { words.new ≡ join_all window_width words.old (dots_of context.now) }
{
    join_dots(words, context);
}

// Joins dots below one, the one, and dots above it.
fn join_around(words: &mut Words, lower: &[u8], dot: dots::Dot, higher: &[u8])
    requires { Ready window_width words.old (dots_around lower.now dot higher.now) }
    ensures { words.new ≡ join_each window_width words.old (dots_around lower.now dot higher.now) }
{
    join_dots(words, lower);
    join_dot(words, dot);
    join_dots(words, higher);
}

// Joins a context and one more dot, in ascending order.
pub fn join_with_dot(words: &mut Words, context: &[u8], dot: dots::Dot)
    requires { CanJoinWithDot window_width words.old context.now dot }
    ensures { words.new ≡ join_all window_width words.old (dot ∷ dots_of context.now) }
{
    let at = contexts::place_of(context, dot) * dots::DOT_SIZE;
    join_around(words, &context[..at], dot, &context[at..]);
}
