// Lists of dots in bytes, nine each: their rule, a dot among them, a dot put in its place.

#![tactic(auto)]

ghost use Rattle.std.specs.Prelude.{◌≡◌, true, ◌*◌, ◌≤◌, length};
ghost use Rattle.wire.specs.Lists.{member, is_lt};
ghost use Rattle.contexts.specs.Inserting.{MayInsert, Inserted};
ghost use Rattle.dots.specs.Dots.{compare_dots, ascending_dots, context_ok};
ghost use Rattle.dots.specs.Wire.{dots_of, place_of, dot_size};

// ---- dots in bytes, nine each

// Whether a dot is below another, without a branch.
fn comes_before(a: dots::Dot, b: dots::Dot) -> bool
    ensures { result ≡ is_lt (compare_dots a b) }
{
    (a.actor.number < b.actor.number)
        | ((a.actor.number == b.actor.number) & (a.counter.number < b.counter.number))
}

// Whether each dot keeps its rule and is above the one before it. Over places, and by `comes_before`: the compiler then takes several dots at
// a time. Over `dots_in`, or by the derived `<`, it takes one, and calls on a full tombstone took 1.2 to 1.4 times as long.
pub fn ascending_dots(dots: &[u8]) -> bool
    ensures { result ≡ ascending_dots (dots_of dots.now) }
{
    let mut ok = true;
    let mut before = dots::Dot::default();
    for i in 0..dots.len() / dots::DOT_SIZE {
        let dot = dots::dot_at(dots, i * dots::DOT_SIZE);
        ok = ok & dots::dot_ok(dot) & comes_before(before, dot);
        before = dot;
    }
    ok
}

// Whether the dots are a context: at most CONTEXT_MOST, ascending.
pub fn context_ok(dots: &[u8]) -> bool
    ensures { result ≡ context_ok (dots_of dots.now) }
{
    let ascend = ascending_dots(dots);
    (dots.len() / dots::DOT_SIZE <= dots::CONTEXT_MOST) & ascend
}

// Whether the dot is one of the dots.
pub fn has_dot(dots: &[u8], dot: dots::Dot) -> bool
    ensures { result ≡ member compare_dots dot (dots_of dots.now) }
{
    dots::dots_in(dots).any(|d| dot == d)
}

// How many dots at the front come before the dot.
pub fn place_of(dots: &[u8], dot: dots::Dot) -> usize
    ensures { (result ≡ place_of dot (dots_of dots.now)) × (result * dot_size ≤ length dots.now) }
{
    dots::dots_in(dots).take_while(|d| *d < dot).count()
}

// ---- ascending dots

// Dots, nine bytes each, that keep their rules, each above the one before it.
#[derive(Clone, Copy)]
pub struct AscendingDots<'a> {
    pub dots: &'a [u8],
    pub ghost ascending: { ascending_dots (dots_of dots.now) ≡ true },
}

impl<'a> AscendingDots<'a> {
    // How many of the dots come before the dot, found by halving.
    pub fn place(self, dot: dots::Dot) -> usize
        ensures { (result ≡ place_of dot (dots_of self.entry.dots.now)) × (result * dot_size ≤ length self.entry.dots.now) }
    {
        let (all, _) = self.dots.as_chunks::<{ dots::DOT_SIZE }>();
        all.partition_point(|bytes| dots::dot_at(bytes, 0) < dot)
    }

    // Whether the dot is one of the dots.
    pub fn holds(self, dot: dots::Dot) -> bool
        ensures { result ≡ member compare_dots dot (dots_of self.entry.dots.now) }
    {
        let at = self.place(dot) * dots::DOT_SIZE;
        Some(dot) == dots::dots_in(&self.dots[at..]).next()
    }
}

// Puts the dot in its place among the first `count`, which ascend, once. Returns how many there are then.
pub fn insert_dot(bytes: &mut [u8; dots::TOMBSTONE_SIZE], count: usize, dot: dots::Dot) -> usize
    requires { MayInsert bytes.old count dot }
    ensures { Inserted bytes.old bytes.new count dot result }
{
    let used = count * dots::DOT_SIZE;
    let held = AscendingDots {
        dots: &bytes[..used],
    };
    if held.holds(dot) {
        return count;
    }
    let at = held.place(dot) * dots::DOT_SIZE;
    let piece = dots::dot_bytes(dot);
    moves::insert_piece(bytes, used, at, &piece);
    count + 1
}
