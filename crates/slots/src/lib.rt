// Slots: a table that tells most dots that are not in a list at one look. A dot of the list has its slot set; dots share slots.

#![tactic(auto)]

ghost use Rattle.std.specs.Prelude.{◌≡◌, true, ◌<◌};
ghost use Rattle.wire.specs.Lists.{member};
ghost use Rattle.dots.specs.Dots.{compare_dots, ascending_dots};
ghost use Rattle.dots.specs.Wire.{dots_of};
ghost use Rattle.slots.specs.Slots.{slot_of, Slotted, slot_count};

// A table of slots, a byte each: by a counter's remainder, then an actor's. Bytes and no `bool`s, since `Slotted` reads it as bytes.
const COUNTERS: u64 = 64;

const ACTORS: usize = 16;

pub const SLOTS: usize = COUNTERS as usize * ACTORS;

pub type Slots = [u8; SLOTS];

// The slot of a dot.
fn slot_of(dot: dots::Dot) -> usize
    ensures { (result ≡ slot_of dot) × (result < slot_count) }
{
    (dot.counter.number % COUNTERS) as usize * ACTORS + dot.actor.number as usize % ACTORS
}

// Sets the slots of all dots, nine bytes each.
pub fn fill_slots(dots: &[u8], slots: &mut Slots)
    ensures { Slotted (dots_of dots.now) slots.new }
{
    for dot in dots::dots_in(dots) {
        slots[slot_of(dot)] = 1;
    }
}

// Ascending dots, nine bytes each, and a table in which their slots are set.
#[derive(Clone, Copy)]
pub struct SlottedDots<'a> {
    pub dots: &'a [u8],
    pub slots: &'a Slots,
    pub ghost ascending: { ascending_dots (dots_of dots.now) ≡ true },
    pub ghost slotted: { Slotted (dots_of dots.now) slots.now },
}

impl<'a> SlottedDots<'a> {
    // Whether the dot is one of the dots.
    pub fn holds(self, dot: dots::Dot) -> bool
        ensures { result ≡ member compare_dots dot (dots_of self.entry.dots.now) }
    {
        // Mostly there are no dots; then not even the slot is looked up.
        if self.dots.len() < dots::DOT_SIZE {
            return false;
        }
        if self.slots[slot_of(dot)] == 0 {
            return false;
        }
        let ascending = contexts::AscendingDots { dots: self.dots };
        ascending.holds(dot)
    }
}
