// Compaction of keys end to end, in place and in one pass: runs of kept keys move down over the keys that are dropped.

#![tactic(auto)]

ghost use Rattle.std.specs.Prelude.{◌≡◌, true, ◌≤◌, length};
ghost use Rattle.dots.specs.Names.{name_most};
ghost use Rattle.store.specs.Valid.{keys_fit};
ghost use Rattle.compaction.specs.Compaction.{is_in, is_among, CanCompact, Drops};
ghost use Rattle.compaction.specs.Runs.{RunFits, MovesRun, KeyFits, WalksKey};

// A run of kept keys: where it begins and ends, and where it goes.
#[derive(Clone, Copy)]
struct Run {
    from: usize,
    end: usize,
    to: usize,
}

// Moves a run to where it goes. Returns where the next one goes.
fn move_run(s: &mut [u8], run: Run) -> usize
    requires { RunFits (length s.old) run }
    ensures { MovesRun run result s.old s.new }
{
    let Run { from, end, to } = run;
    if to == from {
        return end;
    }
    moves::shift_down(&mut s[to..end], from - to);
    end - (from - to)
}

// Takes the key from the end of a run to `next` into the run. If its dot is among the dead ones, the run moves, and the next one begins after the key.
fn walk_key(keys: &mut [u8], dead: slots::SlottedDots, run: Run, next: usize) -> Run
    requires { KeyFits (length keys.old) run next }
    ensures { WalksKey (is_in dead.entry.dots.now) run next result keys.old keys.new }
{
    let Run { from, end, to } = run;
    let dot = store::key_dot(&keys[end..next]);
    if !dead.holds(dot) {
        return Run {
            from,
            end: next,
            to,
        };
    }
    let left = move_run(keys, run);
    Run {
        from: next,
        end: next,
        to: left,
    }
}

// Drops the keys whose dots are among the dead ones. Returns how many bytes of keys are left.
fn drop_keys(n: usize, keys: &mut [u8], dead: slots::SlottedDots) -> usize
    requires { (n ≤ name_most) × (keys_fit n keys.old ≡ true) }
    ensures { Drops (is_in dead.entry.dots.now) n result keys.old keys.new }
{
    let mut run = Run {
        from: 0,
        end: 0,
        to: 0,
    };
    // The keys move while they are walked over, so that no iterator can lend them.
    while run.end < keys.len() {
        let at = run.end;
        let next = at + store::key_length(n, &keys[at..]);
        run = walk_key(keys, dead, run, next);
    }
    let left = move_run(keys, run);
    moves::clear(&mut keys[left..]);
    left
}

// Drops the keys whose dots are the first `count` of the tombstone. Returns how many bytes of keys are left; those freed at the end become 0.
// The count stays beside the tombstone: `Drops (is_among tombstone count)` says it by the count.
pub fn compact(n: usize, keys: &mut [u8], tombstone: &[u8], count: usize) -> usize
    requires { CanCompact n keys.old tombstone.now count }
    ensures { Drops (is_among tombstone.now count) n result keys.old keys.new }
{
    let dots = &tombstone[..count * dots::DOT_SIZE];
    let mut slots = [0u8; slots::SLOTS];
    slots::fill_slots(dots, &mut slots);
    let dead = slots::SlottedDots {
        dots,
        slots: &slots,
    };
    drop_keys(n, keys, dead)
}
