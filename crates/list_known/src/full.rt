// A table of full local states: every configuration with them is above the list. Number 9 shows that of the targets,
// and the same test of any group that is large enough; at number 11 nothing that has full local states is searched
// for.
ghost use Rattle.std.specs.Prelude.{◌≡◌, true, ◌*◌, ◌≤◌, ◌<◌};
ghost use Rattle.list_known.specs.FullStates.{place_of, is_full, Among, with_states, states_from};

use base::arrays::with_at;
use file_records::program::Shape;
use list_key::states_match;

// 328 times the third, and 577 times the fourth state, by adding and shifting, as all places are formed (request N4).
fn third_place(x: usize) -> usize
    requires { x < 256 }
    ensures { result ≡ 328 * x }
{
    (x << 8) + (x << 6) + (x << 3)
}

fn fourth_place(x: usize) -> usize
    requires { x < 256 }
    ensures { result ≡ 577 * x }
{
    (x << 9) + (x << 6) + x
}

// Where local states stand in the table, if they do.
fn place_of(states: [u8; 4]) -> usize
    ensures { (result ≡ place_of states) × (result ≤ 4092) }
{
    let a = usize::from(states[0]);
    let b = usize::from(states[1]);
    let c = usize::from(states[2]);
    let d = usize::from(states[3]);
    (a + (b << 5) + third_place(c) + fourth_place(d)) % 1024 << 2
}

pub fn is_full(table: &[u8], shape: Shape, states: [u8; 4]) -> bool
    ensures { result ≡ is_full table.now shape states }
{
    let at = place_of(states);
    if table.len() < at + 4 {
        return false;
    }
    let known = [table[at], table[at + 1], table[at + 2], table[at + 3]];
    states_match(shape.processes, known, states)
}

// All four states stand there, those of processes that do not exist too.
pub fn has_states(table: &[u8], states: [u8; 4]) -> bool
    ensures { result ≡ true → Among table.now states }
{
    let at = place_of(states);
    if table.len() < at + 4 {
        return false;
    }
    let known = [table[at], table[at + 1], table[at + 2], table[at + 3]];
    states_match(4, known, states)
}

// Others that stood in their place are forgotten.
pub fn put_full(table: &mut [u8], states: [u8; 4])
    ensures { table.new ≡ with_states table.old states }
{
    let at = place_of(states);
    if table.len() < at + 4 {
        return;
    }
    table[at] = states[0];
    table[at + 1] = states[1];
    table[at + 2] = states[2];
    table[at + 3] = states[3];
}

// The local states before a step of process p.
pub fn states_from(states: [u8; 4], p: usize, from: u8) -> [u8; 4]
    ensures { result ≡ states_from states p from }
{
    with_at(states, p, from)
}
