// The small arrays beside the bytes: numbers for each queue, and a row for each process.
ghost use Rattle.std.specs.Prelude.{◌≡◌};
ghost use Rattle.run_layout.specs.Layout.{advanced, pointer_of, last_write_of};

use crate::area::queue_number;
use base::arrays::{at_or, with_at};

// The small part of a configuration. The values of queue q = 4 p + v that wait are those from the number heads[q] to the one before
// tails[q], of all that were written into it. A row for each process: its pointer, and its LastWrite of each variable.
#[derive(Clone, Copy)]
pub struct Run {
    pub states: [u8; 4],
    pub messages: u16,
    pub heads: [u16; 16],
    pub tails: [u16; 16],
    pub rows: [[u16; 5]; 4],
}

// ---- numbers of queues

#[tactic(auto, unfolding(crate::specs::Layout::advanced, crate::specs::Layout::next_number))]
pub fn advanced(xs: [u16; 16], p: usize, v: usize) -> [u16; 16]
    ensures { result ≡ advanced xs p v }
{
    let q = usize::from(queue_number(p, v));
    with_at(xs, q, at_or(xs, q, 0).saturating_add(1))
}

// ---- pointers and LastWrite numbers

#[tactic(auto, unfolding(crate::specs::Layout::pointer_of))]
pub fn pointer_of(rows: [[u16; 5]; 4], p: usize) -> u16
    ensures { result ≡ pointer_of rows p }
{
    if p < 4 { rows[p][0] } else { 0 }
}

#[tactic(auto, unfolding(crate::specs::Layout::last_write_of))]
pub fn last_write_of(rows: [[u16; 5]; 4], p: usize, v: usize) -> u16
    ensures { result ≡ last_write_of rows p v }
{
    if p < 4 && v < 4 { rows[p][v + 1] } else { 0 }
}
