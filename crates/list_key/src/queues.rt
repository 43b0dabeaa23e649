// Local states and queues of an entry against those of a cube.
ghost use Rattle.std.specs.Prelude.{◌≡◌, min, get_or, eqb};
ghost use Rattle.machine_pws.specs.Machine.{all_below};
ghost use Rattle.file_contents.specs.Cube.{waiting_of};
ghost use Rattle.list_theory.specs.Matching.{queue_matches};
ghost use Rattle.list_key.specs.Relation.{relation};
ghost use Rattle.list_key.specs.Match.{queue_row};

use crate::values::{related, waiting};
use base::below::all_below;
use file_contents::entry::Queue;
use file_records::program::Shape;

pub fn states_match(processes: usize, a: [u8; 4], b: [u8; 4]) -> bool
    ensures { result ≡ all_below (min processes 4) (λ p. eqb (get_or a p 0) (get_or b p 0)) }
{
    all_below(processes.min(4), |p| a[p] == b[p])
}

// The waiting values of an entry against those of a cube.
pub fn queue_matches(exact: bool, a: Queue, b: Queue) -> bool
    ensures { result ≡ queue_matches (relation exact) (waiting_of a) (waiting_of b) }
{
    let n = waiting(a);
    let m = waiting(b);
    if n == 0 {
        return m == 0;
    }
    if m == 0 {
        return false;
    }
    let mut i = 0;
    let mut j = 0;
    while j < m {
        if i < n && related(exact, a.values[i], b.values[j]) {
            i += 1;
        }
        j += 1;
    }
    i == n && related(exact, a.values[n - 1], b.values[m - 1])
}

#[tactic(auto, unfolding(crate::specs::Match::queue_row))]
pub fn queues_match(exact: bool, shape: Shape, a: [Queue; 16], b: [Queue; 16]) -> bool
    ensures { result ≡ all_below (min shape.processes 4) (queue_row shape.variables exact a b) }
{
    let variables = shape.variables.min(4);
    all_below(shape.processes.min(4), |p| {
        all_below(
            variables,
            |v| queue_matches(exact, a[4 * p + v], b[4 * p + v]),
        )
    })
}
