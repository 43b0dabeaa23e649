// Starts: number 10 (theory, section 4).
#![tactic(auto)]

ghost use Rattle.std.specs.Prelude.{◌≡◌};
ghost use Rattle.file_contents.specs.Cube.{configuration_of};
ghost use Rattle.file_again.specs.Again.{cube_at};
ghost use Rattle.list_theory.specs.Decision.{looks_started};
ghost use Rattle.list_cube.specs.Sizes.{Small, starts_of};

use base::below::all_below;
use file_again::entry_at;
use file_contents::entry::Cube;
use file_records::program::Shape;
use list_cube::queues::row_empty;
use list_key::states_match;
use list_summary::states_at;

// Initial states, no waiting value and one message: a start has any values.
fn looks_started(shape: Shape, initial: [u8; 4], cube: Cube) -> bool
    ensures { Small shape → result ≡ looks_started (starts_of shape initial) (configuration_of cube) }
{
    states_match(shape.processes, cube.states, initial)
        && all_below(
            shape.processes.min(4),
            |p| row_empty(shape.variables, &cube.queues, p),
        )
        && cube.count == 1
}

// A start looks like entry k. An entry of other local states is told by four bytes.
pub fn entry_started(file: &[u8], list: &[u8], shape: Shape, initial: [u8; 4], k: usize) -> bool
    ensures { Small shape → result ≡ looks_started (starts_of shape initial) (configuration_of (cube_at file.now list.now k)) }
{
    let states = states_at(file, list, shape, k);
    states_match(shape.processes, states, initial)
        && looks_started(shape, initial, entry_at(file, list, k))
}
