// Through which step does a configuration outside the list get above an entry (number 11)? The predecessor cubes of the entry are made one
// after another, and each is searched for (theory, section 5, T7 and T8). Steps that have none are passed over before a cube is made.
// The bytes that hold the program and those that hold the entries may be the same.
#![tactic(auto)]

ghost use Rattle.std.specs.Prelude.{◌≡◌, true, ◌+◌, ◌/◌, ◌%◌, ◌≤◌, ◌<◌, min, IfSome};
ghost use Rattle.machine_pws.specs.declared.Step.TheVariants.{Take, Serialise, Update};
ghost use Rattle.file_contents.specs.Cube.{configuration_of};
ghost use Rattle.list_closing.specs.Closing.{program_in, entries_in, cube_in};
ghost use Rattle.list_closing.specs.Walk.{step_held, walk_step, LowestFailing, Searching, StepHeld, Surrounded, opening_at, opening_of};

use crate::entered::Entered;
use crate::serialise::serialised_held;
use crate::take::before_held;
use crate::update::updated_held;
use file_again::{leads_to, transition_of};
use file_records::program::Program;
use list_cube::newest::newest;
use list_known::full::{is_full, states_from};
use machine_pws::Step;

mod closing;
mod entered;
mod lowest;
mod serialise;
mod take;
mod update;

pub use closing::Closing;
pub use lowest::lowest_failing;

// A transition leads elsewhere, or all its predecessor cubes are held. Most lead elsewhere: nothing is made for them.
fn transition_held(closing: &Closing, entry: &Entered, j: usize) -> bool
    ensures { Searching closing.now entry.now.cube → j < closing.now.program.transitions.count → StepHeld closing.now entry.now.cube (Take j) result }
{
    !leads_to(closing.code, closing.program, j, entry.cube.states)
        || before_held(
            closing,
            entry,
            transition_of(closing.code, closing.program, j),
        )
}

// The lowest transition one of whose predecessor cubes is not held.
fn open_take(closing: &Closing, entry: &Entered) -> Option<usize>
    ensures { Searching closing.now entry.now.cube → LowestFailing (λ j. step_held (program_in closing.now) (entries_in closing.now) (configuration_of entry.now.cube) (Take j)) (min closing.now.program.transitions.count 256) result }
{
    lowest_failing(closing.program.transitions.count.min(256), |j| {
        transition_held(closing, entry, j)
    })
}

// The serialise of process p and variable v has the number 4 p + v: the lowest that is open.
fn open_serialise(closing: &Closing, entry: &Entered) -> Option<usize>
    ensures within { IfSome result (λ i. i ≤ 1275) }
    ensures lowest { Searching closing.now entry.now.cube → LowestFailing (λ i. step_held (program_in closing.now) (entries_in closing.now) (configuration_of entry.now.cube) (Serialise (i / 4) (i % 4))) 16 result }
{
    if serialised_held(closing, entry) {
        return None;
    }
    let message = newest(entry.cube);
    Some(4 * usize::from(message.process) + usize::from(message.variable))
}

// The lowest process whose update is open.
fn open_update(closing: &Closing, entry: &Entered) -> Option<usize>
    ensures within { IfSome result (λ p. p < 4) }
    ensures lowest { Searching closing.now entry.now.cube → LowestFailing (λ p. step_held (program_in closing.now) (entries_in closing.now) (configuration_of entry.now.cube) (Update p)) 4 result }
{
    lowest_failing(closing.program.shape.processes.min(4), |p| {
        updated_held(closing, entry, p)
    })
}

// The number of the lowest step, in the order of `walk_step`, one of whose predecessor cubes is not held.
fn cube_open(closing: &Closing, entry: &Entered) -> Option<usize>
    ensures { Searching closing.now entry.now.cube → LowestFailing (λ j. step_held (program_in closing.now) (entries_in closing.now) (configuration_of entry.now.cube) (walk_step (min closing.now.program.transitions.count 256) j)) (min closing.now.program.transitions.count 256 + 20) result }
{
    if let Some(j) = open_take(closing, entry) {
        return Some(j);
    }
    // serialise and update leave local states as they are
    if closing.is_full(entry.cube.states) {
        return None;
    }
    let m = closing.program.transitions.count.min(256);
    if let Some(i) = open_serialise(closing, entry) {
        return Some(m + i);
    }
    // an update leaves an entry's family as it is
    if closing.in_full_family(entry.cube) {
        return None;
    }
    let p = open_update(closing, entry)?;
    Some(m + 16 + p)
}

// The step of number j, after m transitions, in the order of `walk_step`; there is none from 20 past them on.
fn opening_at(m: usize, j: usize) -> Option<Step>
    ensures { result ≡ opening_at m j }
{
    if j < m {
        return Some(Step::Take { transition: j });
    }
    let i = j - m;
    if i < 16 {
        return Some(Step::Serialise {
            process: i / 4,
            variable: i % 4,
        });
    }
    if i < 20 {
        return Some(Step::Update { process: i - 16 });
    }
    None
}

// These local states are full, and so are those from which a transition leads there.
pub fn is_surrounded(full: &[u8], code: &[u8], program: Program, states: [u8; 4]) -> bool
    ensures { result ≡ true → Surrounded full.now code.now program states }
{
    if !is_full(full, program.shape, states) {
        return false;
    }
    let m = program.transitions.count.min(256);
    for j in 0..m {
        if !leads_to(code, program, j, states) {
            continue;
        }
        let leading = transition_of(code, program, j);
        let before = states_from(states, leading.process, leading.from);
        if !is_full(full, program.shape, before) {
            return false;
        }
    }
    true
}

// Through which step does a configuration outside the list get above entry k? The lowest, if there is one.
pub fn open_step(closing: &Closing, k: usize) -> Option<Step>
    ensures { Searching closing.now (cube_in closing.now k) → result ≡ opening_of (program_in closing.now) (entries_in closing.now) (configuration_of (cube_in closing.now k)) }
{
    let entry = Entered::of(closing.listing.entry(k));
    let j = cube_open(closing, &entry)?;
    opening_at(closing.program.transitions.count.min(256), j)
}
