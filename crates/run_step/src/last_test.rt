// The last test of a run (document 01, "Verdicts and refusal table"): are the last local states those of a target?
ghost use Rattle.std.specs.Prelude.{◌≡◌};
ghost use Rattle.run_step.specs.LastTest.{in_target_in, next_target, last_in};

use base::below::all_below;
use base::bytes::four_at;
use file_records::program::{Row, Shape};
use run_causes::Cause;

// The verdict of a run: reachable with the number of steps and the lowest target met; the number of the step that is refused, and why; or
// the number of steps, after which no target is met.
#[derive(Clone, Copy, PartialEq, Eq)]
pub enum RunAnswer {
    Reachable { steps: usize, target: usize },
    Stopped { step: usize, cause: Cause },
    Missed { steps: usize },
}

// The states are those of the target at a place.
#[tactic(auto, unfolding(crate::specs::LastTest::in_target_in))]
fn in_target(file: &[u8], at: usize, shape: Shape, states: [u8; 4]) -> bool
    ensures { result ≡ in_target_in file.now at shape states }
{
    let target = four_at(file, at, 1);
    all_below(shape.processes.min(4), |p| states[p] == target[p])
}

// Where the next target stands; past the file's end there is nothing to pass.
#[tactic(auto, unfolding(crate::specs::LastTest::next_target))]
fn next_target(file: &[u8], at: usize) -> usize
    ensures { result ≡ next_target file.now at }
{
    if at < file.len() { at + 5 } else { at }
}

pub fn last_answer(
    file: &[u8],
    targets: Row,
    shape: Shape,
    states: [u8; 4],
    steps: usize,
) -> RunAnswer
    ensures { result ≡ last_in file.now targets shape states steps }
{
    let mut k = targets.at;
    for i in 0..targets.count {
        if in_target(file, k, shape, states) {
            return RunAnswer::Reachable { steps, target: i };
        }
        k = next_target(file, k);
    }
    RunAnswer::Missed { steps }
}
