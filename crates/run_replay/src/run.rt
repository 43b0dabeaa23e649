// The replay of a run's steps (document 01, "The machine" and "Verdicts and refusal table").
ghost use Rattle.std.specs.Prelude.{◌≡◌, ◌+◌, ◌≤◌, length, replicate};
ghost use Rattle.machine_pws.specs.Program.{ProgramInRange};
ghost use Rattle.file_records.specs.ProgramPart.{program_of, targets_of};
ghost use Rattle.file_contents.specs.EvidencePart.{steps_of};
ghost use Rattle.run_replay.specs.Answers.{RunOf};
ghost use Rattle.run_replay.specs.Loop.{next_step, first_run, replay_in};

use file_contents::evidence::Contents;
use file_contents::steps::{step_at, step_body};
use file_records::program::Program;
use run_causes::Cause;
use run_layout::area::{clear, put_snapshot};
use run_layout::arrays::Run;
use run_layout::moves::move_of;
use run_step::after::run_after;
use run_step::answering::Held;
use run_step::last_test::{RunAnswer, last_answer};
use run_step::storing::store;

// Where the next step stands; past the file's end there is nothing to pass.
#[tactic(auto, using(crate::proofs::LoopLaws::body_most), unfolding(crate::specs::Loop::next_step))]
pub fn next_step(file: &[u8], at: usize) -> usize
    ensures { result ≡ next_step file.now at }
{
    if at < file.len() {
        at + (1 + step_body(file, at))
    } else {
        at
    }
}

// Initial local states, empty queues, one message; all pointers and LastWrite numbers 1.
fn first_run(states: [u8; 4]) -> Run
    ensures { result ≡ first_run states }
{
    Run {
        states,
        messages: 1,
        heads: [0; 16],
        tails: [0; 16],
        rows: [[1; 5]; 4],
    }
}

// `count` steps from `at` on, from this memory. `code` is the file that holds the program, `file` the one that holds the steps; they may be
// the same.
fn replay_steps(
    code: &[u8],
    file: &[u8],
    program: Program,
    memory: [u8; 4],
    at: usize,
    count: usize,
    lower: &mut [u8],
) -> RunAnswer
    ensures value { result ≡ replay_in code.now file.now program memory at count lower.old }
    ensures same { length lower.new ≡ length lower.old }
{
    put_snapshot(lower, 1, memory);
    let mut run = first_run(program.initial);
    let mut k = at;
    for i in 0..count {
        let Some(step) = move_of(code, program.transitions, step_at(file, k)) else {
            return RunAnswer::Stopped {
                step: i,
                cause: Cause::State,
            };
        };
        let held = Held {
            run,
            lower,
            shape: program.shape,
        };
        if let Err(cause) = held.answer(step) {
            return RunAnswer::Stopped { step: i, cause };
        }
        store(lower, run, step);
        run = run_after(run, step);
        k = next_step(file, k);
    }
    last_answer(code, program.targets, program.shape, run.states, count)
}

// The run of a file whose claim is 1, with the program of `code`; afterwards the lower part is 0.
pub fn replay(code: &[u8], file: &[u8], contents: Contents, lower: &mut [u8]) -> RunAnswer
    ensures value { result ≡ replay_in code.now file.now contents.program contents.memory contents.evidence.at contents.evidence.count lower.old }
    ensures lower_after { lower.new ≡ replicate (length lower.old) 0 }
    ensures run_of { ProgramInRange (program_of code.now contents.program) → contents.evidence.count ≤ 1024 → length lower.old ≡ 16384 → RunOf result (program_of code.now contents.program) (targets_of code.now contents.program) contents.memory (steps_of file.now contents.evidence.at contents.evidence.count) }
{
    let steps = contents.evidence;
    let answer = replay_steps(
        code,
        file,
        contents.program,
        contents.memory,
        steps.at,
        steps.count,
        lower,
    );
    clear(lower);
    answer
}
