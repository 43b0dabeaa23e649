// The replay of a run's steps in the PSO machine.
ghost use Rattle.std.specs.Prelude.{◌≡◌, ◌≤◌, length, replicate};
ghost use Rattle.machine_pws.specs.Program.{ProgramInRange};
ghost use Rattle.file_records.specs.ProgramPart.{program_of, targets_of};
ghost use Rattle.file_contents.specs.EvidencePart.{steps_of};
ghost use Rattle.pso_replay.specs.Answers.{pso_steps, pso_run_answer};
ghost use Rattle.pso_replay.specs.Loop.{first_run, replay_in};

use file_contents::steps::step_at;
use file_records::program::Program;
use pso_layout::buffers::{PsoHeld, PsoRun};
use pso_layout::moves::pso_move;
use pso_step::answering::step_answer;
use pso_step::stepping::{run_after, store};
use run_causes::Cause;
use run_layout::area::clear;
use run_replay::run::next_step;
use run_step::last_test::{RunAnswer, last_answer};

// Initial local states, empty buffers, and this memory.
fn first_run(states: [u8; 4], memory: [u8; 4]) -> PsoRun
    ensures { result ≡ first_run states memory }
{
    PsoRun {
        states,
        memory,
        heads: [0; 16],
        tails: [0; 16],
        lasts: [0; 16],
    }
}

// The replay; the lower part then holds the configuration where it ended. The loop is a twin of run_replay's: one for both would want a trait of
// machines whose laws say all that the two proofs say of each (start, move, answer, what a step gives and keeps).
fn replay_held(
    code: &[u8],
    file: &[u8],
    program: Program,
    memory: [u8; 4],
    at: usize,
    count: usize,
    lower: &mut [u8],
) -> RunAnswer
    ensures value { result ≡ replay_in code.now file.now program memory at count lower.old }
    ensures same { length lower.new ≡ length lower.old }
{
    let mut run = first_run(program.initial, memory);
    let mut k = at;
    for i in 0..count {
        let Some(step) = pso_move(code, program.transitions, step_at(file, k)) else {
            return RunAnswer::Stopped {
                step: i,
                cause: Cause::State,
            };
        };
        let held = PsoHeld {
            run,
            lower,
            shape: program.shape,
        };
        if let Err(cause) = step_answer(&held, step) {
            return RunAnswer::Stopped { step: i, cause };
        }
        let next = run_after(&held, step);
        store(lower, run.tails, program.shape, step);
        run = next;
        k = next_step(file, k);
    }
    last_answer(code, program.targets, program.shape, run.states, count)
}

// `count` steps from `at` on, from a start with this memory; afterwards the lower part is 0. `code` is the file that holds the program,
// `file` the one that holds the steps; they may be the same.
pub fn replay_steps(
    code: &[u8],
    file: &[u8],
    program: Program,
    memory: [u8; 4],
    at: usize,
    count: usize,
    lower: &mut [u8],
) -> RunAnswer
    ensures value { result ≡ replay_in code.now file.now program memory at count lower.old }
    ensures lower_after { lower.new ≡ replicate (length lower.old) 0 }
    ensures value_2 { ProgramInRange (program_of code.now program) → count ≤ 1024 → length lower.old ≡ 16384 → result ≡ pso_run_answer (program_of code.now program) memory (targets_of code.now program) (pso_steps (steps_of file.now at count)) }
{
    let answer = replay_held(code, file, program, memory, at, count, lower);
    clear(lower);
    answer
}
