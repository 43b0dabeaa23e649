// The whole judgement (document 01). What it says stands in verdict/specs/Judge.antt; the demands, as theorems about it, in demands/specs/Demands.antt.
#![tactic(auto)]

ghost use Rattle.std.specs.Prelude.{◌≡◌, ◌++◌, ◌*◌, ◌-◌, ◌≤◌, length, take, drop, replicate};
ghost use Rattle.file_contents.specs.EvidencePart.{entries_allowed};
ghost use Rattle.list_summary.specs.Groups.{summarised};
ghost use Rattle.machine_pws.specs.Program.{ProgramInRange};
ghost use Rattle.file_records.specs.ProgramPart.{program_of, targets_of};
ghost use Rattle.file_contents.specs.EvidencePart.{steps_of};
ghost use Rattle.file_contents.specs.Reading.{input, combined, pair, run_read, read_file};
ghost use Rattle.file_again.specs.Offending.{offending};
ghost use Rattle.verdict.specs.Judge.{of_run, of_pso_run, of_file, judged, used_of, area_after};
ghost use Rattle.verdict.specs.Answers.{verdict_in, offending_in, said_in_c, Answered};
ghost use Rattle.list_judge.specs.Ready.{Ready, ListReady, slots_cleared, list_said};

use base::places::{slot_place, word_place};
use file_contents::evidence::{Contents, Part, entries_allowed};
use file_reading::evidence::read;
use file_records::program::{Program, Refusal};
use list_judge::list_answer;
use list_summary::summarise;
use pso_replay::run::replay_steps;
use run_layout::area::clear;
use run_replay::run::replay;
use run_step::last_test::RunAnswer;
use verdict::answer::{Answer, Verdict, shown};

// The bytes of a work area that belong to the judgement: the first 16,384, and twelve for each entry allowed.
fn used_of(area: usize) -> usize
    ensures { result ≡ used_of area }
{
    let n = entries_allowed(area);
    16384 + word_place(n) + slot_place(n)
}

// Where the summary begins in the part behind the first 16,384 bytes: past the offsets of all entries allowed.
fn summary_place(area: usize) -> usize
    ensures { result ≡ 4 * entries_allowed area }
{
    word_place(entries_allowed(area))
}

// The first n bytes 0; the rest is untouched.
fn clear_used(work: &mut [u8], n: usize)
    requires { n ≤ length work.old }
    ensures { work.new ≡ replicate n 0 ++ drop n work.old }
{
    clear(&mut work[..n]);
}

// The bytes of n slots from `at` on 0; the rest is untouched.
fn clear_slots(upper: &mut [u8], at: usize, n: usize)
    requires { (at ≤ length upper.old) × (n ≤ 524288) × (8 * n ≤ length upper.old - at) }
    ensures { upper.new ≡ slots_cleared upper.old at n }
{
    let end = at + slot_place(n);
    clear(&mut upper[at..end]);
}

// The units over a list and its summary.
fn summed_answer(
    code: &[u8],
    file: &[u8],
    upper: &[u8],
    at: usize,
    n: usize,
    program: Program,
) -> Answer
    requires { (at ≤ length upper.now) × Ready code.now file.now (take at upper.now) (drop at upper.now) n program }
    ensures { verdict_in result ≡ list_said code.now file.now (take at upper.now) n program }
{
    list_answer(code, file, &upper[..at], &upper[at..], n, program)
}

// A list: its summary is made behind its offsets, which stand below `at`, and then it is judged.
fn list_judged(
    code: &[u8],
    file: &[u8],
    upper: &mut [u8],
    at: usize,
    n: usize,
    program: Program,
) -> Answer
    requires { ListReady code.now file.now upper.old at n program }
    ensures result_value { verdict_in result ≡ list_said code.now file.now (take at upper.old) n program }
    ensures upper_after { upper.new ≡ summarised file.now program.shape at n (slots_cleared upper.old at n) }
{
    clear_slots(upper, at, n);
    let shape = program.shape;
    summarise(file, upper, at, n, shape);
    summed_answer(code, file, upper, at, n, program)
}

// A run's answer.
fn run_answer(answer: RunAnswer) -> Answer
    ensures { verdict_in result ≡ of_run answer }
{
    match answer {
        RunAnswer::Reachable { steps, target } => Answer::Reachable {
            steps: steps,
            target: target,
        },
        RunAnswer::Stopped { step, cause } => Answer::Stopped {
            step: step,
            cause: cause,
        },
        RunAnswer::Missed { steps } => Answer::Missed { steps: steps },
    }
}

// The answer of a run of the PSO machine.
fn pso_answer(answer: RunAnswer) -> Answer
    ensures { verdict_in result ≡ of_pso_run answer }
{
    match answer {
        RunAnswer::Reachable { steps, target } => Answer::Pso {
            steps: steps,
            target: target,
        },
        RunAnswer::Stopped { step, cause } => Answer::Stopped {
            step: step,
            cause: cause,
        },
        RunAnswer::Missed { steps } => Answer::Missed { steps: steps },
    }
}

// A run, in the machine of its claim; afterwards the lower part is 0.
fn replay_answer(code: &[u8], file: &[u8], contents: Contents, lower: &mut [u8]) -> Answer
    ensures lower_after { lower.new ≡ replicate (length lower.old) 0 }
    ensures result_value { ProgramInRange (program_of code.now contents.program) → contents.evidence.count ≤ 1024 → length lower.old ≡ 16384 → verdict_in result ≡ of_file (run_read contents.claim (program_of code.now contents.program) (targets_of code.now contents.program) contents.memory (steps_of file.now contents.evidence.at contents.evidence.count)) }
{
    if contents.claim == 1 {
        return run_answer(replay(code, file, contents, lower));
    }
    let program = contents.program;
    let memory = contents.memory;
    let steps = contents.evidence;
    pso_answer(replay_steps(code, file, program, memory, steps.at, steps.count, lower))
}

// The judgement in an area that is large enough. `code` is the file that holds the program and `file` the one that holds the evidence: the same,
// or a program file (`alone`) and an evidence file. The part of the area that the judgement does not use is untouched.
fn judge_file(alone: bool, code: &[u8], file: &[u8], work: &mut [u8]) -> Answer
    requires { 65536 ≤ length work.old }
    ensures result_value { verdict_in result ≡ judged (input alone code.now file.now) (length work.old) }
    ensures result_value_2 { offending_in (input alone code.now file.now) result ≡ offending (input alone code.now file.now) (read_file (input alone code.now file.now) (length work.old)) }
    ensures work_unchanged { drop (used_of (length work.old)) work.new ≡ drop (used_of (length work.old)) work.old }
{
    let contents = match read(alone, code, file, work) {
        Ok(contents) => contents,
        Err(unread) => {
            return Answer::Unread {
                part: unread.part,
                refusal: unread.refusal,
            };
        }
    };
    if contents.claim == 0 {
        let at = summary_place(work.len());
        let count = contents.evidence.count;
        return list_judged(code, file, &mut work[16384..], at, count, contents.program);
    }
    replay_answer(code, file, contents, &mut work[..16384])
}

// What each judgement leaves of a work area, with nothing judged: a report, which is judged in parts, ends with it (document 02, N10).
pub fn clear_area(work: &mut [u8])
    ensures { work.new ≡ area_after work.old }
{
    let size = work.len();
    if size < 65536 {
        return;
    }
    clear_used(work, used_of(size));
}

// The answer. Afterwards the first 16,384 bytes of the work area and twelve for each entry allowed are 0, and the rest is untouched; after 8 all
// of it is.
fn judge_and_clear(alone: bool, code: &[u8], file: &[u8], work: &mut [u8]) -> Answer
    ensures result_value { verdict_in result ≡ judged (input alone code.now file.now) (length work.old) }
    ensures result_value_2 { offending_in (input alone code.now file.now) result ≡ offending (input alone code.now file.now) (read_file (input alone code.now file.now) (length work.old)) }
    ensures work_after { work.new ≡ area_after work.old }
{
    let n = work.len();
    if n < 65536 {
        return Answer::Unread {
            part: Part::InProgram,
            refusal: Refusal {
                number: 8,
                place: 0,
            },
        };
    }
    let answer = judge_file(alone, code, file, work);
    clear_used(work, used_of(n));
    answer
}

// And the verdict as C has it.
fn judge_input<'a>(alone: bool, code: &'a [u8], file: &'a [u8], work: &mut [u8]) -> Verdict
    ensures value { result ≡ said_in_c (input alone code.now file.now) (length work.old) }
    ensures work_after { work.new ≡ area_after work.old }
{
    let answer = judge_and_clear(alone, code, file, work);
    shown(alone, code, file, answer)
}

// The verdict of a combined file, as C has it. The crate `exports` hands this function on, and the next.
pub fn judge(file: &[u8], work: &mut [u8]) -> Verdict
    ensures judged { Answered (combined file.now) (length work.old) result }
    ensures computed { result ≡ said_in_c (combined file.now) (length work.old) }
    ensures area { work.new ≡ area_after work.old }
{
    judge_input(false, file, file, work)
}

// The verdict of an evidence file for the program of a program file (document 02, N6).
pub fn judge_pair<'a>(program: &'a [u8], evidence: &'a [u8], work: &mut [u8]) -> Verdict
    ensures judged { Answered (pair program.now evidence.now) (length work.old) result }
    ensures computed { result ≡ said_in_c (pair program.now evidence.now) (length work.old) }
    ensures area { work.new ≡ area_after work.old }
{
    judge_input(true, program, evidence, work)
}
