// The answers of the judge, and the verdict as C has it.
ghost use Rattle.std.specs.Prelude.{◌≡◌};
ghost use Rattle.verdict.specs.Judge.{entered};
ghost use Rattle.file_contents.specs.Reading.{input};
ghost use Rattle.verdict.specs.Answers.{verdict_in, stepless, entered_by, in_c, offending_in, file_number, answer_in_c};

use file_again::offending::{offending, offending_part, offending_place};
use file_contents::evidence::Part;
use file_records::program::Refusal;
use machine_pws::Step;
use run_causes::Cause;
use run_step::last_test::RunAnswer;

// The number and the values of each are given by `verdict_in`.
#[derive(Clone, Copy)]
pub enum Answer {
    Safe { entries: usize },
    Reachable { steps: usize, target: usize },
    Pso { steps: usize, target: usize },
    Unread { part: Part, refusal: Refusal },
    Unheld { target: usize },
    Started { entry: usize },
    Entered { entry: usize, step: Step },
    Stopped { step: usize, cause: Cause },
    Missed { steps: usize },
}

// kind 0 safe: first is the number of entries. 1 reachable: steps and target. 2 refused: number and place. 3 pso: steps and target. The step is that
// of 11, by the kind of its record: 20 and the transition, 21 with process and variable, 22 and the process; all three are 0 elsewhere. The record is
// the one that is handed back: its file (0 the program or combined file, 1 the evidence file), its place there and its length.
#[repr(C)]
#[derive(Clone, Copy)]
pub struct Verdict {
    pub kind: u64,
    pub first: u64,
    pub second: u64,
    pub step_kind: u64,
    pub step_first: u64,
    pub step_second: u64,
    pub record_file: u64,
    pub record_at: u64,
    pub record_length: u64,
}

fn stepless(kind: u64, first: u64, second: u64) -> Verdict
    ensures { result ≡ stepless kind first second }
{
    Verdict {
        kind,
        first,
        second,
        step_kind: 0,
        step_first: 0,
        step_second: 0,
        record_file: 0,
        record_at: 0,
        record_length: 0,
    }
}

fn refused(number: u8, place: usize) -> Verdict
    ensures { result ≡ stepless 2 number place }
{
    stepless(2, u64::from(number), place as u64)
}

fn entered_by(entry: usize, kind: u64, first: usize, second: usize) -> Verdict
    ensures { result ≡ entered_by entry kind first second }
{
    Verdict {
        step_kind: kind,
        step_first: first as u64,
        step_second: second as u64,
        ..refused(11, entry)
    }
}

fn entered(entry: usize, step: Step) -> Verdict
    ensures { result ≡ in_c (entered entry step) }
{
    match step {
        Step::Take { transition } => entered_by(entry, 0x20, transition, 0),
        Step::Serialise { process, variable } => entered_by(entry, 0x21, process, variable),
        Step::Update { process } => entered_by(entry, 0x22, process, 0),
    }
}

fn verdict_of(answer: Answer) -> Verdict
    ensures { result ≡ in_c (verdict_in answer) }
{
    match answer {
        Answer::Safe { entries } => stepless(0, entries as u64, 0),
        Answer::Reachable { steps, target } => stepless(1, steps as u64, target as u64),
        Answer::Pso { steps, target } => stepless(3, steps as u64, target as u64),
        Answer::Unread { refusal, .. } => refused(refusal.number, refusal.place),
        Answer::Unheld { target } => refused(9, target),
        Answer::Started { entry } => refused(10, entry),
        Answer::Entered { entry, step } => entered(entry, step),
        Answer::Stopped { step, cause } => refused(u8::from(cause), step),
        Answer::Missed { steps } => refused(13, steps),
    }
}

fn file_number(alone: bool, part: Part) -> u64
    ensures { result ≡ file_number alone part }
{
    match part {
        Part::InProgram => 0,
        Part::InEvidence => if alone { 1 } else { 0 },
    }
}

// The verdict as C has it. `code` is the file that holds the program and `file` the one that holds the evidence: the record is a part of
// one of them.
pub fn shown<'a>(alone: bool, code: &'a [u8], file: &'a [u8], answer: Answer) -> Verdict
    ensures { result ≡ answer_in_c (input alone code.now file.now) (verdict_in answer) (offending_in (input alone code.now file.now) answer) }
{
    let verdict = verdict_of(answer);
    match answer {
        Answer::Unread { part, refusal } => {
            let Refusal { number, place } = refusal;
            let own = offending_part(part, number);
            let at = offending_place(code, file, part, number, place);
            let record = offending(code, file, part, number, place);
            Verdict {
                record_file: file_number(alone, own),
                record_at: at as u64,
                record_length: record.len() as u64,
                ..verdict
            }
        }
        // what was not refused in the reading hands back the empty end of the evidence
        _ => Verdict {
            record_file: file_number(alone, Part::InEvidence),
            record_at: file.len() as u64,
            record_length: 0,
            ..verdict
        },
    }
}
