// The judgement of a report (document 02, N10): its marks, its list for the program, and each mark's run for the program in which that fence is a nop,
// each by the judge as it is. What it says stands in report_verdict/specs/Answers.antt.
#![tactic(auto)]

ghost use Rattle.std.specs.Prelude.{◌≡◌, ◌-◌, ◌+◌, ◌*◌, ◌≤◌, length, set, take, drop};
ghost use Rattle.file_contents.specs.Reading.{pair};
ghost use Rattle.verdict.specs.Judge.{area_after};
ghost use Rattle.verdict.specs.Answers.{said_in_c};
ghost use Rattle.report_reading.specs.Parts.{evidence_place};
ghost use Rattle.report_marks.specs.Copy.{room};
ghost use Rattle.report_verdict.specs.Answers.{report_said_in_c};
ghost use Rattle.report_verdict.specs.ByParts.{part_fails, failing_part, said_parts, PartsReady};

use file_records::program::Program;
use judge::{clear_area, judge_pair};
use report_marks::copy::copied_with;
use report_marks::marks::{mark_at, mark_bytes, wrong_mark};
use report_reading::parts::evidence_end;
use report_reading::reading::read_report;
use report_verdict::{ended, unread};
use verdict::answer::Verdict;

// The judge's answer to the evidence from `at` to `next`, for the program, which ends at `end`.
fn list_verdict(file: &[u8], end: usize, at: usize, next: usize, work: &mut [u8]) -> Verdict
    requires { (end ≤ length file.now) × (at ≤ next) × (next ≤ length file.now) }
    ensures value { result ≡ said_in_c (pair (take end file.now) (take (next - at) (drop at file.now))) (length work.old) }
    ensures work_after { work.new ≡ area_after work.old }
{
    judge_pair(&file[..end], &file[at..next], work)
}

// The same, for the program with 0 at `place`.
fn run_verdict(
    file: &[u8],
    end: usize,
    place: usize,
    at: usize,
    next: usize,
    work: &mut [u8],
) -> Verdict
    requires { (end ≤ length file.now) × (end ≤ room) × (at ≤ next) × (next ≤ length file.now) }
    ensures value { result ≡ said_in_c (pair (set (take end file.now) place 0) (take (next - at) (drop at file.now))) (length work.old) }
    ensures work_after { work.new ≡ area_after work.old }
{
    let copy = copied_with(&file[..end], place);
    judge_pair(&copy[..end], &file[at..next], work)
}

// The run of place i, which stands at `at`, fails. The transitions stand from `row` on.
fn run_fails(
    file: &[u8],
    end: usize,
    row: usize,
    marks: [u8; 8],
    n: usize,
    i: usize,
    at: usize,
    work: &mut [u8],
) -> bool
    requires { PartsReady file.now end n row × (at ≡ evidence_place file.now n (1 + i)) }
    ensures value { result ≡ part_fails file.now row marks n (length work.old) i }
    ensures work_after { work.new ≡ area_after work.old }
{
    let next = evidence_end(file, at);
    let place = row + 8 * usize::from(mark_at(marks, i)) + 3;
    let verdict = run_verdict(file, end, place, at, next, work);
    verdict.kind != 1
}

// The lowest place of a run that fails, of n, the first of which stands at `start`; n if none does.
fn failing_run(
    file: &[u8],
    end: usize,
    row: usize,
    marks: [u8; 8],
    n: usize,
    start: usize,
    work: &mut [u8],
) -> usize
    requires { PartsReady file.now end n row × (start ≡ evidence_place file.now n 1) }
    ensures value { result ≡ failing_part file.now row marks n (length work.old) }
    ensures work_unchanged { area_after work.new ≡ area_after work.old }
{
    let mut at = start;
    for i in 0..n {
        if run_fails(file, end, row, marks, n, i, at, work) {
            return i;
        }
        at = evidence_end(file, at);
    }
    n
}

// A report of n marks whose program ends at `end`, by its parts.
fn judged_parts(file: &[u8], program: Program, end: usize, n: usize, work: &mut [u8]) -> Verdict
    requires { PartsReady file.now end n program.transitions.at }
    ensures value { result ≡ said_parts file.now program n (length work.old) }
    ensures work_unchanged { area_after work.new ≡ area_after work.old }
{
    let marks = mark_bytes(file, end);
    let wrong = wrong_mark(&file[..end], program, marks, n);
    if wrong < n {
        return ended(file, 2, 22, wrong as u64);
    }
    let at = end + 2 * n;
    let next = evidence_end(file, at);
    let list = list_verdict(file, end, at, next, work);
    if 0 < list.kind {
        return ended(file, 2, 23, 8);
    }
    let row = program.transitions;
    let failing = failing_run(file, end, row.at, marks, n, next, work);
    if failing < n {
        return ended(file, 2, 23, failing as u64);
    }
    ended(file, 4, n as u64, list.first)
}

// The answer to a report, which is read and then judged.
fn report_file(file: &[u8], work: &mut [u8]) -> Verdict
    ensures value { result ≡ report_said_in_c file.now (length work.old) }
    ensures work_unchanged { area_after work.new ≡ area_after work.old }
{
    match read_report(file, work) {
        Ok(reading) => judged_parts(
            file,
            reading.program,
            reading.marks.at,
            reading.marks.count,
            work,
        ),
        Err(refusal) => unread(file, refusal),
    }
}

// And what is left of the work area is as after a list. The crate `exports` hands this function on.
pub fn report(file: &[u8], work: &mut [u8]) -> Verdict
    ensures computed { result ≡ report_said_in_c file.now (length work.old) }
    ensures area { work.new ≡ area_after work.old }
{
    let verdict = report_file(file, work);
    clear_area(work);
    verdict
}
