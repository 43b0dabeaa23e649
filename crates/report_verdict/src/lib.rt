// The answer to a report as C has it (document 02, N10).
#![tactic(auto)]

ghost use Rattle.std.specs.Prelude.{◌≡◌, length};
ghost use Rattle.verdict.specs.Answers.{stepless, with_record};
ghost use Rattle.report_reading.specs.Parts.{report_offending, report_offending_at};
ghost use Rattle.report_verdict.specs.Answers.{unread_in_c};

use file_again::offending::{offending, offending_place};
use file_contents::evidence::Part;
use file_records::program::Refusal;
use file_records::record::is_kind;
use verdict::answer::Verdict;

// A verdict with no step, and the record of this place and length in the report.
// The verdict of a refused step has a function of its own, with a file and a step besides: each of these would be a constant here.
fn with_record(kind: u64, first: u64, second: u64, at: u64, length: u64) -> Verdict
    ensures { result ≡ with_record (stepless kind first second) 0 at length }
{
    Verdict {
        kind,
        first,
        second,
        step_kind: 0,
        step_first: 0,
        step_second: 0,
        record_file: 0,
        record_at: at,
        record_length: length,
    }
}

// Once the records are read: the record is the empty end of the file.
pub fn ended(file: &[u8], kind: u64, first: u64, second: u64) -> Verdict
    ensures { result ≡ with_record (stepless kind first second) 0 (length file.now) 0 }
{
    with_record(kind, first, second, file.len() as u64, 0)
}

// The length of the record that a refusal hands back. A mark, of two bytes, is known in a report alone.
fn record_length(file: &[u8], number: u8, place: usize) -> usize
    ensures { result ≡ length (report_offending file.now number place) }
{
    let size = offending(file, file, Part::InEvidence, number, place).len();
    if is_kind(file, place, 48) {
        if size == 0 {
            return 0;
        }
        return usize::min(2, file.len() - place);
    }
    size
}

// And its place.
fn record_place(file: &[u8], number: u8, place: usize) -> usize
    ensures { result ≡ report_offending_at file.now number place }
{
    offending_place(file, file, Part::InEvidence, number, place)
}

// A refusal of the records, with the record that it is about.
pub fn unread(file: &[u8], refusal: Refusal) -> Verdict
    ensures { result ≡ unread_in_c file.now refusal }
{
    let Refusal { number, place } = refusal;
    let at = record_place(file, number, place);
    let size = record_length(file, number, place);
    with_record(2, u64::from(number), place as u64, at as u64, size as u64)
}
