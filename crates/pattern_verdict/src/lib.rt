// The verdict on a pattern file as C has it (docs/PATTERNS.md, "Records"). What is not refused in the reading is shown as the judge shows it.
#![tactic(auto)]

ghost use Rattle.std.specs.Prelude.{◌≡◌, length};
ghost use Rattle.file_contents.specs.Reading.{input};
ghost use Rattle.file_again.specs.Offending.{is_of_record};
ghost use Rattle.verdict.specs.Answers.{with_record};
ghost use Rattle.pattern_verdict.specs.Offending.{pattern_body_of, pattern_record_at};
ghost use Rattle.pattern_verdict.specs.Said.{refused_in_c};

use base::bytes::byte_at;
use file_contents::evidence::Part;
use file_records::program::Refusal;
use verdict::answer::{Answer, Verdict, shown};

// The length of a record's body by its kind; 0 for an unknown kind.
fn body_of(kind: u8) -> usize
    ensures { result ≡ pattern_body_of kind }
{
    match kind {
        1 => 6,
        2 => 2,
        3 => 7,
        4 => 4,
        15 => 1,
        18 => 3,
        19 => 8,
        20 => 4,
        21 => 3,
        _ => 0,
    }
}

// The length of the record at a place, cut at the file's end.
fn record_size(file: &[u8], at: usize) -> usize
    ensures { result ≡ length (pattern_record_at file.now at) }
{
    file.len()
        .saturating_sub(at)
        .min(1 + body_of(byte_at(file, at)))
}

// 1, 2, 3, 4, 5 and 7 are about a record.
fn is_of_record(number: u8) -> bool
    ensures { result ≡ is_of_record number }
{
    1 <= number && number <= 7 && number != 6
}

fn with_length(verdict: Verdict, length: usize) -> Verdict
    ensures { result ≡ with_record verdict verdict.record_file verdict.record_at length }
{
    Verdict {
        record_length: length as u64,
        ..verdict
    }
}

// A refusal of the reading. `code` is the file that holds the program and `file` the one that holds the patterns: the record is a part of one of them.
// It stands where the judge's record would, and has the length of its kind in these files.
pub fn refused_shown<'a>(
    alone: bool,
    code: &'a [u8],
    file: &'a [u8],
    part: Part,
    refusal: Refusal,
) -> Verdict
    ensures { result ≡ refused_in_c (input alone code.now file.now) part refusal }
{
    let judged = shown(alone, code, file, Answer::Unread { part, refusal });
    if !is_of_record(refusal.number) {
        return judged;
    }
    match part {
        Part::InProgram => with_length(judged, record_size(code, refusal.place)),
        Part::InEvidence => with_length(judged, record_size(file, refusal.place)),
    }
}
