// The reading of a report, one record after another (document 02, N10): the program part, the marks, the list, and each mark's run in turn.
ghost use Rattle.std.specs.Prelude.{◌≡◌, ◌+◌, ◌*◌, length};
ghost use Rattle.file_contents.specs.Reading.{pair, parts_of, area_read};
ghost use Rattle.report_reading.specs.Parts.{program_part, evidence_part};
ghost use Rattle.report_reading.specs.Reading.{open_report, read_part, runs_from, read_report, report_opened, report_reading, report_area};
ghost use Rattle.report_reading.specs.Answers.{part_answer, runs_answer, evidence_answer, PartReady, EvidenceReady};

use crate::ReportReading;
use crate::parts::{evidence_end, program_end};
use crate::records::{due_claim, in_report, marks_from, over_number};
use file_program::program::read_program;
use file_reading::evidence::read;
use file_records::program::{Refusal, Row};

// Up to the claim of the list, with a work area of so many bytes.
fn open_report(file: &[u8], area: usize) -> Result<ReportReading, Refusal>
    ensures { result ≡ report_opened file.now (open_report file.now area) }
{
    if area < 65536 {
        return Err(Refusal {
            number: 8,
            place: 0,
        });
    }
    let end = program_end(file);
    let program = match read_program(true, &file[..end], 0) {
        Ok(program) => program,
        Err(refusal) => return Err(in_report(file, 0, end, refusal)),
    };
    let n = marks_from(file, end, program.transitions.count)?;
    due_claim(file, end + 2 * n, 0)?;
    Ok(ReportReading {
        program,
        marks: Row { at: end, count: n },
    })
}

// The evidence whose 0F stands at a place, as the judge reads it for the program, which ends at `end`.
fn read_part(file: &[u8], end: usize, at: usize, work: &mut [u8]) -> Result<(), Refusal>
    requires { PartReady file.now (length work.old) end at }
    ensures value { result ≡ part_answer file.now at (read_part file.now (length work.old) at) }
    ensures work_after { work.new ≡ area_read (parts_of (pair (program_part file.now) (evidence_part file.now at)) (length work.old)) work.old }
{
    let next = evidence_end(file, at);
    match read(true, &file[..end], &file[at..next], work) {
        Ok(_) => Ok(()),
        Err(unread) => Err(in_report(file, at, next, unread.refusal)),
    }
}

// So many runs from a place on, and then the file's end.
fn runs_from(file: &[u8], end: usize, at: usize, n: usize, work: &mut [u8]) -> Result<(), Refusal>
    requires { PartReady file.now (length work.old) end at }
    ensures value { result ≡ runs_answer (runs_from file.now (length work.old) n at) }
    ensures work_unchanged { work.new ≡ work.old }
{
    let mut k = at;
    for _ in 0..n {
        due_claim(file, k, 1)?;
        read_part(file, end, k, work)?;
        k = evidence_end(file, k);
    }
    if file.len() <= k {
        return Ok(());
    }
    Err(Refusal {
        number: over_number(file, k),
        place: k,
    })
}

// The list, whose claim is fine, and the runs after it.
fn read_evidence(file: &[u8], end: usize, n: usize, work: &mut [u8]) -> Result<(), Refusal>
    requires { EvidenceReady file.now (length work.old) end n }
    ensures value { result ≡ evidence_answer file.now (length work.old) n }
    ensures work_after { work.new ≡ area_read (parts_of (pair (program_part file.now) (evidence_part file.now (end + 2 * n))) (length work.old)) work.old }
{
    let at = end + 2 * n;
    read_part(file, end, at, work)?;
    runs_from(file, end, evidence_end(file, at), n, work)
}

// What a report holds, or the first refusal. The offsets of the list's entries go into the work area, from byte 16,384 on.
pub fn read_report(file: &[u8], work: &mut [u8]) -> Result<ReportReading, Refusal>
    ensures value { result ≡ report_reading file.now (read_report file.now (length work.old)) }
    ensures work_after { work.new ≡ report_area file.now work.old }
{
    let opened = open_report(file, work.len())?;
    read_evidence(file, opened.marks.at, opened.marks.count, work)?;
    Ok(opened)
}
