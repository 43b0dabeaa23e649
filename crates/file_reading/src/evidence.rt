// The evidence part, and the whole reading (document 01, "Records" and the refusal table; document 02, N6).
ghost use Rattle.std.specs.Prelude.{◌≡◌, ℕ, ◌+◌, ◌≤◌, ◌<◌, cond, length};
ghost use Rattle.file_contents.specs.declared.evidence.Part.TheVariants.{InEvidence};
ghost use Rattle.file_contents.specs.Reading.{in_part, input, parts_of, run_evidence, evidence_from, evidence_reading, reading_of, area_read, evidence_area};

use crate::claim::check_claim;
use crate::list::entries_from;
use crate::start::{check_start, memory_at};
use base::bytes::field;
use file_contents::evidence::{Contents, Part, Unread, entries_allowed, in_part};
use file_contents::steps::steps_from;
use file_program::program::read_program;
use file_records::program::{Program, Refusal, Row, unless_end};

// A run, from the place after its claim on.
fn read_run(file: &[u8], program: Program, claim: u8, at: usize) -> Result<Contents, Refusal>
    ensures { (k : ℕ) → at ≡ k + 2 → in_part InEvidence result ≡ evidence_reading k program (run_evidence file.now claim at program) }
{
    unless_end(file, at, check_start(file, at, program.shape))?;
    let memory = memory_at(file, at);
    let first = at + 5;
    let count = steps_from(file, first, program.shape, program.transitions.count)?;
    Ok(Contents {
        program,
        claim,
        memory,
        evidence: Row { at: first, count },
    })
}

// From the claim on, which stands at a place in its file.
fn read_evidence(
    file: &[u8],
    at: usize,
    program: Program,
    work: &mut [u8],
) -> Result<Contents, Refusal>
    requires { (65536 ≤ length work.old) × (program.shape.processes ≤ 4) × (program.shape.variables ≤ 4) }
    ensures value { in_part InEvidence result ≡ evidence_reading at program (evidence_from file.now at program (length work.old)) }
    ensures work_after { work.new ≡ evidence_area (evidence_from file.now at program (length work.old)) work.old }
{
    unless_end(file, at, check_claim(file, at))?;
    let claim = field(file, at, 1);
    if claim != 0 {
        return read_run(file, program, claim, at + 2);
    }
    let most = entries_allowed(work.len());
    let first = at + 2;
    let list = &mut work[16384..];
    let count = entries_from(file, first, program.shape, program.states, most, list)?;
    Ok(Contents {
        program,
        claim,
        memory: [0; 4],
        evidence: Row { at: first, count },
    })
}

// Where the evidence begins in its file: at the claim that ends the program part, or with a file of its own.
fn evidence_at(alone: bool, program: Program) -> usize
    ensures { result ≡ cond alone 0 program.claim }
{
    if alone { 0 } else { program.claim }
}

// The contents or the first refusal. `code` is the file that holds the program and `file` the one that holds the evidence: the same, or
// a program file (`alone`) and an evidence file. The offsets of entries go into the work area, from byte 16,384 on.
pub fn read(alone: bool, code: &[u8], file: &[u8], work: &mut [u8]) -> Result<Contents, Unread>
    ensures value { result ≡ reading_of (input alone code.now file.now) (parts_of (input alone code.now file.now) (length work.old)) }
    ensures work_after { work.new ≡ area_read (parts_of (input alone code.now file.now) (length work.old)) work.old }
{
    if work.len() < 65536 {
        return Err(Unread {
            part: Part::InProgram,
            refusal: Refusal {
                number: 8,
                place: 0,
            },
        });
    }
    let program = in_part(Part::InProgram, read_program(alone, code, 0))?;
    let at = evidence_at(alone, program);
    in_part(Part::InEvidence, read_evidence(file, at, program, work))
}
