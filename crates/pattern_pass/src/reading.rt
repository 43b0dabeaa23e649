// The whole reading of a pattern file, or of a program file and an evidence file (docs/PATTERNS.md, "Records").
ghost use Rattle.std.specs.Prelude.{◌≡◌, ◌≤◌, cond, length};
ghost use Rattle.file_contents.specs.EvidencePart.{entries_allowed};
ghost use Rattle.file_contents.specs.declared.evidence.Part.TheVariants.{InEvidence};
ghost use Rattle.file_contents.specs.Reading.{in_part, input};
ghost use Rattle.pattern_pass.specs.Passing.{evidence_passed, passed_of, pass_reading, pass_area};

use crate::pass::patterns_from;
use crate::record::check_claim;
use file_contents::evidence::{Part, Unread, entries_allowed, in_part};
use file_program::program::read_program;
use file_records::program::{Program, Refusal, unless_end};

// What was read: the program, and how many patterns there are.
#[derive(Clone, Copy)]
pub struct PatternReading {
    pub program: Program,
    pub count: usize,
}

// From the claim on, which stands at a place in its file.
fn pass_evidence(
    file: &[u8],
    at: usize,
    program: Program,
    work: &mut [u8],
) -> Result<PatternReading, Refusal>
    requires { (65536 ≤ length work.old) × (program.shape.processes ≤ 4) × (program.shape.variables ≤ 4) }
    ensures value { in_part InEvidence result ≡ pass_reading (evidence_passed (entries_allowed (length work.old)) file.now at program) }
    ensures work_after { work.new ≡ pass_area (evidence_passed (entries_allowed (length work.old)) file.now at program) work.old }
{
    unless_end(file, at, check_claim(file, at))?;
    let most = entries_allowed(work.len());
    let first = at + 2;
    let list = &mut work[16384..];
    let count = patterns_from(file, first, program.shape, program.states, most, list)?;
    Ok(PatternReading { program, count })
}

// Where the evidence begins in its file: at the claim that ends the program part, or with a file of its own.
fn claim_place(alone: bool, program: Program) -> usize
    ensures { result ≡ cond alone 0 program.claim }
{
    if alone { 0 } else { program.claim }
}

// The program and the number of patterns, or the first refusal. `code` is the file that holds the program and `file` the one that holds the patterns:
// the same, or a program file (`alone`) and an evidence file. The offsets of patterns go into the work area, from byte 16,384 on.
pub fn read_patterns(
    alone: bool,
    code: &[u8],
    file: &[u8],
    work: &mut [u8],
) -> Result<PatternReading, Unread>
    ensures value { result ≡ pass_reading (passed_of (input alone code.now file.now) (length work.old)) }
    ensures work_after { work.new ≡ pass_area (passed_of (input alone code.now file.now) (length work.old)) work.old }
{
    if work.len() < 65536 {
        return Err(Unread {
            part: Part::InProgram,
            refusal: Refusal {
                number: 8,
                place: 0,
            },
        });
    }
    let program = in_part(Part::InProgram, read_program(alone, code, 0))?;
    let at = claim_place(alone, program);
    in_part(Part::InEvidence, pass_evidence(file, at, program, work))
}
