// Where the parts of a report end (document 02, N10), found by walking its records.
ghost use Rattle.std.specs.Prelude.{◌≡◌, ◌||◌, length, leb};
ghost use Rattle.base.specs.Bytes.{byte};
ghost use Rattle.file_again.specs.Offending.{record_at};
ghost use Rattle.report_reading.specs.Parts.{ends_part, end_from, program_end, evidence_end};

use base::bytes::byte_at;
use file_again::offending::offending;
use file_contents::evidence::Part;

// The record at a place, cut at the file's end: the one that number 1 hands back.
fn record_at(file: &[u8], at: usize) -> &[u8]
    ensures { result.now ≡ record_at file.now at }
{
    offending(file, file, Part::InEvidence, 1, at)
}

// Every part ends at an 0F, and the program at a 30 too.
#[tactic(auto, unfolding(crate::specs::Parts::ends_part))]
fn ends_part(program: bool, kind: u8) -> bool
    ensures { result ≡ ends_part program kind }
{
    kind == 15 || (program && kind == 48)
}

// A record that ends the part, or the file's end.
fn stops_at(program: bool, file: &[u8], at: usize) -> bool
    ensures { result ≡ (leb (length file.now) at || ends_part program (byte file.now at)) }
{
    file.len() <= at || ends_part(program, byte_at(file, at))
}

// The first of these from a place on.
fn end_from(program: bool, file: &[u8], at: usize) -> usize
    ensures { result ≡ end_from program (length file.now) file.now at }
{
    let mut k = at;
    while !stops_at(program, file, k) {
        k += record_at(file, k).len();
    }
    k
}

// Where the program ends.
pub(crate) fn program_end(file: &[u8]) -> usize
    ensures { result ≡ program_end file.now }
{
    end_from(true, file, 0)
}

// Where the evidence ends whose 0F stands at a place.
pub fn evidence_end(file: &[u8], at: usize) -> usize
    ensures { result ≡ evidence_end file.now at }
{
    let first = record_at(file, at).len();
    end_from(false, file, at + first)
}
