// The record that a refusal is about, as a part of the file that it stands in (document 02, N6). `code` is the file that holds the program and
// `file` the one that holds the evidence.
ghost use Rattle.std.specs.Prelude.{◌≡◌, []};
ghost use Rattle.file_again.specs.Offending.{body_of, record_at, is_of_record, is_in_program, offending_by, part_said_by};

use base::bytes::{both, byte_at, either};
use file_contents::evidence::Part;

// The length of a record's body by its kind; 0 for an unknown kind.
fn body_of(kind: u8) -> usize
    ensures { result ≡ body_of kind }
{
    match kind {
        1 => 6,
        2 => 2,
        3 => 7,
        4 => 4,
        15 => 1,
        16 => 8,
        17 => 6,
        18 => 3,
        31 => 4,
        32 => 1,
        33 => 2,
        34 => 1,
        _ => 0,
    }
}

// The record at a place, cut at the file's end; nothing past it.
fn record_at(file: &[u8], at: usize) -> &[u8]
    ensures { result.now ≡ record_at file.now at }
{
    if file.len() <= at {
        return &file[..0];
    }
    let size = 1 + body_of(byte_at(file, at));
    if file.len() - at <= size {
        return &file[at..];
    }
    &file[at..at + size]
}

// The empty end of a file.
fn end_of(file: &[u8]) -> &[u8]
    ensures { result.now ≡ [] }
{
    &file[file.len()..]
}

// 1, 2, 3, 4, 5 and 7 are about a record.
fn is_of_record(number: u8) -> bool
    ensures { result ≡ is_of_record number }
{
    both(1 <= number, both(number <= 7, !(number == 6)))
}

fn in_program(part: Part) -> bool
    ensures { result ≡ is_in_program part }
{
    match part {
        Part::InProgram => true,
        Part::InEvidence => false,
    }
}

// The part of `code` or `file` that the refusal of this number and place, which stands in `part`, hands back.
pub fn offending<'a>(
    code: &'a [u8],
    file: &'a [u8],
    part: Part,
    number: u8,
    place: usize,
) -> &'a [u8]
    ensures { result.now ≡ (offending_by code.now file.now part number place).bytes }
{
    if !is_of_record(number) {
        return end_of(file);
    }
    if in_program(part) {
        return record_at(code, place);
    }
    record_at(file, place)
}

// The file that it is a part of.
pub fn offending_part(part: Part, number: u8) -> Part
    ensures { result ≡ part_said_by part number }
{
    if either(is_of_record(number), number == 6) {
        return part;
    }
    Part::InEvidence
}

// And where it stands there.
pub fn offending_place(code: &[u8], file: &[u8], part: Part, number: u8, place: usize) -> usize
    ensures { result ≡ (offending_by code.now file.now part number place).at }
{
    if is_of_record(number) {
        return place;
    }
    if number == 6 {
        if in_program(part) {
            return code.len();
        }
    }
    file.len()
}
