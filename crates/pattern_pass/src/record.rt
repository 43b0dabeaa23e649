// The records of a pattern, each with its number in the refusal table (docs/PATTERNS.md, "Records").
ghost use Rattle.std.specs.Prelude.{◌≡◌, ◌+◌, ◌≤◌, length};
ghost use Rattle.file_records.specs.Records.{checked, state_names, value_name, waiting_names, waiting_number};
ghost use Rattle.pattern_reading.specs.Records.{claim_number, newest_names, pattern_number, read_names, read_number, mark_names, mark_number, body_size};
ghost use Rattle.pattern_reading.specs.Reading.{at_boundary};

use base::bytes::{both, cut, either, field};
use file_contents::steps::pair_exists;
use file_program::record::state_name;
use file_records::program::{Refusal, Shape, value_count};
use file_records::record::{checked, first_number, is_kind};

// The claim is 0.
pub(crate) fn check_claim(file: &[u8], at: usize) -> Result<(), Refusal>
    ensures { result ≡ checked (claim_number file.now at) at }
{
    checked(
        first_number(
            !is_kind(file, at, 15),
            cut(file, at, 1),
            false,
            false,
            !(field(file, at, 1) == 0),
        ),
        at,
    )
}

fn value_name(shape: Shape, variable: usize, value: u8) -> bool
    ensures { result ≡ value_name shape variable value }
{
    if shape.variables <= variable {
        return value == 0;
    }
    if value == 255 {
        return true;
    }
    value < value_count(shape, variable)
}

// Of the 13 at a place that is inside the file: its states, and the values of the newest message.
fn states_inside(file: &[u8], at: usize, shape: Shape, states: [u8; 4]) -> bool
    requires { at + 9 ≤ length file.now }
    ensures { result ≡ state_names shape states file.now at }
{
    let a = state_name(shape, states, 0, file[at + 1]);
    let b = state_name(shape, states, 1, file[at + 2]);
    let c = state_name(shape, states, 2, file[at + 3]);
    let d = state_name(shape, states, 3, file[at + 4]);
    both(a, both(b, both(c, d)))
}

fn newest_inside(file: &[u8], at: usize, shape: Shape) -> bool
    requires { at + 9 ≤ length file.now }
    ensures { result ≡ newest_names shape file.now at }
{
    let a = value_name(shape, 0, file[at + 5]);
    let b = value_name(shape, 1, file[at + 6]);
    let c = value_name(shape, 2, file[at + 7]);
    let d = value_name(shape, 3, file[at + 8]);
    both(a, both(b, both(c, d)))
}

// The 13 of a pattern.
pub(crate) fn check_pattern(
    file: &[u8],
    at: usize,
    shape: Shape,
    states: [u8; 4],
    full: bool,
) -> Result<(), Refusal>
    ensures { result ≡ checked (pattern_number shape states file.now at full) at }
{
    let other = !is_kind(file, at, 19);
    if cut(file, at, 8) {
        return checked(first_number(other, true, full, false, true), at);
    }
    let names = both(
        states_inside(file, at, shape, states),
        newest_inside(file, at, shape),
    );
    checked(first_number(other, false, full, false, !names), at)
}

// A 12, of whose queue so many values stand before it.
fn waiting_names(file: &[u8], at: usize, shape: Shape) -> bool
    ensures { result ≡ waiting_names shape file.now at }
{
    let variable = field(file, at, 2);
    both(
        pair_exists(shape, field(file, at, 1), variable),
        value_name(shape, usize::from(variable), field(file, at, 3)),
    )
}

pub(crate) fn waiting_number(file: &[u8], at: usize, shape: Shape, waiting: u8) -> u8
    ensures { result ≡ waiting_number shape file.now at waiting }
{
    let full = both(
        pair_exists(shape, field(file, at, 1), field(file, at, 2)),
        8 <= waiting,
    );
    first_number(
        false,
        cut(file, at, 3),
        full,
        false,
        !waiting_names(file, at, shape),
    )
}

// A 14, of whose process so many reads stand before it.
fn read_names(file: &[u8], at: usize, shape: Shape) -> bool
    ensures { result ≡ read_names shape file.now at }
{
    let variable = field(file, at, 2);
    let named = field(file, at, 3) < value_count(shape, usize::from(variable));
    both(
        pair_exists(shape, field(file, at, 1), variable),
        both(named, field(file, at, 4) <= 1),
    )
}

pub(crate) fn read_number(file: &[u8], at: usize, shape: Shape, reads: u8) -> u8
    ensures { result ≡ read_number shape file.now at reads }
{
    let full = both(
        usize::from(field(file, at, 1)) < shape.processes,
        16 <= reads,
    );
    first_number(
        false,
        cut(file, at, 4),
        full,
        false,
        !read_names(file, at, shape),
    )
}

// A 15, and whether one of its queue stands before it.
fn mark_names(file: &[u8], at: usize, shape: Shape) -> bool
    ensures { result ≡ mark_names shape file.now at }
{
    both(
        pair_exists(shape, field(file, at, 1), field(file, at, 2)),
        field(file, at, 3) <= 1,
    )
}

pub(crate) fn mark_number(file: &[u8], at: usize, shape: Shape, marked: bool) -> u8
    ensures { result ≡ mark_number shape file.now at marked }
{
    let full = both(
        pair_exists(shape, field(file, at, 1), field(file, at, 2)),
        marked,
    );
    first_number(
        false,
        cut(file, at, 3),
        full,
        false,
        !mark_names(file, at, shape),
    )
}

pub(crate) fn body_size(file: &[u8], at: usize) -> usize
    ensures { result ≡ body_size file.now at }
{
    if is_kind(file, at, 20) { 5 } else { 4 }
}

// The next 13, or the file's end.
pub(crate) fn at_boundary(file: &[u8], at: usize) -> bool
    ensures { result ≡ at_boundary file.now at }
{
    either(file.len() <= at, is_kind(file, at, 19))
}
