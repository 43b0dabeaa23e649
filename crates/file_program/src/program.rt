// The program part of a file: kinds 01 to 04 in their order (document 01, "Records"). `alone` says that the file is a program file, which ends with
// this part (document 02, N6); in a combined file the claim follows.
ghost use Rattle.std.specs.Prelude.{◌≡◌, ◌+◌, ◌≤◌, cond, length, get_or};
ghost use Rattle.file_records.specs.Records.{shape_at};
ghost use Rattle.file_records.specs.ProgramPart.{states_from, of_processes, transitions_from, at_end, targets_from, rows_from, rest_from, program_with, program_from};

use crate::record::{check_shape, check_states, check_target, check_transition};
use base::bytes::{both, field, four_at};
use file_records::program::{Format, Program, Refusal, Row, Shape, transition_kind, unless_end};
use file_records::record::is_kind;

// The 02s of n processes.
fn states_from(file: &[u8], at: usize, n: usize) -> Result<(), Refusal>
    ensures { result ≡ states_from file.now at n }
{
    let mut k = at;
    for p in 0..n {
        unless_end(file, k, check_states(file, k))?;
        k += 3;
    }
    Ok(())
}

// The 03s or 05s that stand here in a row.
fn transitions_from(
    format: Format,
    file: &[u8],
    at: usize,
    shape: Shape,
    states: [u8; 4],
) -> Result<usize, Refusal>
    ensures { result ≡ transitions_from format shape states file.now at }
{
    let kind = transition_kind(format);
    let mut k = at;
    let mut n = 0;
    while is_kind(file, k, kind) {
        check_transition(format, file, k, shape, states, n)?;
        k += 8;
        n += 1;
    }
    Ok(n)
}

fn at_end(alone: bool, file: &[u8], at: usize, n: usize) -> bool
    ensures { result ≡ at_end alone file.now at n }
{
    if alone {
        return both(file.len() <= at, 1 <= n);
    }
    both(is_kind(file, at, 15), 1 <= n)
}

// The 04s, up to where the part ends.
fn targets_from(
    format: Format,
    alone: bool,
    file: &[u8],
    at: usize,
    shape: Shape,
    states: [u8; 4],
) -> Result<usize, Refusal>
    ensures { result ≡ targets_from format alone shape states file.now at }
{
    let mut k = at;
    let mut n = 0;
    while !at_end(alone, file, k, n) {
        unless_end(file, k, check_target(format, file, k, shape, states, n))?;
        k += 5;
        n += 1;
    }
    Ok(n)
}

// ---- the whole part

pub(crate) fn shape_at(file: &[u8], at: usize) -> Shape
    ensures { result ≡ shape_at file.now at }
{
    Shape {
        processes: usize::from(field(file, at, 1)),
        variables: usize::from(field(file, at, 2)),
        values: four_at(file, at, 3),
    }
}

fn field_if(file: &[u8], at: usize, exists: bool, k: u8) -> u8
    ensures { result ≡ cond exists (get_or file.now (at + k) 0) 0 }
{
    if exists {
        return field(file, at, k);
    }
    0
}

// The byte k places into the 02 of each of n processes, and 0 for the others.
fn of_processes(file: &[u8], at: usize, k: u8, n: usize) -> [u8; 4]
    requires { k ≤ 2 }
    ensures { result ≡ of_processes file.now at k n }
{
    [
        field_if(file, at, 0 < n, k),
        field_if(file, at, 1 < n, k + 3),
        field_if(file, at, 2 < n, k + 6),
        field_if(file, at, 3 < n, k + 9),
    ]
}

// The transitions and the 04s.
fn read_rows(
    format: Format,
    alone: bool,
    file: &[u8],
    at: usize,
    shape: Shape,
    states: [u8; 4],
    initial: [u8; 4],
) -> Result<Program, Refusal>
    requires { at ≤ length file.now + 12 }
    ensures { result ≡ rows_from format alone file.now at shape states initial }
{
    let n = transitions_from(format, file, at, shape, states)?;
    let next = at + 8 * n;
    let m = targets_from(format, alone, file, next, shape, states)?;
    Ok(Program {
        shape,
        states,
        initial,
        transitions: Row { at, count: n },
        targets: Row { at: next, count: m },
        claim: next + 5 * m,
    })
}

// And the 02s before them.
fn read_rest(
    format: Format,
    alone: bool,
    file: &[u8],
    at: usize,
    shape: Shape,
) -> Result<Program, Refusal>
    requires { (at ≤ length file.now) × (shape.processes ≤ 4) }
    ensures { result ≡ rest_from format alone file.now at shape }
{
    let n = shape.processes;
    states_from(file, at, n)?;
    let states = of_processes(file, at, 1, n);
    let initial = of_processes(file, at, 2, n);
    read_rows(format, alone, file, at + 3 * n, shape, states, initial)
}

// The program part, from a place in the file on.
pub fn read_with(format: Format, alone: bool, file: &[u8], at: usize) -> Result<Program, Refusal>
    ensures { result ≡ program_with format alone file.now at }
{
    unless_end(file, at, check_shape(format, file, at))?;
    let shape = shape_at(file, at);
    read_rest(format, alone, file, at + 7, shape)
}

// The same, as the judge reads it.
pub fn read_program(alone: bool, file: &[u8], at: usize) -> Result<Program, Refusal>
    ensures { result ≡ program_from alone file.now at }
{
    read_with(Format::Plain, alone, file, at)
}
