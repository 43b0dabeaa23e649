// One record of the program part: its number in the refusal table, and what it says (document 01, "Records").
ghost use Rattle.std.specs.Prelude.{◌≡◌, ◌&&◌, eqb, ltb};
ghost use Rattle.file_records.specs.Records.{checked, in_range, count_in_range, counts_in_range, count_if_absent, counts_if_absent, shape_number, states_number, value_exists, all_zero, names_of, operation_names, transition_names, transition_number, state_name, state_names, target_number};

use crate::program::shape_at;
use base::arrays::at_or;
use base::bytes::{both, cut, field};
use file_records::program::{
    Format, Refusal, Shape, last_operation, least_values, most_targets, transition_kind,
    value_count,
};
use file_records::record::{checked, first_number, is_kind};

fn in_range(x: u8, most: u8) -> bool
    ensures { result ≡ in_range x most }
{
    both(x != 0, x <= most)
}

fn count_in_range(format: Format, shape: Shape, v: usize) -> bool
    ensures { result ≡ count_in_range format shape v }
{
    if v < shape.variables {
        let count = value_count(shape, v);
        return both(least_values(format) <= count, count <= 4);
    }
    true
}

// Every variable of the shape has 1 to 4 values, or 4 in a program with registers.
fn counts_in_range(format: Format, shape: Shape) -> bool
    ensures { result ≡ counts_in_range format shape }
{
    let a = count_in_range(format, shape, 0);
    let b = count_in_range(format, shape, 1);
    let c = count_in_range(format, shape, 2);
    let d = count_in_range(format, shape, 3);
    both(a, both(b, both(c, d)))
}

fn count_if_absent(shape: Shape, v: usize) -> bool
    ensures { result ≡ count_if_absent shape v }
{
    if v < shape.variables {
        return true;
    }
    value_count(shape, v) == 0
}

// Every variable that it does not have has the count 0.
fn counts_if_absent(shape: Shape) -> bool
    ensures { result ≡ counts_if_absent shape }
{
    let a = count_if_absent(shape, 0);
    let b = count_if_absent(shape, 1);
    let c = count_if_absent(shape, 2);
    let d = count_if_absent(shape, 3);
    both(a, both(b, both(c, d)))
}

pub(crate) fn check_shape(format: Format, file: &[u8], at: usize) -> Result<(), Refusal>
    ensures { result ≡ checked (shape_number format file.now at) at }
{
    let shape = shape_at(file, at);
    let more = both(
        in_range(field(file, at, 2), 4),
        counts_in_range(format, shape),
    );
    let range = both(in_range(field(file, at, 1), 4), more);
    let absent = counts_if_absent(shape);
    checked(
        first_number(
            !is_kind(file, at, 1),
            cut(file, at, 6),
            false,
            !range,
            !absent,
        ),
        at,
    )
}

pub(crate) fn check_states(file: &[u8], at: usize) -> Result<(), Refusal>
    ensures { result ≡ checked (states_number file.now at) at }
{
    let count = field(file, at, 1);
    let initial = field(file, at, 2);
    checked(
        first_number(
            !is_kind(file, at, 2),
            cut(file, at, 2),
            false,
            !in_range(count, 32),
            !(initial < count),
        ),
        at,
    )
}

fn value_exists(shape: Shape, variable: u8, value: u8) -> bool
    ensures { result ≡ value_exists shape variable value }
{
    let v = usize::from(variable);
    both(v < shape.variables, value < value_count(shape, v))
}

fn all_zero(a: u8, b: u8, c: u8) -> bool
    ensures { result ≡ all_zero a b c }
{
    both(a == 0, both(b == 0, c == 0))
}

// A variable that exists, and nothing else.
fn variable_only(shape: Shape, variable: u8, value: u8, new: u8) -> bool
    ensures { result ≡ (ltb variable shape.variables && (eqb value 0 && eqb new 0)) }
{
    both(
        usize::from(variable) < shape.variables,
        both(value == 0, new == 0),
    )
}

// What the operation names exists, and what it lacks is 0.
fn names_of(shape: Shape, operation: u8, variable: u8, value: u8, new: u8) -> bool
    ensures { result ≡ names_of shape operation variable value new }
{
    match operation {
        0 => all_zero(variable, value, new),
        1 => both(value_exists(shape, variable, value), new == 0),
        2 => both(value_exists(shape, variable, value), new == 0),
        3 => all_zero(variable, value, new),
        4 => all_zero(variable, value, new),
        5 => both(
            value_exists(shape, variable, value),
            value_exists(shape, variable, new),
        ),
        6 => variable_only(shape, variable, value, new),
        7 => variable_only(shape, variable, value, new),
        8 => both(variable == 0, both(value < 4, new == 0)),
        _ => false,
    }
}

fn operation_names(
    format: Format,
    shape: Shape,
    operation: u8,
    variable: u8,
    value: u8,
    new: u8,
) -> bool
    ensures { result ≡ operation_names format shape operation variable value new }
{
    let names = names_of(shape, operation, variable, value, new);
    both(operation <= last_operation(format), names)
}

fn transition_names(format: Format, file: &[u8], at: usize, shape: Shape, states: [u8; 4]) -> bool
    ensures { result ≡ transition_names format shape states file.now at }
{
    let process = usize::from(field(file, at, 1));
    let count = at_or(states, process, 0);
    let operation = operation_names(
        format,
        shape,
        field(file, at, 3),
        field(file, at, 4),
        field(file, at, 5),
        field(file, at, 6),
    );
    let to = both(field(file, at, 7) < count, operation);
    let from = both(field(file, at, 2) < count, to);
    both(process < shape.processes, from)
}

// n of them stand before it.
pub(crate) fn check_transition(
    format: Format,
    file: &[u8],
    at: usize,
    shape: Shape,
    states: [u8; 4],
    n: usize,
) -> Result<(), Refusal>
    ensures { result ≡ checked (transition_number format shape states file.now at n) at }
{
    let names = transition_names(format, file, at, shape, states);
    checked(
        first_number(
            !is_kind(file, at, transition_kind(format)),
            cut(file, at, 7),
            256 <= n,
            false,
            !names,
        ),
        at,
    )
}

pub fn state_name(shape: Shape, states: [u8; 4], p: usize, x: u8) -> bool
    ensures { result ≡ state_name shape states p x }
{
    if p < shape.processes {
        return x < at_or(states, p, 0);
    }
    x == 0
}

// The first four bytes of the body of the record at a place, as states.
pub(crate) fn state_names(file: &[u8], at: usize, shape: Shape, states: [u8; 4]) -> bool
    ensures { result ≡ state_names shape states file.now at }
{
    let a = state_name(shape, states, 0, field(file, at, 1));
    let b = state_name(shape, states, 1, field(file, at, 2));
    let c = state_name(shape, states, 2, field(file, at, 3));
    let d = state_name(shape, states, 3, field(file, at, 4));
    both(a, both(b, both(c, d)))
}

// n of them stand before it.
pub(crate) fn check_target(
    format: Format,
    file: &[u8],
    at: usize,
    shape: Shape,
    states: [u8; 4],
    n: usize,
) -> Result<(), Refusal>
    ensures { result ≡ checked (target_number format shape states file.now at n) at }
{
    let names = state_names(file, at, shape, states);
    checked(
        first_number(
            !is_kind(file, at, 4),
            cut(file, at, 4),
            most_targets(format) <= n,
            false,
            !names,
        ),
        at,
    )
}
