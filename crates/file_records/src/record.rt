// One record of the program part: its number in the refusal table, and what it says (document 01, "Records").
ghost use Rattle.std.specs.Prelude.{◌≡◌};
ghost use Rattle.file_records.specs.Records.{first_number, checked, is_kind, operation_of, transition_at};

use crate::program::Refusal;
use base::bytes::{byte_at, field};
use machine_pws::{Operation, Transition};

// The first number that applies, in the order 2, 1, 5, 3, 4; 0 for none.
pub fn first_number(
    not_allowed: bool,
    cut: bool,
    full: bool,
    out_of_range: bool,
    bad_name: bool,
) -> u8
    ensures { result ≡ first_number not_allowed cut full out_of_range bad_name }
{
    if not_allowed {
        return 2;
    }
    if cut {
        return 1;
    }
    if full {
        return 5;
    }
    if out_of_range {
        return 3;
    }
    if bad_name {
        return 4;
    }
    0
}

// What is said of the record at a place by its number in the refusal table.
pub fn checked(number: u8, place: usize) -> Result<(), Refusal>
    ensures { result ≡ checked number place }
{
    if number == 0 {
        return Ok(());
    }
    Err(Refusal { number, place })
}

pub fn is_kind(file: &[u8], at: usize, kind: u8) -> bool
    ensures { result ≡ is_kind file.now at kind }
{
    byte_at(file, at) == kind
}

fn operation_of(operation: u8, variable: u8, value: u8, new: u8) -> Operation
    ensures { result ≡ operation_of operation variable value new }
{
    match operation {
        1 => Operation::Read {
            variable: usize::from(variable),
            value,
        },
        2 => Operation::Write {
            variable: usize::from(variable),
            value,
        },
        3 => Operation::Mfence,
        4 => Operation::Sfence,
        5 => Operation::Arw {
            variable: usize::from(variable),
            old: value,
            new,
        },
        _ => Operation::Nop,
    }
}

// The transition of the 03 at a place.
pub fn transition_at(file: &[u8], at: usize) -> Transition
    ensures { result ≡ transition_at file.now at }
{
    let operation = operation_of(
        field(file, at, 3),
        field(file, at, 4),
        field(file, at, 5),
        field(file, at, 6),
    );
    Transition {
        process: usize::from(field(file, at, 1)),
        from: field(file, at, 2),
        operation,
        to: field(file, at, 7),
    }
}
