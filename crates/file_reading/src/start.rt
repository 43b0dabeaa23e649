// The memory that a run starts from (document 02, N3).
ghost use Rattle.std.specs.Prelude.{◌≡◌};
ghost use Rattle.file_records.specs.Records.{checked, start_name, start_names, start_number, memory_at};

use base::bytes::{both, cut, field, four_at};
use file_records::program::{Refusal, Shape, value_count};
use file_records::record::{checked, first_number, is_kind};

fn start_name(shape: Shape, variable: usize, value: u8) -> bool
    ensures { result ≡ start_name shape variable value }
{
    if variable < shape.variables {
        return value < value_count(shape, variable);
    }
    value == 0
}

fn start_names(file: &[u8], at: usize, shape: Shape) -> bool
    ensures { result ≡ start_names shape file.now at }
{
    let a = start_name(shape, 0, field(file, at, 1));
    let b = start_name(shape, 1, field(file, at, 2));
    let c = start_name(shape, 2, field(file, at, 3));
    let d = start_name(shape, 3, field(file, at, 4));
    both(a, both(b, both(c, d)))
}

pub(crate) fn check_start(file: &[u8], at: usize, shape: Shape) -> Result<(), Refusal>
    ensures { result ≡ checked (start_number shape file.now at) at }
{
    let names = start_names(file, at, shape);
    checked(
        first_number(
            !is_kind(file, at, 31),
            cut(file, at, 4),
            false,
            false,
            !names,
        ),
        at,
    )
}

pub(crate) fn memory_at(file: &[u8], at: usize) -> [u8; 4]
    ensures { result ≡ memory_at file.now at }
{
    four_at(file, at, 1)
}
