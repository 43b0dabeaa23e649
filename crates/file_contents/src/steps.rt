// The steps of a run (document 01, "Records").
ghost use Rattle.std.specs.Prelude.{◌≡◌};
ghost use Rattle.file_records.specs.Records.{checked, is_step, step_body, exists, step_names, step_number, step_at};
ghost use Rattle.file_contents.specs.EvidencePart.{steps_from};

use base::bytes::{both, cut, either, field};
use file_records::program::{Refusal, Shape};
use file_records::record::{checked, first_number, is_kind};
use machine_pws::Step;

fn is_step(file: &[u8], at: usize) -> bool
    ensures { result ≡ is_step file.now at }
{
    either(
        is_kind(file, at, 32),
        either(is_kind(file, at, 33), is_kind(file, at, 34)),
    )
}

pub fn step_body(file: &[u8], at: usize) -> usize
    ensures { result ≡ step_body file.now at }
{
    if is_kind(file, at, 33) { 2 } else { 1 }
}

pub fn pair_exists(shape: Shape, process: u8, variable: u8) -> bool
    ensures { result ≡ exists shape process variable }
{
    both(
        usize::from(process) < shape.processes,
        usize::from(variable) < shape.variables,
    )
}

fn step_names(file: &[u8], at: usize, shape: Shape, transitions: usize) -> bool
    ensures { result ≡ step_names shape transitions file.now at }
{
    let first = field(file, at, 1);
    if is_kind(file, at, 32) {
        return usize::from(first) < transitions;
    }
    if is_kind(file, at, 33) {
        return pair_exists(shape, first, field(file, at, 2));
    }
    usize::from(first) < shape.processes
}

// n of them stand before it.
fn check_step(
    file: &[u8],
    at: usize,
    shape: Shape,
    transitions: usize,
    n: usize,
) -> Result<(), Refusal>
    ensures { result ≡ checked (step_number shape transitions file.now at n) at }
{
    let names = step_names(file, at, shape, transitions);
    checked(
        first_number(
            !is_step(file, at),
            cut(file, at, step_body(file, at)),
            1024 <= n,
            false,
            !names,
        ),
        at,
    )
}

// The step of the record at a place.
pub fn step_at(file: &[u8], at: usize) -> Step
    ensures { result ≡ step_at file.now at }
{
    let first = usize::from(field(file, at, 1));
    if is_kind(file, at, 32) {
        return Step::Take { transition: first };
    }
    if is_kind(file, at, 33) {
        return Step::Serialise {
            process: first,
            variable: usize::from(field(file, at, 2)),
        };
    }
    Step::Update { process: first }
}

// The steps, to the file's end.
pub fn steps_from(
    file: &[u8],
    at: usize,
    shape: Shape,
    transitions: usize,
) -> Result<usize, Refusal>
    ensures { result ≡ steps_from shape transitions file.now at }
{
    let mut k = at;
    let mut n = 0;
    while k < file.len() {
        check_step(file, k, shape, transitions, n)?;
        k += 1 + step_body(file, k);
        n += 1;
    }
    Ok(n)
}
