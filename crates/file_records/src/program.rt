// What the program part of a file holds, and what is said of its records (document 01, "Records").
ghost use Rattle.std.specs.Prelude.{◌≡◌, get_or};
ghost use Rattle.file_records.specs.Format.{transition_kind, last_operation, least_values, most_targets};
ghost use Rattle.file_records.specs.Records.{value_count};
ghost use Rattle.file_records.specs.ProgramPart.{unless_end};

use base::arrays::at_or;

// What a program is written as: the judge's own 03s, or the 05s of a program with registers (document 02, N8).
#[derive(Clone, Copy, Debug, PartialEq, Eq)]
pub enum Format {
    Plain,
    Registers,
}

// Why a file is refused: document 01's number, and the place.
#[derive(Clone, Copy, Debug, PartialEq, Eq)]
pub struct Refusal {
    pub number: u8,
    pub place: usize,
}

// Kind 01. Each of four variables has its number of values, 0 where the shape does not have the variable.
#[derive(Clone, Copy)]
pub struct Shape {
    pub processes: usize,
    pub variables: usize,
    pub values: [u8; 4],
}

// Records of one kind and size in a row: where the first stands, and how many there are.
#[derive(Clone, Copy)]
pub struct Row {
    pub at: usize,
    pub count: usize,
}

// Where the program part's records stand, and where the claim does (in a program file, its end).
#[derive(Clone, Copy)]
pub struct Program {
    pub shape: Shape,
    pub states: [u8; 4],
    pub initial: [u8; 4],
    pub transitions: Row,
    pub targets: Row,
    pub claim: usize,
}

// ---- what the format fixes

// The kind of a transition's record.
pub fn transition_kind(format: Format) -> u8
    ensures { result ≡ transition_kind format }
{
    match format {
        Format::Plain => 3,
        Format::Registers => 5,
    }
}

pub fn last_operation(format: Format) -> u8
    ensures { result ≡ last_operation format }
{
    match format {
        Format::Plain => 5,
        Format::Registers => 8,
    }
}

// The least number of values of a variable.
pub fn least_values(format: Format) -> u8
    ensures { result ≡ least_values format }
{
    match format {
        Format::Plain => 1,
        Format::Registers => 4,
    }
}

pub fn most_targets(format: Format) -> usize
    ensures { result ≡ most_targets format }
{
    match format {
        Format::Plain => 4096,
        Format::Registers => 16,
    }
}

// ---- what a record holds

pub fn value_count(shape: Shape, variable: usize) -> u8
    ensures { result ≡ value_count shape variable }
{
    at_or(shape.values, variable, 0)
}

// ---- what is said of records

// What is said of the record at a place, or 6 where the file has ended.
pub fn unless_end(file: &[u8], at: usize, said: Result<(), Refusal>) -> Result<(), Refusal>
    ensures { result ≡ unless_end file.now at said }
{
    if file.len() <= at {
        return Err(Refusal {
            number: 6,
            place: file.len(),
        });
    }
    said
}
