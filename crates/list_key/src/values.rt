// Values of an entry and of a cube, and numbers of them.
ghost use Rattle.std.specs.Prelude.{◌≡◌, ◌+◌, ◌*◌, length};
ghost use Rattle.file_contents.specs.Cube.{waiting_of};
ghost use Rattle.file_records.specs.ProgramPart.{shape_of};
ghost use Rattle.list_theory.specs.Values.{pairwise};
ghost use Rattle.list_theory.specs.Cubes.{any_value, any_message};
ghost use Rattle.list_key.specs.Relation.{relation};
ghost use Rattle.list_key.specs.Word.{Word};

use file_contents::entry::Queue;
use file_records::program::Shape;
use machine_pws::Message;

// A value of an entry and one of a cube: exactly, the first may stand for the second; else they may have a value in common.
pub fn related(exact: bool, a: u8, b: u8) -> bool
    ensures { result ≡ relation exact a b }
{
    a == 255 || a == b || (!exact && b == 255)
}

// Four bytes as a number: they are compared at once.
pub fn word(a: u8, b: u8, c: u8, d: u8) -> usize
    ensures value { result ≡ a + 256 * b + 65536 * c + 16777216 * d }
    ensures word { Word a b c d result }
{
    usize::from(a) + 256 * usize::from(b) + 65536 * usize::from(c) + 16777216 * usize::from(d)
}

pub fn values_related(exact: bool, a: [u8; 4], b: [u8; 4]) -> bool
    ensures { result ≡ pairwise (relation exact) a b }
{
    // most often they are the same, and one comparison says so
    if word(a[0], a[1], a[2], a[3]) == word(b[0], b[1], b[2], b[3]) {
        return true;
    }
    related(exact, a[0], b[0])
        && related(exact, a[1], b[1])
        && related(exact, a[2], b[2])
        && related(exact, a[3], b[3])
}

// How many values wait.
pub fn waiting(queue: Queue) -> usize
    ensures { result ≡ length (waiting_of queue) }
{
    usize::from(queue.count).min(9)
}

// ---- a message all of whose values are free

fn any_value(shape: Shape, v: usize) -> u8
    ensures { result ≡ any_value (shape_of shape) v }
{
    if v < shape.variables { 255 } else { 0 }
}

pub fn any_message(shape: Shape, p: u8, v: u8) -> Message
    ensures { result ≡ any_message (shape_of shape) p v }
{
    let snapshot = [
        any_value(shape, 0),
        any_value(shape, 1),
        any_value(shape, 2),
        any_value(shape, 3),
    ];
    Message {
        process: p,
        variable: v,
        snapshot,
    }
}
