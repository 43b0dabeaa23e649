// The cubes before an update of p.
ghost use Rattle.std.specs.Prelude.{◌≡◌, true, ℕ, ◌-◌, ◌/◌, ◌%◌, ◌<◌, min, get_or};
ghost use Rattle.list_theory.specs.Cubes.{any_message};
ghost use Rattle.list_theory.specs.Predecessors.{undone, pointed};
ghost use Rattle.file_records.specs.ProgramPart.{shape_of};
ghost use Rattle.file_records.specs.declared.program.Shape.{Shape};
ghost use Rattle.file_contents.specs.Cube.{configuration_of};
ghost use Rattle.list_cube.specs.Editing.{Sound, CubeFor, LastWrites};
ghost use Rattle.list_before.specs.Before.{Repeats, update_before};

use base::arrays::{at_or, with_at};
use base::below::all_below;
use file_contents::entry::Cube;
use file_records::program::Shape;
use list_cube::messages::{inserted, raised, write_place};
use list_key::{any_message, word};
use machine_pws::Message;

// p points at the message before.
pub fn before_update(cube: Cube, p: usize) -> Cube
    ensures { (s : Shape) → Sound s cube → p < s.processes → CubeFor result (update_before (shape_of s) (configuration_of cube) p undone) }
{
    if 4 <= p {
        return cube;
    }
    Cube {
        pointers: with_at(cube.pointers, p, cube.pointers[p].saturating_sub(1)),
        ..cube
    }
}

// p points at a message put in, of this label.
pub fn before_update_pointed(shape: Shape, cube: Cube, p: usize, r: u8, u: u8) -> Cube
    ensures { Sound shape cube → p < shape.processes → CubeFor result (update_before (shape_of shape) (configuration_of cube) p (pointed r u)) }
{
    if 4 <= p {
        return cube;
    }
    let z = cube.pointers[p];
    let mut moved = raised(cube.pointers, z);
    moved[p] = z;
    inserted(cube, z, any_message(shape, r, u), moved)
}

// No process but p points where p does.
fn points_alone(shape: Shape, pointers: [u8; 4], p: usize) -> bool
    ensures { result ≡ true → (q : ℕ) → q < min shape.processes 4 → (q ≡ p → ⊥) → get_or pointers q 0 ≡ get_or pointers p 0 → ⊥ }
{
    let z = at_or(pointers, p, 0);
    all_below(shape.processes.min(4), |q| q == p || pointers[q] != z)
}

// All values of the message are free.
fn is_free(shape: Shape, message: Message) -> bool
    ensures { result ≡ true → message ≡ any_message (shape_of shape) message.process message.variable }
{
    let free = any_message(shape, message.process, message.variable);
    let a = message.snapshot;
    let b = free.snapshot;
    word(a[0], a[1], a[2], a[3]) == word(b[0], b[1], b[2], b[3])
}

// The label, by number, that p's pointer repeats: with a message of it put in for p to point at, the cube is above the entry itself. 16 if there is none.
pub fn repeated_label(shape: Shape, cube: Cube, writes: [u8; 16], p: usize) -> usize
    ensures { result < 16 → Sound shape cube → LastWrites writes (configuration_of cube).memory → p < shape.processes → Repeats (shape_of shape) (configuration_of cube).memory p (result / 4) (result % 4) }
{
    let z = at_or(cube.pointers, p, 0);
    if z == 0 || 20 < z {
        return 16;
    }
    let message = cube.messages[usize::from(z) - 1];
    let Some(i) = write_place(message) else {
        return 16;
    };
    if writes[i] <= z {
        return 16;
    }
    if !is_free(shape, message) || !points_alone(shape, cube.pointers, p) {
        return 16;
    }
    i
}
