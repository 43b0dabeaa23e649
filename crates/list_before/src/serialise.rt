// The cubes before a serialise of p and v, the label of the newest message.
ghost use Rattle.std.specs.Prelude.{◌≡◌, true, false, ◌&&◌, not, ◌<◌, length, get_or, ltb};
ghost use Rattle.machine_pws.specs.Machine.{is_empty, all_below, at_newest};
ghost use Rattle.list_theory.specs.Cubes.{topmost};
ghost use Rattle.list_theory.specs.Predecessors.{serialise_kind, undone, inside, on_top};
ghost use Rattle.file_records.specs.ProgramPart.{shape_of};
ghost use Rattle.file_records.specs.declared.program.Shape.{Shape};
ghost use Rattle.file_contents.specs.Cube.{configuration_of};
ghost use Rattle.list_cube.specs.Editing.{Sound, CubeFor};
ghost use Rattle.list_before.specs.Before.{serialise_before, Again};

use base::arrays::at_or;
use file_contents::entry::{Cube, Queue};
use file_records::program::Shape;
use list_cube::messages::{inserted, raised};
use list_cube::newest::{met_older, newest, newest_with, none_at_newest, with_newest};
use list_cube::queues::{put_queue, queue_at, queue_empty, with_first};
use list_key::any_message;
use machine_pws::Message;

// The newest message may be what a serialise made: it is not the only one, and no process points at it.
pub fn may_serialise(shape: Shape, cube: Cube) -> bool
    ensures { result ≡ (ltb 1 (length (configuration_of cube).memory.channel) && all_below shape.processes (λ q. not (at_newest (configuration_of cube).memory q))) }
{
    1 < cube.count && none_at_newest(shape, cube)
}

// The queues in which its value waits again, as the oldest.
fn waiting_again(cube: Cube, p: usize, v: usize) -> [Queue; 16]
    ensures { (s : Shape) → Sound s cube → p < 4 → v < 4 → Again result cube p v }
{
    let value = at_or(newest(cube).snapshot, v, 0);
    let queue = queue_at(cube.queues, p, v);
    put_queue(cube.queues, p, v, with_first(queue, value))
}

// Without the newest message.
pub fn before_serialise(cube: Cube, p: u8, v: u8) -> Cube
    ensures { (s : Shape) → Sound s cube → p < s.processes → v < s.variables → serialise_kind (configuration_of cube).memory p v undone ≡ true → CubeFor result (serialise_before (shape_of s) (configuration_of cube) p v undone) }
{
    let w = usize::from(v);
    Cube {
        queues: waiting_again(cube, usize::from(p), w),
        messages: met_older(cube, newest_with(cube, w, 255)),
        count: cube.count.saturating_sub(1),
        ..cube
    }
}

// And with a message inside, as number k.
pub fn before_serialise_inside(shape: Shape, cube: Cube, p: u8, v: u8, k: u8) -> Cube
    ensures { Sound shape cube → p < shape.processes → v < shape.variables → serialise_kind (configuration_of cube).memory p v (inside k) ≡ true → CubeFor result (serialise_before (shape_of shape) (configuration_of cube) p v (inside k)) }
{
    let next = before_serialise(cube, p, v);
    inserted(next, k, any_message(shape, p, v), raised(cube.pointers, k))
}

// With another newest message, of the same label.
pub fn before_serialise_on_top(cube: Cube, p: u8, v: u8) -> Cube
    ensures { (s : Shape) → Sound s cube → p < s.processes → v < s.variables → CubeFor result (serialise_before (shape_of s) (configuration_of cube) p v (on_top v)) }
{
    let w = usize::from(v);
    let message = Message {
        process: p,
        variable: v,
        snapshot: newest_with(cube, w, 255),
    };
    Cube {
        queues: waiting_again(cube, usize::from(p), w),
        messages: with_newest(cube, message),
        ..cube
    }
}

// The newest message's value of v is free, and values of p and v wait: with it among them again as the oldest, and another newest message of the label, the cube is
// above the entry itself.
pub fn repeats_value(cube: Cube, p: u8, v: u8) -> bool
    ensures { result ≡ true → (s : Shape) → Sound s cube → (get_or (topmost (configuration_of cube).memory.channel).snapshot v 0 ≡ 255) × (is_empty ((configuration_of cube).queue p v) ≡ false) }
{
    let w = usize::from(v);
    at_or(newest(cube).snapshot, w, 0) == 255 && !queue_empty(cube, usize::from(p), w)
}
