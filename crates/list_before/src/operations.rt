// The cubes before a transition, by its operation.
ghost use Rattle.std.specs.Prelude.{◌≡◌, true, ◌&&◌, ℕ, ◌+◌, ◌*◌, ◌<◌};
ghost use Rattle.machine_pws.specs.declared.Operation.TheVariants.{Nop, Read, Write, Arw};
ghost use Rattle.machine_pws.specs.Machine.{newest_waiting, is_empty, sees};
ghost use Rattle.list_theory.specs.Values.{alike};
ghost use Rattle.list_theory.specs.Cubes.{older, alike_newest};
ghost use Rattle.list_theory.specs.Predecessors.{before, ends_alike, swapped, undone, waited, on_top};
ghost use Rattle.file_records.specs.ProgramPart.{shape_of};
ghost use Rattle.file_records.specs.declared.program.Shape.{Shape};
ghost use Rattle.file_contents.specs.Cube.{configuration_of};
ghost use Rattle.list_cube.specs.Editing.{Sound, CubeFor, LastWrites};
ghost use Rattle.list_before.specs.Before.{take_before, Requeued};

use base::arrays::{at_or, with_at};
use base::bytes::both;
use file_contents::entry::{Cube, Queue};
use file_records::program::Shape;
use list_cube::messages::{carries, value_in, with_value_in};
use list_cube::newest::{at_newest, met_older, newest, newest_with, no_other, with_newest};
use list_cube::queues::{
    ends_alike, is_empty, newest_or, put_queue, queue_at, queue_empty, with_last, without_last,
};
use list_key::related;
use machine_pws::Message;

// ---- which there are

// What p may have read in v.
pub fn may_read(cube: Cube, writes: [u8; 16], p: usize, v: usize, x: u8) -> bool
    ensures { (s : Shape) → Sound s cube → LastWrites writes (configuration_of cube).memory → p < s.processes → v < s.variables → result ≡ alike (sees (configuration_of cube) p v) x }
{
    if 4 <= p || 4 <= v {
        return false;
    }
    let last = usize::from(writes[4 * p + v]);
    let seen = newest_or(queue_at(cube.queues, p, v), value_in(cube, last, v));
    related(false, seen, x)
}

// What p may have written to v.
pub fn may_write(cube: Cube, p: usize, v: usize, x: u8) -> bool
    ensures { result ≡ ends_alike (newest_waiting ((configuration_of cube).queue p v)) x }
{
    ends_alike(queue_at(cube.queues, p, v), x)
}

// The newest message is what an arw of p made.
pub fn may_swap(shape: Shape, cube: Cube, p: usize, v: usize, x: u8) -> bool
    ensures { Sound shape cube → result ≡ (is_empty ((configuration_of cube).queue p v) && swapped (shape_of shape) (configuration_of cube).memory p v x) }
{
    let message = newest(cube);
    let wrote = both(
        carries(message, p, v),
        related(false, at_or(message.snapshot, v, 0), x),
    );
    let alone = both(at_newest(cube, p), no_other(shape, cube, p));
    both(queue_empty(cube, p, v), both(wrote, alone))
}

// ---- the cubes

// Before a nop and a fence: another local state.
pub fn before_nop(cube: Cube, p: usize, from: u8) -> Cube
    ensures { (s : Shape) → Sound s cube → p < s.processes → CubeFor result (take_before (configuration_of cube) p from Nop undone) }
{
    Cube {
        states: with_at(cube.states, p, from),
        ..cube
    }
}

// And another queue of v.
fn with_queue(cube: Cube, p: usize, from: u8, v: usize, queue: Queue) -> Cube
    ensures { p < 4 → v < 4 → Requeued result cube p from v queue }
{
    Cube {
        states: with_at(cube.states, p, from),
        queues: put_queue(cube.queues, p, v, queue),
        ..cube
    }
}

// Before a read of x in v: it stands at the end of the queue, or at LastWrite if nothing waits.
pub fn before_read(cube: Cube, writes: [u8; 16], p: usize, from: u8, v: usize, x: u8) -> Cube
    ensures { (s : Shape) → Sound s cube → LastWrites writes (configuration_of cube).memory → p < s.processes → v < s.variables → CubeFor result (take_before (configuration_of cube) p from (Read v x) undone) }
{
    if 4 <= p || 4 <= v {
        return cube;
    }
    let queue = queue_at(cube.queues, p, v);
    if !is_empty(queue) {
        return with_queue(cube, p, from, v, with_last(queue, x));
    }
    let last = usize::from(writes[4 * p + v]);
    Cube {
        states: with_at(cube.states, p, from),
        messages: with_value_in(cube, last, v, x),
        ..cube
    }
}

// Before a write to v: the value does not wait yet.
pub fn before_write(cube: Cube, p: usize, from: u8, v: usize) -> Cube
    ensures { (s : Shape) (x : ℕ) → Sound s cube → p < s.processes → v < s.variables → CubeFor result (take_before (configuration_of cube) p from (Write v x) undone) }
{
    let queue = queue_at(cube.queues, p, v);
    with_queue(cube, p, from, v, without_last(queue))
}

// Or another value waits in its place.
pub fn before_write_waited(cube: Cube, p: usize, from: u8, v: usize) -> Cube
    ensures { (s : Shape) (x : ℕ) → Sound s cube → p < s.processes → v < s.variables → CubeFor result (take_before (configuration_of cube) p from (Write v x) waited) }
{
    let queue = queue_at(cube.queues, p, v);
    with_queue(cube, p, from, v, with_last(queue, 255))
}

// Before an arw of v: p points at the message before, which had the old value.
pub fn before_arw(cube: Cube, p: usize, from: u8, v: usize, old: u8) -> Cube
    ensures { (s : Shape) (x : ℕ) → Sound s cube → p < s.processes → alike_newest (older (configuration_of cube).memory.channel) (before (configuration_of cube).memory v old) ≡ true → CubeFor result (take_before (configuration_of cube) p from (Arw v old x) undone) }
{
    let n = cube.count;
    if n < 2 || 20 < n {
        return cube;
    }
    Cube {
        states: with_at(cube.states, p, from),
        pointers: with_at(cube.pointers, p, (n - 1) as u8),
        messages: met_older(cube, newest_with(cube, v, old)),
        count: n - 1,
        ..cube
    }
}

// Or at one for u that has it, which stands in the newest one's place.
pub fn before_arw_on_top(cube: Cube, p: usize, from: u8, v: usize, old: u8, u: u8) -> Cube
    ensures { (s : Shape) (x : ℕ) → Sound s cube → p < s.processes → CubeFor result (take_before (configuration_of cube) p from (Arw v old x) (on_top u)) }
{
    if 4 <= p {
        return cube;
    }
    let message = Message {
        process: p as u8,
        variable: u,
        snapshot: newest_with(cube, v, old),
    };
    Cube {
        states: with_at(cube.states, p, from),
        messages: with_newest(cube, message),
        ..cube
    }
}
