// The predecessor cubes of an entry for an update.
ghost use Rattle.std.specs.Prelude.{◌≡◌, true, cond, ◌&&◌, get_or, leb, ltb, ◌/◌, ◌%◌, ◌≤◌, ◌<◌};
ghost use Rattle.machine_pws.specs.declared.Step.TheVariants.{Update};
ghost use Rattle.list_theory.specs.Predecessors as lists;
ghost use Rattle.list_theory.specs.Decision.{held};
ghost use Rattle.file_records.specs.ProgramPart.{shape_of};
ghost use Rattle.file_contents.specs.Cube.{configuration_of};
ghost use Rattle.list_before.specs.Before.{update_before};
ghost use Rattle.list_closing.specs.Closing.{entries_in};
ghost use Rattle.list_closing.specs.Walk.{Searching, StepHeld};

use crate::closing::Closing;
use crate::entered::Entered;
use base::arrays::at_or;
use base::below::all_below;
use file_records::program::Shape;
use list_before::update::{before_update, before_update_pointed, repeated_label};

// With nothing beside: if there is such a cube, it is held.
fn unpointed_held(closing: &Closing, entry: &Entered, p: usize) -> bool
    ensures { Searching closing.now entry.now.cube → p < closing.now.program.shape.processes → result ≡ cond (lists.update_kind (shape_of closing.now.program.shape) (configuration_of entry.now.cube).memory p lists.undone) (held (shape_of closing.now.program.shape) (entries_in closing.now) (update_before (shape_of closing.now.program.shape) (configuration_of entry.now.cube) p lists.undone)) true }
{
    if at_or(entry.cube.pointers, p, 0) < 2 {
        return true;
    }
    closing.search(before_update(entry.cube, p))
}

// The LastWrite of the label i / 4 and i % 4 is at this pointer or past it: a message of that label may have been pointed at.
fn may_point(shape: Shape, writes: [u8; 16], pointer: u8, i: usize) -> bool
    ensures { result ≡ ((ltb (i / 4) shape.processes && ltb (i % 4) shape.variables) && leb pointer (get_or writes i 0)) }
{
    i / 4 < shape.processes && i % 4 < shape.variables && pointer <= at_or(writes, i, 0)
}

// With that message.
fn pointed_held(closing: &Closing, entry: &Entered, p: usize, i: usize) -> bool
    requires { i < 16 }
    ensures { Searching closing.now entry.now.cube → p < closing.now.program.shape.processes → lists.update_kind (shape_of closing.now.program.shape) (configuration_of entry.now.cube).memory p (lists.pointed (i / 4) (i % 4)) ≡ true → result ≡ held (shape_of closing.now.program.shape) (entries_in closing.now) (update_before (shape_of closing.now.program.shape) (configuration_of entry.now.cube) p (lists.pointed (i / 4) (i % 4))) }
{
    let r = i / 4;
    let u = i % 4;
    closing.search(before_update_pointed(closing.program.shape, entry.cube, p, r as u8, u as u8))
}

// If there is such a cube, it is held.
fn label_held(closing: &Closing, entry: &Entered, p: usize, i: usize) -> bool
    requires { i < 16 }
    ensures { Searching closing.now entry.now.cube → p < closing.now.program.shape.processes → result ≡ cond (lists.update_kind (shape_of closing.now.program.shape) (configuration_of entry.now.cube).memory p (lists.pointed (i / 4) (i % 4))) (held (shape_of closing.now.program.shape) (entries_in closing.now) (update_before (shape_of closing.now.program.shape) (configuration_of entry.now.cube) p (lists.pointed (i / 4) (i % 4)))) true }
{
    let pointer = at_or(entry.cube.pointers, p, 0);
    !may_point(closing.program.shape, entry.writes, pointer, i)
        || pointed_held(closing, entry, p, i)
}

// Are all predecessor cubes for an update of p held?
pub(crate) fn updated_held(closing: &Closing, entry: &Entered, p: usize) -> bool
    ensures { Searching closing.now entry.now.cube → p < closing.now.program.shape.processes → StepHeld closing.now entry.now.cube (Update p) result }
{
    if !unpointed_held(closing, entry, p) {
        return false;
    }
    // with one message more of the label that p's pointer repeats, the entry itself is below
    let own = repeated_label(closing.program.shape, entry.cube, entry.writes, p);
    all_below(16, |i| i == own || label_held(closing, entry, p, i))
}
