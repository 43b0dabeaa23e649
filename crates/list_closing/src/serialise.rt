// The predecessor cubes of an entry for a serialise. Only the newest message's own label has any.
ghost use Rattle.std.specs.Prelude.{◌≡◌, true, cond, ℕ, ◌≤◌, ◌<◌, ltb};
ghost use Rattle.machine_pws.specs.declared.Step.TheVariants.{Serialise};
ghost use Rattle.machine_pws.specs.Machine.{all_below, labelled, last_write};
ghost use Rattle.list_theory.specs.Cubes.{topmost};
ghost use Rattle.list_theory.specs.Predecessors.{without_newest, serialise_kind, undone, inside, on_top};
ghost use Rattle.list_theory.specs.Decision.{held};
ghost use Rattle.file_records.specs.ProgramPart.{shape_of};
ghost use Rattle.file_contents.specs.Cube.{configuration_of};
ghost use Rattle.list_cube.specs.Editing.{CubeFor};
ghost use Rattle.list_before.specs.Before.{serialise_before};
ghost use Rattle.list_closing.specs.Closing.{program_in, entries_in};
ghost use Rattle.list_closing.specs.Walk.{step_held, Searching, StepHeld, SerialisingIn};

use crate::closing::Closing;
use crate::entered::Entered;
use base::below::all_below;
use file_contents::entry::Cube;
use file_contents::steps::pair_exists;
use list_before::serialise::{
    before_serialise, before_serialise_inside, before_serialise_on_top, may_serialise,
    repeats_value,
};
use list_cube::messages::older_write;
use list_cube::newest::{alike_before, newest};

// With message k inside, which is past LastWrite: if there is such a cube, it is held.
fn inside_held(closing: &Closing, entry: &Entered, p: u8, v: u8, last: usize, k: u8) -> bool
    ensures { Searching closing.now entry.now.cube → SerialisingIn closing.now entry.now.cube p v → serialise_kind (configuration_of entry.now.cube).memory p v undone ≡ true → last ≡ last_write (without_newest (configuration_of entry.now.cube).memory) p v → k < entry.now.cube.count → result ≡ cond (ltb last k) (held (shape_of closing.now.program.shape) (entries_in closing.now) (serialise_before (shape_of closing.now.program.shape) (configuration_of entry.now.cube) p v (inside k))) true }
{
    if usize::from(k) <= last {
        return true;
    }
    closing.found(before_serialise_inside(closing.program.shape, entry.cube, p, v, k))
}

fn insides_held(closing: &Closing, entry: &Entered, p: u8, v: u8) -> bool
    ensures { Searching closing.now entry.now.cube → SerialisingIn closing.now entry.now.cube p v → serialise_kind (configuration_of entry.now.cube).memory p v undone ≡ true → result ≡ all_below entry.now.cube.count (λ k. cond (ltb (last_write (without_newest (configuration_of entry.now.cube).memory) p v) k) (held (shape_of closing.now.program.shape) (entries_in closing.now) (serialise_before (shape_of closing.now.program.shape) (configuration_of entry.now.cube) p v (inside k))) true) }
{
    let last = older_write(entry.cube, usize::from(p), usize::from(v));
    all_below(entry.cube.count.min(20), |k| {
        inside_held(closing, entry, p, v, last, k as u8)
    })
}

// With another newest message: that cube is held.
fn top_held(closing: &Closing, entry: &Entered, p: u8, v: u8, top: Cube) -> bool
    ensures { SerialisingIn closing.now entry.now.cube p v → CubeFor top (serialise_before (shape_of closing.now.program.shape) (configuration_of entry.now.cube) p v (on_top v)) → result ≡ held (shape_of closing.now.program.shape) (entries_in closing.now) (serialise_before (shape_of closing.now.program.shape) (configuration_of entry.now.cube) p v (on_top v)) }
{
    // where the value is repeated the entry itself is below
    repeats_value(entry.cube, p, v) || closing.search(top)
}

// Are all predecessor cubes for a serialise of the newest message's label held?
fn label_held(closing: &Closing, entry: &Entered, p: u8, v: u8) -> bool
    ensures { Searching closing.now entry.now.cube → SerialisingIn closing.now entry.now.cube p v → StepHeld closing.now entry.now.cube (Serialise p v) result }
{
    let top = before_serialise_on_top(entry.cube, p, v);
    // whatever the serialise leads from is in the family of this cube
    if closing.in_full_family(top) {
        return true;
    }
    if !top_held(closing, entry, p, v, top) {
        return false;
    }
    if !alike_before(entry.cube, usize::from(v), 255) {
        return true;
    }
    closing.found(before_serialise(entry.cube, p, v)) && insides_held(closing, entry, p, v)
}

// Are they for any label? The answer is about the newest message's own; the others have no cubes.
pub(crate) fn serialised_held(closing: &Closing, entry: &Entered) -> bool
    ensures { Searching closing.now entry.now.cube → (p v : ℕ) → step_held (program_in closing.now) (entries_in closing.now) (configuration_of entry.now.cube) (Serialise p v) ≡ cond (labelled (topmost (configuration_of entry.now.cube).memory.channel) p v) result true }
{
    if !may_serialise(closing.program.shape, entry.cube) {
        return true;
    }
    let message = newest(entry.cube);
    if !pair_exists(closing.program.shape, message.process, message.variable) {
        return true;
    }
    label_held(closing, entry, message.process, message.variable)
}
