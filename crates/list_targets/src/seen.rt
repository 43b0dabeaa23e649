// The cubes of an entry in whose memory a process can come to see a value. Of each shape of memory they are the least
// above it: with the value in a message from the process's LastWrite on, or with one more message that has it.
ghost use Rattle.std.specs.Prelude.{◌≡◌, true, ◌<◌};
ghost use mathlib.Core.List.{Memᴰ};
ghost use Rattle.machine_pws.specs.Machine.{Configuration};
ghost use Rattle.machine_pws.specs.Configurations.{Fits};
ghost use Rattle.machine_pws.specs.Entries.{ValueOrFF};
ghost use Rattle.file_records.specs.ProgramPart.{shape_of};
ghost use Rattle.file_contents.specs.Cube.{configuration_of};
ghost use Rattle.list_theory.specs.Lists.{for_below, every};
ghost use Rattle.list_theory.specs.Decision.{held};
ghost use Rattle.list_theory.specs.Seen.{message_with, seen_cubes};
ghost use Rattle.list_targets.specs.Seeing.{Movable, IsView, moved_to, room_for, valued_at, witnessed_at, labelled_at, seen_at};
ghost use Rattle.list_targets.specs.Walk.{Searched, Judges, entry_of, listed};

use crate::{Aim, shapes_held};
use base::arrays::with_at;
use base::below::all_below;
use file_contents::entry::Cube;
use file_records::program::Shape;
use list_cover::search::search;
use list_cube::messages::{inserted, last_writes, raised, with_value_in};
use list_key::any_message;
use list_summary::Listing;
use machine_pws::Message;

// A process, a variable, and a value that the process may come to see in it.
#[derive(Clone, Copy)]
pub(crate) struct Sight {
    pub process: usize,
    pub variable: usize,
    pub value: u8,
}

// An entry with the messages and pointers of a shape.
pub(crate) fn moved(entry: Cube, shape: Cube) -> Cube
    ensures { result ≡ moved_to entry shape }
{
    let Cube { states, queues, .. } = entry;
    Cube {
        states,
        queues,
        ..shape
    }
}

// There is room for one message more, and a LastWrite of the process and variable.
fn has_room(sight: Sight, count: usize) -> bool
    ensures { result ≡ room_for sight count }
{
    count < 20 && (sight.process < 4 && sight.variable < 4)
}

// A message of the label (p, v) with x in u, all else free.
fn message_with(shape: Shape, p: usize, v: usize, u: usize, x: u8) -> Message
    requires { (p < 4) × (v < 4) }
    ensures { result ≡ message_with (shape_of shape) p v u x }
{
    let message = any_message(shape, p as u8, v as u8);
    Message {
        snapshot: with_at(message.snapshot, u, x),
        ..message
    }
}

// A cube with its LastWrites, in which the value is to come to be seen.
#[derive(Clone, Copy)]
struct View {
    cube: Cube,
    writes: [u8; 16],
    sight: Sight,
}

// The value in message i + 1, if that is not before the LastWrite.
fn value_held(listing: &Listing, view: &View, i: usize) -> bool
    requires { IsView listing.now.shape view.now × (i < view.now.cube.count) }
    ensures { Judges listing.now (valued_at (configuration_of view.now.cube) view.now.sight i) result }
{
    let Sight {
        process,
        variable,
        value,
    } = view.sight;
    let last = usize::from(view.writes[4 * process + variable]);
    let number = i + 1;
    if number < last {
        return true;
    }
    let next = Cube {
        messages: with_value_in(view.cube, number, variable, value),
        ..view.cube
    };
    search(listing, next)
}

// A message of the label (p, v) that has the value put in as number i + 1, past the LastWrite, if that of its own
// label is not before it.
fn witness_held(listing: &Listing, view: &View, i: usize, p: usize, v: usize) -> bool
    requires { IsView listing.now.shape view.now × ((i < view.now.cube.count) × ((p < listing.now.shape.processes) × (v < listing.now.shape.variables))) }
    ensures { Judges listing.now (witnessed_at (shape_of listing.now.shape) (configuration_of view.now.cube) view.now.sight i p v) result }
{
    let Sight {
        process,
        variable,
        value,
    } = view.sight;
    let last = usize::from(view.writes[4 * process + variable]);
    let own = usize::from(view.writes[4 * p + v]);
    let number = i + 1;
    if number <= last || own < number {
        return true;
    }
    let k = number as u8;
    let message = message_with(listing.shape, p, v, variable, value);
    let next = inserted(view.cube, k, message, raised(view.cube.pointers, k));
    search(listing, next)
}

// Of every label of p, and of every label.
fn writes_held(listing: &Listing, view: &View, i: usize, p: usize) -> bool
    requires { IsView listing.now.shape view.now × ((i < view.now.cube.count) × (p < listing.now.shape.processes)) }
    ensures { Judges listing.now (for_below listing.now.shape.variables (witnessed_at (shape_of listing.now.shape) (configuration_of view.now.cube) view.now.sight i p)) result }
{
    all_below(
        listing.shape.variables,
        |v| witness_held(listing, view, i, p, v),
    )
}

fn labels_held(listing: &Listing, view: &View, i: usize) -> bool
    requires { IsView listing.now.shape view.now × (i < view.now.cube.count) }
    ensures { Judges listing.now (labelled_at (shape_of listing.now.shape) (configuration_of view.now.cube) view.now.sight i) result }
{
    all_below(
        listing.shape.processes,
        |p| writes_held(listing, view, i, p),
    )
}

fn values_held(listing: &Listing, view: &View) -> bool
    requires { IsView listing.now.shape view.now }
    ensures { Judges listing.now (for_below view.now.cube.count (valued_at (configuration_of view.now.cube) view.now.sight)) result }
{
    all_below(view.cube.count, |i| value_held(listing, view, i))
}

fn witnesses_held(listing: &Listing, view: &View) -> bool
    requires { IsView listing.now.shape view.now }
    ensures { Judges listing.now (for_below view.now.cube.count (labelled_at (shape_of listing.now.shape) (configuration_of view.now.cube) view.now.sight)) result }
{
    all_below(view.cube.count, |i| labels_held(listing, view, i))
}

// The cubes that differ from this one, all of whose values are free, in the memory: there the process can come to see
// the value.
pub(crate) fn seen_held(listing: &Listing, cube: Cube, sight: Sight) -> bool
    requires { Movable listing.now.shape cube }
    ensures { Judges listing.now (seen_at (shape_of listing.now.shape) sight (configuration_of cube)) result }
{
    if !has_room(sight, cube.count) {
        return true;
    }
    let view = View {
        cube,
        writes: last_writes(cube),
        sight,
    };
    values_held(listing, &view) && witnesses_held(listing, &view)
}

// All configurations with the local states and waiting values of entry k in which p can come to see x in v are above
// the list. It says no where a cube has no room for one message more than a shape may have.
pub fn sees_held(listing: &Listing, k: usize, p: usize, v: usize, x: u8) -> bool
    ensures { k < listing.now.count → Searched listing.now → ((c : Configuration) → Memᴰ c (seen_cubes (shape_of listing.now.shape) p v x (configuration_of (entry_of listing.now k))) → Fits (ValueOrFF (shape_of listing.now.shape)) (shape_of listing.now.shape) c) → result ≡ true → every (held (shape_of listing.now.shape) (listed listing.now)) (seen_cubes (shape_of listing.now.shape) p v x (configuration_of (entry_of listing.now k))) ≡ true }
{
    if 4 <= p || 4 <= v {
        return false;
    }
    if 4 <= listing.shape.processes && 4 <= listing.shape.variables {
        return false;
    }
    let sight = Sight {
        process: p,
        variable: v,
        value: x,
    };
    shapes_held(listing, Aim::Sees { entry: k, sight })
}
