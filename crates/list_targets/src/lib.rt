// Targets and starts of a list (theory, sections 3 and 4): the shapes of a target here, starts in their own file.
#![tactic(auto)]

ghost use Rattle.std.specs.Prelude.{◌≡◌, ◌+◌, ◌-◌, ◌*◌, ◌≤◌, ◌<◌, true, get_or, take, cond, not, eqb, ltb};
ghost use Rattle.machine_pws.specs.Program.{Program};
ghost use Rattle.machine_pws.specs.Machine.{all_below, labelled};
ghost use Rattle.file_records.specs.ProgramPart.{shape_of};
ghost use Rattle.file_contents.specs.Cube.{channel_of, configuration_of};
ghost use Rattle.list_theory.specs.Lists.{any_of, every};
ghost use Rattle.list_theory.specs.Cubes.{any_message};
ghost use Rattle.list_theory.specs.Shapes.{allowed};
ghost use Rattle.list_theory.specs.Decision.{held, target_held};
ghost use Rattle.list_targets.specs.ShapeCube.{ShapeCube, outline_of, with_waiting};
ghost use Rattle.list_theory.specs.Family.{family_cube, family_cubes};
ghost use Rattle.list_cover.specs.Search.{Searchable};
ghost use Rattle.list_targets.specs.Walk.{Searched, Judges, entry_of, listed, queue_cubes, leaf_of, sketch_cubes, next_cubes, aimed_cubes};
ghost use Rattle.list_targets.specs.Depth.{SmallShape, AtQueue, AtMessage, AtPlace};

use crate::seen::{Sight, moved, seen_held};
use base::below::{all_below, any_below};
use file_contents::entry::{Cube, Queue};
use file_records::program::Shape;
use list_cover::search::search;
use list_cube::messages::carries;
use list_cube::newest::newest_values;
use list_key::{any_message, states_match};
use list_summary::Listing;
use machine_pws::Message;

pub mod seen;

// ---- shapes (section 3)

// A shape as far as it is drawn: so many of its messages, newest first, and of each process how far its pointer is
// from the newest, counted from 1; 0 for a process that has no place yet.
#[derive(Clone, Copy)]
struct Sketch {
    messages: [Message; 20],
    count: usize,
    places: [u8; 4],
}

// One of the first n messages has this label.
fn is_seen(messages: [Message; 20], n: usize, p: usize, v: usize) -> bool
    requires { n ≤ 20 }
    ensures { result ≡ any_of (λ m. labelled m p v) (channel_of messages n) }
{
    any_below(n, |i| carries(messages[i], p, v))
}

// A message with this label, older than those of the sketch, has a role where the processes have the new places.
fn is_allowed(shape: Shape, sketch: Sketch, new: [u8; 4], p: usize, v: usize) -> bool
    requires { (shape.processes ≤ 4) × ((sketch.count ≤ 20) × (p < 4)) }
    ensures { result ≡ allowed (shape_of shape) (channel_of sketch.messages sketch.count) (λ q. get_or sketch.places q 0) (λ q. get_or new q 0) p v }
{
    if !states_match(shape.processes, new, sketch.places) {
        return true;
    }
    if is_seen(sketch.messages, sketch.count, p, v) {
        return false;
    }
    sketch.places[p] == 0
}

fn all_placed(n: usize, places: [u8; 4]) -> bool
    requires { n ≤ 4 }
    ensures { result ≡ all_below n (λ q. not (eqb (get_or places q 0) 0)) }
{
    all_below(n, |q| places[q] != 0)
}

// The first n messages, which stand newest first, oldest first.
fn oldest_first(messages: [Message; 20], n: usize) -> [Message; 20]
    requires { n ≤ 20 }
    ensures { channel_of result n ≡ take n messages }
{
    let mut turned = messages;
    turned[..n].reverse();
    turned
}

// The pointer of a process whose place is counted from the newest of n messages.
fn pointer_at(exists: bool, n: usize, place: u8) -> u8
    requires { n ≤ 20 }
    ensures { result ≡ cond exists (n + 1 - place) 0 }
{
    if exists {
        ((n + 1) as u8).saturating_sub(place)
    } else {
        0
    }
}

// The shape of a sketch, with these local states and no waiting value.
fn shape_cube(shape: Shape, states: [u8; 4], sketch: Sketch) -> Cube
    requires { (shape.processes ≤ 4) × (sketch.count ≤ 20) }
    ensures { ShapeCube shape states sketch.messages sketch.count sketch.places result }
{
    let Sketch {
        messages,
        count,
        places,
    } = sketch;
    Cube {
        states,
        pointers: [
            pointer_at(0 < shape.processes, count, places[0]),
            pointer_at(1 < shape.processes, count, places[1]),
            pointer_at(2 < shape.processes, count, places[2]),
            pointer_at(3 < shape.processes, count, places[3]),
        ],
        queues: [Queue {
            values: [0; 9],
            count: 0,
        }; 16],
        messages: oldest_first(messages, count),
        count,
    }
}

// With one free value in the queue of p and v.
fn with_waiting(cube: Cube, p: usize, v: usize) -> Cube
    requires { (p < 4) × (v < 4) }
    ensures { result ≡ with_waiting cube p v }
{
    let mut next = cube;
    next.queues[4 * p + v] = Queue {
        values: [255, 0, 0, 0, 0, 0, 0, 0, 0],
        count: 1,
    };
    next
}

// An entry with the messages and pointers of a shape, whose newest message has the entry's newest values.
fn with_memory(entry: Cube, shape: Cube) -> Cube
    ensures { 1 ≤ entry.count → entry.count ≤ 20 → 1 ≤ shape.count → shape.count ≤ 20 → (configuration_of result ≡ family_cube (configuration_of entry) (configuration_of shape).memory) × ((result.queues ≡ entry.queues) × (result.count ≡ shape.count)) }
{
    let n = shape.count;
    if n == 0 || 20 < n {
        return shape;
    }
    let Cube { states, queues, .. } = entry;
    let Cube { mut messages, .. } = shape;
    messages[n - 1] = Message {
        snapshot: newest_values(entry),
        ..messages[n - 1]
    };
    Cube {
        states,
        queues,
        messages,
        ..shape
    }
}

// ---- the walk ends at the first shape that is not held

// The cube, and the shapes that differ from it in the queues of p from v on, or in those of the processes after p.
fn queues_held(listing: &Listing, cube: Cube, p: usize, v: usize) -> bool
    requires { AtQueue listing.now.shape cube p v }
    ensures { Judges listing.now (queue_cubes listing.now.shape (configuration_of cube) p v) result }
{
    let shape = listing.shape;
    if v < shape.variables {
        // the last queue: both cubes are looked for at once
        if shape.variables <= v + 1 && shape.processes <= p + 1 {
            return search(listing, cube) && search(listing, with_waiting(cube, p, v));
        }
        let full = with_waiting(cube, p, v);
        return queues_held(listing, cube, p, v + 1) && queues_held(listing, full, p, v + 1);
    }
    if p + 1 < shape.processes {
        return queues_held(listing, cube, p + 1, 0);
    }
    search(listing, cube)
}

// What the walk looks for at each shape.
#[derive(Clone, Copy)]
pub(crate) enum Aim {
    // the shape with these local states and any waiting values
    Target { states: [u8; 4] },
    // the cube of an entry's family
    Family { entry: usize },
    // the cubes of an entry in whose memory a process can come to see a value
    Sees { entry: usize, sight: Sight },
}

// What there is to look for at the shape of a sketch.
fn channel_held(listing: &Listing, aim: Aim, sketch: Sketch) -> bool
    requires { SmallShape listing.now.shape × (sketch.count ≤ 20) }
    ensures { Judges listing.now (leaf_of listing.now aim (outline_of sketch.messages sketch.count sketch.places)) result }
{
    match aim {
        Aim::Target { states } => {
            queues_held(listing, shape_cube(listing.shape, states, sketch), 0, 0)
        }
        Aim::Family { entry } => {
            let own = listing.entry(entry);
            let cube = shape_cube(listing.shape, own.states, sketch);
            search(listing, with_memory(own, cube))
        }
        Aim::Sees { entry, sight } => {
            let own = listing.entry(entry);
            let cube = shape_cube(listing.shape, own.states, sketch);
            seen_held(listing, moved(own, cube), sight)
        }
    }
}

// The shapes that begin as the sketch does; no channel has more than `most` messages.
#[cycle(choices_held_outlines_held)]
fn outlines_held(listing: &Listing, aim: Aim, most: usize, sketch: Sketch) -> bool
    requires { AtMessage listing.now.shape most sketch.count }
    ensures { Judges listing.now (sketch_cubes listing.now aim sketch) result }
{
    if all_placed(listing.shape.processes, sketch.places) {
        return channel_held(listing, aim, sketch);
    }
    if most <= sketch.count {
        return true;
    }
    for p in 0..listing.shape.processes {
        for v in 0..listing.shape.variables {
            let places = sketch.places;
            let next = Next {
                process: p,
                variable: v,
                places,
            };
            if !choices_held(listing, aim, most, sketch, next, 0) {
                return false;
            }
        }
    }
    true
}

// The message that comes next in a sketch: its label, and the places of the processes with it.
#[derive(Clone, Copy)]
struct Next {
    process: usize,
    variable: usize,
    places: [u8; 4],
}

// Those whose next message is this one; of the processes from q on, each that has no place may have it there.
#[cycle(choices_held_outlines_held)]
fn choices_held(
    listing: &Listing,
    aim: Aim,
    most: usize,
    sketch: Sketch,
    next: Next,
    q: usize,
) -> bool
    requires { AtPlace listing.now.shape most sketch.count next.process next.variable q }
    ensures { Judges listing.now (next_cubes listing.now aim sketch next q) result }
{
    let Next {
        process,
        variable,
        mut places,
    } = next;
    if listing.shape.processes <= q {
        if !is_allowed(listing.shape, sketch, places, process, variable) {
            return true;
        }
        let message = any_message(listing.shape, process as u8, variable as u8);
        let Sketch {
            mut messages,
            count,
            ..
        } = sketch;
        messages[count] = message;
        let longer = Sketch {
            messages,
            count: count + 1,
            places,
        };
        return outlines_held(listing, aim, most, longer);
    }
    if !choices_held(listing, aim, most, sketch, next, q + 1) {
        return false;
    }
    if sketch.places[q] != 0 {
        return true;
    }
    places[q] = (sketch.count + 1) as u8;
    let placed = Next {
        process,
        variable,
        places,
    };
    choices_held(listing, aim, most, sketch, placed, q + 1)
}

// All shapes.
pub(crate) fn shapes_held(listing: &Listing, aim: Aim) -> bool
    ensures { Judges listing.now (aimed_cubes listing.now aim) result }
{
    let Shape {
        processes,
        variables,
        ..
    } = listing.shape;
    if processes == 0 || 4 < processes || 4 < variables {
        return false;
    }
    let none = Message {
        process: 0,
        variable: 0,
        snapshot: [0; 4],
    };
    let sketch = Sketch {
        messages: [none; 20],
        count: 0,
        places: [0; 4],
    };
    outlines_held(listing, aim, processes + processes * variables, sketch)
}

// All configurations in this target are above the list (T6).
pub fn target_held(listing: &Listing, states: [u8; 4]) -> bool
    ensures { (P : Program) → P.shape ≡ shape_of listing.now.shape → Searched listing.now → result ≡ target_held P (listed listing.now) (λ q. get_or states q 0) }
{
    shapes_held(listing, Aim::Target { states })
}

// All configurations in the family of entry k are above the list.
pub fn family_held(listing: &Listing, k: usize) -> bool
    ensures { k < listing.now.count → Searched listing.now → result ≡ every (held (shape_of listing.now.shape) (listed listing.now)) (family_cubes (shape_of listing.now.shape) (configuration_of (entry_of listing.now k))) }
{
    shapes_held(listing, Aim::Family { entry: k })
}
