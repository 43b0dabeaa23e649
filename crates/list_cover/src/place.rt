// Places of a cube where a value may be free, and its parts there.
ghost use Rattle.std.specs.Prelude.{◌≡◌, true, None};
ghost use Rattle.list_cover.specs.Places.{with_waiting, with_sent, part_of, value_free, waits_free, sent_free, is_free, proper, fillings, place_at, NoneFree};

use file_contents::entry::{Cube, Queue};
use file_records::program::{Shape, value_count};
use list_key::waiting;

// A waiting value, or a value of a message, by number.
#[derive(Clone, Copy)]
pub(crate) enum Place {
    Waiting {
        process: usize,
        variable: usize,
        number: usize,
    },
    Sent {
        message: usize,
        variable: usize,
    },
}

// With x there.
fn with_waiting(mut cube: Cube, process: usize, variable: usize, number: usize, x: u8) -> Cube
    ensures { result ≡ with_waiting cube process variable number x }
{
    if process < 4 && (variable < 4 && number < 9) {
        cube.queues[4 * process + variable].values[number] = x;
    }
    cube
}

fn with_sent(mut cube: Cube, message: usize, variable: usize, x: u8) -> Cube
    ensures { result ≡ with_sent cube message variable x }
{
    if message < 20 && variable < 4 {
        cube.messages[message].snapshot[variable] = x;
    }
    cube
}

// The part of the cube that has x at a place. Not inlined: its copies of the cube would stand in each frame of the search.
#[inline(never)]
pub(crate) fn part_of(cube: Cube, place: Place, x: u8) -> Cube
    ensures { result ≡ part_of cube place x }
{
    match place {
        Place::Waiting {
            process,
            variable,
            number,
        } => with_waiting(cube, process, variable, number, x),
        Place::Sent { message, variable } => with_sent(cube, message, variable, x),
    }
}

// There is such a value, and it is free.
fn value_free(queue: Queue, number: usize) -> bool
    ensures { result ≡ value_free queue number }
{
    number < waiting(queue) && queue.values[number] == 255
}

fn waits_free(shape: Shape, cube: Cube, process: usize, variable: usize, number: usize) -> bool
    ensures { result ≡ waits_free shape cube process variable number }
{
    process < shape.processes.min(4)
        && variable < shape.variables.min(4)
        && value_free(cube.queues[4 * process + variable], number)
}

fn sent_free(shape: Shape, cube: Cube, message: usize, variable: usize) -> bool
    ensures { result ≡ sent_free shape cube message variable }
{
    message < cube.count.min(20)
        && variable < shape.variables.min(4)
        && cube.messages[message].snapshot[variable] == 255
}

pub(crate) fn is_free(shape: Shape, cube: Cube, place: Place) -> bool
    ensures { result ≡ is_free shape cube place }
{
    match place {
        Place::Waiting {
            process,
            variable,
            number,
        } => waits_free(shape, cube, process, variable, number),
        Place::Sent { message, variable } => sent_free(shape, cube, message, variable),
    }
}

// How many parts there are.
pub(crate) fn fillings(shape: Shape, place: Place) -> usize
    ensures { result ≡ fillings shape place }
{
    match place {
        Place::Waiting { variable, .. } | Place::Sent { variable, .. } => {
            usize::from(value_count(shape, variable)).min(4)
        }
    }
}

// All places that a cube can have, by number.
fn place_at(k: usize) -> Place
    ensures { result ≡ place_at k }
{
    if k < 144 {
        return Place::Waiting {
            process: k / 36,
            variable: k / 9 % 4,
            number: k % 9,
        };
    }
    Place::Sent {
        message: (k - 144) / 4,
        variable: (k - 144) % 4,
    }
}

// A place that is free.
pub(crate) fn first_free(shape: Shape, cube: Cube) -> Option<Place>
    ensures free { proper shape cube result ≡ true }
    ensures none { result ≡ None → NoneFree shape cube }
{
    for k in 0..224 {
        let place = place_at(k);
        if is_free(shape, cube, place) {
            return Some(place);
        }
    }
    None
}
