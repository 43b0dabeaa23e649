// The newest message of a cube, and the one before it.
ghost use Rattle.std.specs.Prelude.{◌≡◌, ◌||◌, not, ◌∷◌, ◌-◌, ◌≤◌, ◌<◌, eqb};
ghost use Rattle.machine_pws.specs.Machine.{all_below, at_newest};
ghost use Rattle.list_theory.specs.Values.{meet, meet_all};
ghost use Rattle.list_theory.specs.Cubes.{with_values, topmost, older, alike_newest, meet_newest};
ghost use Rattle.list_theory.specs.Predecessors.{before};
ghost use Rattle.file_records.specs.declared.program.Shape.{Shape};
ghost use Rattle.file_contents.specs.Cube.{channel_of, configuration_of};
ghost use Rattle.list_cube.specs.Editing.{Sound, newest_values};

use base::arrays::{at_or, with_at};
use base::below::all_below;
use file_contents::entry::Cube;
use file_records::program::Shape;
use list_key::values_related;
use machine_pws::Message;

pub fn newest(cube: Cube) -> Message
    ensures { (s : Shape) → Sound s cube → result ≡ topmost (configuration_of cube).memory.channel }
{
    let n = cube.count;
    if n == 0 || 20 < n {
        return cube.messages[0];
    }
    cube.messages[n - 1]
}

// The newest values with x in v: what the message before had.
pub fn newest_with(cube: Cube, v: usize, x: u8) -> [u8; 4]
    ensures { (s : Shape) → Sound s cube → result ≡ before (configuration_of cube).memory v x }
{
    with_at(newest(cube).snapshot, v, x)
}

// There is a message before the newest, and its values are ~ these.
pub(crate) fn alike_older(cube: Cube, values: [u8; 4]) -> bool
    ensures { cube.count ≤ 20 → result ≡ alike_newest (older (configuration_of cube).memory.channel) values }
{
    let n = cube.count;
    if n < 2 || 20 < n {
        return false;
    }
    values_related(false, cube.messages[n - 2].snapshot, values)
}

// Its values are ~ the newest ones with x in v.
pub fn alike_before(cube: Cube, v: usize, x: u8) -> bool
    ensures { (s : Shape) → Sound s cube → result ≡ alike_newest (older (configuration_of cube).memory.channel) (before (configuration_of cube).memory v x) }
{
    alike_older(cube, newest_with(cube, v, x))
}

fn met(a: u8, b: u8) -> u8
    ensures { result ≡ meet a b }
{
    if a == 255 { b } else { a }
}

fn met_with(message: Message, values: [u8; 4]) -> Message
    ensures { result ≡ with_values message (meet_all message.snapshot values) }
{
    let [a, b, c, d] = message.snapshot;
    Message {
        snapshot: [
            met(a, values[0]),
            met(b, values[1]),
            met(c, values[2]),
            met(d, values[3]),
        ],
        ..message
    }
}

// The messages of which the one before the newest is met with these values.
pub fn met_older(cube: Cube, values: [u8; 4]) -> [Message; 20]
    ensures { 2 ≤ cube.count → cube.count ≤ 20 → channel_of result (cube.count - 1) ≡ meet_newest (older (configuration_of cube).memory.channel) values }
{
    let mut next = cube.messages;
    let n = cube.count;
    if 2 <= n && n <= 20 {
        next[n - 2] = met_with(next[n - 2], values);
    }
    next
}

// The messages with this one for the newest.
pub fn with_newest(cube: Cube, message: Message) -> [Message; 20]
    ensures { 1 ≤ cube.count → cube.count ≤ 20 → channel_of result cube.count ≡ message ∷ older (configuration_of cube).memory.channel }
{
    let mut next = cube.messages;
    let n = cube.count;
    if 1 <= n && n <= 20 {
        next[n - 1] = message;
    }
    next
}

// ---- who points at it

pub fn at_newest(cube: Cube, p: usize) -> bool
    ensures { result ≡ at_newest (configuration_of cube).memory p }
{
    usize::from(at_or(cube.pointers, p, 0)) == cube.count
}

// No other process than p.
pub fn no_other(shape: Shape, cube: Cube, p: usize) -> bool
    ensures { result ≡ all_below shape.processes (λ q. eqb q p || not (at_newest (configuration_of cube).memory q)) }
{
    all_below(shape.processes, |q| q == p || !at_newest(cube, q))
}

// No process.
pub fn none_at_newest(shape: Shape, cube: Cube) -> bool
    ensures { result ≡ all_below shape.processes (λ q. not (at_newest (configuration_of cube).memory q)) }
{
    all_below(shape.processes, |q| !at_newest(cube, q))
}

// The values of the newest message; 0 where there is none.
pub fn newest_values(cube: Cube) -> [u8; 4]
    ensures { result ≡ newest_values cube }
{
    let n = cube.count;
    if n == 0 || 20 < n {
        return [0; 4];
    }
    cube.messages[n - 1].snapshot
}
