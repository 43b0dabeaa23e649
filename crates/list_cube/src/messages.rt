// Messages of a cube: LastWrite, and a message put in.
ghost use Rattle.std.specs.Prelude.{◌≡◌, ℕ, ◌+◌, ◌*◌, ◌-◌, ◌≤◌, ◌<◌, min, get_or, set};
ghost use Rattle.machine_pws.specs.Machine.{message, labelled, last_labelled, last_write};
ghost use Rattle.machine_pws.specs.Insertion.{put_message, up};
ghost use Rattle.list_theory.specs.Cubes.{memory_of, value_put};
ghost use Rattle.list_theory.specs.Predecessors.{without_newest};
ghost use Rattle.file_records.specs.declared.program.Shape.{Shape};
ghost use Rattle.file_contents.specs.Cube.{channel_of, configuration_of};
ghost use Rattle.list_cube.specs.Editing.{Sound, LastWrites, WritePlace, by_number, Inserted};

use base::arrays::{at_or, with_at};
use file_contents::entry::Cube;
use file_records::program::Shape;
use machine_pws::Message;

// ---- LastWrite

// Where the LastWrite of a message's label stands, if there is such a label.
pub fn write_place(message: Message) -> Option<usize>
    ensures { WritePlace message result }
{
    let p = usize::from(message.process);
    let v = usize::from(message.variable);
    if p < 4 && v < 4 {
        Some(4 * p + v)
    } else {
        None
    }
}

// LastWrite of every process and variable, in one pass over the messages.
pub fn last_writes(cube: Cube) -> [u8; 16]
    ensures { LastWrites result (memory_of (channel_of cube.messages (min cube.count 20)) (by_number cube.pointers)) }
{
    let [a, b, c, d] = cube.pointers;
    let mut writes = [a, a, a, a, b, b, b, b, c, c, c, c, d, d, d, d];
    for i in 0..cube.count.min(20) {
        // a message is the LastWrite of its label, unless the pointer is past it
        if let Some(q) = write_place(cube.messages[i]) {
            writes[q] = writes[q].max((i + 1) as u8);
        }
    }
    writes
}

pub fn carries(message: Message, p: usize, v: usize) -> bool
    ensures { result ≡ labelled message p v }
{
    usize::from(message.process) == p && usize::from(message.variable) == v
}

fn last_labelled(messages: [Message; 20], count: usize, p: usize, v: usize) -> usize
    ensures { result ≡ last_labelled (channel_of messages (min count 20)) p v }
{
    let mut last = 0;
    for i in 0..count.min(20) {
        if carries(messages[i], p, v) {
            last = i + 1;
        }
    }
    last
}

// LastWrite of p and v without the newest message.
pub fn older_write(cube: Cube, p: usize, v: usize) -> usize
    ensures { (s : Shape) → Sound s cube → result ≡ last_write (without_newest (configuration_of cube).memory) p v }
{
    let pointer = usize::from(at_or(cube.pointers, p, 0));
    pointer.max(last_labelled(cube.messages, cube.count.saturating_sub(1), p, v))
}

// ---- a message put in

// One message more: at this place, those from it on one place further.
fn put_in(messages: [Message; 20], count: usize, at: usize, message: Message) -> [Message; 20]
    ensures { count < 20 → at ≤ count → channel_of result (count + 1) ≡ put_message (channel_of messages count) (at + 1) message }
{
    if 20 <= count || count < at {
        return messages;
    }
    let mut next = messages;
    for i in at..count {
        next[i + 1] = messages[i];
    }
    next[at] = message;
    next
}

// The number of a message after one was put in as number k.
fn raise(k: u8, i: u8) -> u8
    ensures { i < 255 → result ≡ up k i }
{
    if i < k { i } else { i.saturating_add(1) }
}

// The pointers after that.
pub fn raised(pointers: [u8; 4], k: u8) -> [u8; 4]
    ensures { ((q : ℕ) → q < 4 → get_or pointers q 0 < 255) → 1 ≤ k → by_number result ≡ (λ q. up k (get_or pointers q 0)) }
{
    // `map` says nothing of k in the calls after the first, so its proof does not close
    let [a, b, c, d] = pointers;
    [raise(k, a), raise(k, b), raise(k, c), raise(k, d)]
}

// With a message put in as number k, and these pointers.
pub fn inserted(cube: Cube, k: u8, message: Message, pointers: [u8; 4]) -> Cube
    ensures { 1 ≤ k → k ≤ cube.count + 1 → cube.count < 20 → Inserted result cube k message pointers }
{
    let n = cube.count;
    if k == 0 || 20 <= n {
        return cube;
    }
    Cube {
        messages: put_in(cube.messages, n, usize::from(k) - 1, message),
        pointers,
        count: n + 1,
        ..cube
    }
}

// ---- a message with another value

// The value of v in the message of number i.
pub fn value_in(cube: Cube, i: usize, v: usize) -> u8
    ensures { cube.count ≤ 20 → 1 ≤ i → i ≤ cube.count → result ≡ get_or (message (configuration_of cube).memory.channel i).snapshot v 0 }
{
    if i == 0 || 20 < i {
        return 0;
    }
    at_or(cube.messages[i - 1].snapshot, v, 0)
}

// The messages with x as the value of v in that of number i.
pub fn with_value_in(cube: Cube, i: usize, v: usize, x: u8) -> [Message; 20]
    ensures { cube.count ≤ 20 → 1 ≤ i → i ≤ cube.count → channel_of result cube.count ≡ value_put (configuration_of cube).memory.channel i v x }
{
    let mut next = cube.messages;
    if i == 0 || 20 < i {
        return next;
    }
    let message = next[i - 1];
    let snapshot = with_at(message.snapshot, v, x);
    next[i - 1] = Message {
        snapshot,
        ..message
    };
    next
}
