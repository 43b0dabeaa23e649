// An entry, read again from the file: a configuration in which a value may be FF.
ghost use Rattle.std.specs.Prelude.{◌≡◌, ℕ, ◌+◌, ◌*◌, ◌≤◌, ◌<◌, length, get_or};
ghost use Rattle.file_records.specs.Records.{message_at};
ghost use Rattle.file_contents.specs.Cube.{loads_message, loads_waiting, pushed, headed, loaded, load_entry};

use base::bytes::{both, byte_at, cut, field};
use file_records::record::is_kind;
use machine_pws::Message;

// Waiting values, oldest first.
#[derive(Clone, Copy)]
pub struct Queue {
    pub values: [u8; 9],
    pub count: u8,
}

// A configuration whose values may be 255, for any value: four local states and pointers, the queue of process p and variable v at
// 4 p + v, and the messages, oldest first. There is room for one message and one waiting value more than an entry has, and for the
// messages of a shape.
#[derive(Clone, Copy)]
pub struct Cube {
    pub states: [u8; 4],
    pub pointers: [u8; 4],
    pub queues: [Queue; 16],
    pub messages: [Message; 20],
    pub count: usize,
}

pub fn message_at(file: &[u8], at: usize) -> Message
    ensures { result ≡ message_at file.now at }
{
    // one test for the record, and not one for each byte
    if !cut(file, at, 6) {
        let values = [file[at + 3], file[at + 4], file[at + 5], file[at + 6]];
        return Message {
            process: file[at + 1],
            variable: file[at + 2],
            snapshot: values,
        };
    }
    let snapshot = [
        field(file, at, 3),
        field(file, at, 4),
        field(file, at, 5),
        field(file, at, 6),
    ];
    Message {
        process: field(file, at, 1),
        variable: field(file, at, 2),
        snapshot: snapshot,
    }
}

// With one waiting value more; nothing where it is full.
fn pushed(queue: Queue, value: u8) -> Queue
    ensures { result ≡ pushed queue value }
{
    let n = queue.count;
    if 9 <= n {
        return queue;
    }
    let at = usize::from(n);
    let mut next = queue;
    next.values[at] = value;
    next.count = n + 1;
    next
}

// The 11 at a place is one more message of this entry.
fn loads_message(file: &[u8], at: usize, count: usize) -> bool
    ensures { result ≡ loads_message file.now at count }
{
    both(is_kind(file, at, 17), count < 20)
}

// The 12 at a place is one more waiting value of it.
fn loads_waiting(file: &[u8], at: usize) -> bool
    ensures { result ≡ loads_waiting file.now at }
{
    both(
        is_kind(file, at, 18),
        both(field(file, at, 1) < 4, field(file, at, 2) < 4),
    )
}

// The queues and messages of an entry, so far: the proofs speak of them.
#[derive(Clone, Copy)]
pub struct Loaded {
    pub queues: [Queue; 16],
    pub messages: [Message; 20],
    pub count: usize,
}

// The entry with these states and pointers, and with the records that follow the 10 at a place.
fn load_records(file: &[u8], at: usize, states: [u8; 4], pointers: [u8; 4]) -> Cube
    ensures { result ≡ headed states pointers (loaded file.now at) }
{
    let none = [0u8; 9];
    let snapshot = [0u8; 4];
    let mut queues = [Queue {
        values: none,
        count: 0,
    }; 16];
    let mut messages = [Message {
        process: 0,
        variable: 0,
        snapshot: snapshot,
    }; 20];
    let mut count = 0;
    if file.len() <= at {
        return Cube {
            states: states,
            pointers: pointers,
            queues: queues,
            messages: messages,
            count: count,
        };
    }
    let mut k = at + 9;
    loop {
        if loads_message(file, k, count) {
            messages[count] = message_at(file, k);
            count += 1;
            k += 7;
        } else if loads_waiting(file, k) {
            let q = 4 * usize::from(field(file, k, 1)) + usize::from(field(file, k, 2));
            let queue = queues[q];
            queues[q] = pushed(queue, field(file, k, 3));
            k += 4;
        } else {
            break;
        }
    }
    Cube {
        states: states,
        pointers: pointers,
        queues: queues,
        messages: messages,
        count: count,
    }
}

// The entry whose 10 stands at a place.
pub fn load_entry(file: &[u8], at: usize) -> Cube
    ensures { result ≡ load_entry file.now at }
{
    // one test for the record, and not one for each byte
    if !cut(file, at, 8) {
        let first = [file[at + 1], file[at + 2], file[at + 3], file[at + 4]];
        let last = [file[at + 5], file[at + 6], file[at + 7], file[at + 8]];
        return load_records(file, at, first, last);
    }
    let states = [
        field(file, at, 1),
        field(file, at, 2),
        field(file, at, 3),
        field(file, at, 4),
    ];
    let pointers = [
        field(file, at, 5),
        field(file, at, 6),
        field(file, at, 7),
        field(file, at, 8),
    ];
    load_records(file, at, states, pointers)
}
