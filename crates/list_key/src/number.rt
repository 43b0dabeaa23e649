// The number of a cube: its key is mixed by shifting and xor only, with no sum that could overflow and no product.
ghost use Rattle.std.specs.Prelude.{◌≡◌, ◌<◌, min, length};
ghost use Rattle.list_key.specs.Tags.{tags_of};
ghost use Rattle.list_key.specs.Cue.{Cues};
ghost use Rattle.list_key.specs.Signature.{queue_bits};
ghost use Rattle.list_key.specs.Number.{stir, packed_states, empty_bit, packed_queues, states_mixed, with_signature, widened, number_of};

use crate::cues::cue_of;
use crate::signature::{wait_bits, with_message};
use crate::tags::lowest;
use crate::values::waiting;
use file_contents::entry::{Cube, Queue};
use file_records::program::Shape;

fn stir(h: u64) -> u64
    ensures { result ≡ stir h }
{
    let a = h ^ h << 23;
    let b = a ^ a >> 29;
    let c = b ^ b << 11;
    let d = c ^ c >> 32;
    d ^ d << 32
}

#[tactic(auto, using(crate::proofs::PackLaws::states_next))]
fn packed_states(processes: usize, states: [u8; 4]) -> u64
    ensures { result ≡ packed_states (min processes 4) states }
{
    let mut h = 0;
    for p in 0..processes.min(4) {
        h = h << 8 ^ u64::from(states[p]);
    }
    h
}

fn empty_bit(queue: Queue) -> u64
    ensures { result ≡ empty_bit queue }
{
    u64::from(waiting(queue) == 0)
}

// h, with a bit behind it for each queue: is it empty? And the bits of queues in a signature.
#[derive(Clone, Copy)]
struct Queued {
    packed: u64,
    bits: usize,
}

fn queues_taken(shape: Shape, queues: [Queue; 16], h: u64) -> Queued
    ensures packed_value { result.packed ≡ packed_queues (min shape.variables 4) queues (min shape.processes 4) h }
    ensures bits_value { result.bits ≡ queue_bits (min shape.variables 4) queues (min shape.processes 4) }
{
    let n = shape.processes.min(4);
    let m = shape.variables.min(4);
    let mut packed = h;
    let mut bits = 0;
    for p in 0..n {
        for v in 0..m {
            let queue = queues[4 * p + v];
            packed = packed << 1 ^ empty_bit(queue);
            bits |= wait_bits(queue);
        }
    }
    Queued { packed, bits }
}

// The number of the local states.
pub fn states_number(shape: Shape, states: [u8; 4]) -> u64
    ensures { result ≡ states_mixed shape states }
{
    stir(packed_states(shape.processes, states))
}

// A number with a signature in its lower bits, above the lowest two.
fn with_signature(h: u64, signature: usize) -> u64
    requires { signature < 262144 }
    ensures { result ≡ with_signature h signature }
{
    h - h % 1048576 + (signature << 2) as u64 + h % 4
}

// The number of a cube: of its key in the upper bits and the lowest two, that is of states, which queues are empty, and the tags with a role, newest
// first; and its signature between them. The cues of its messages are left in an array that the caller lends: all are walked once.
pub fn number_of(shape: Shape, cube: Cube, tags: &[u64; 20], cues: &mut [usize; 20]) -> u64
    ensures value { tags.now ≡ tags_of shape cube → result ≡ number_of shape cube }
    ensures cues { length cues.old ≡ 20 → Cues cube tags.now cues.new }
{
    let packed = packed_states(shape.processes, cube.states);
    let waiting = queues_taken(shape, cube.queues, packed);
    let low = usize::from(lowest(shape, cube.pointers));
    let mut h = waiting.packed;
    let mut bits = waiting.bits;
    let mut i = cube.count.min(20);
    let mut r = 0;
    while 0 < i {
        i -= 1;
        let tag = tags[i];
        let role = 65536 <= tag;
        let message = cube.messages[i];
        cues[i] = cue_of(message, tag);
        bits = with_message(shape.variables, low, i, r, role, message, bits);
        if role {
            h = stir(h) ^ tag;
            r += 1;
        }
    }
    with_signature(stir(h), bits)
}

// The number with every bit of a signature: any entry with the cube's key is looked for.
pub fn widened(number: u64) -> u64
    ensures { result ≡ widened number }
{
    with_signature(number, 262143)
}
