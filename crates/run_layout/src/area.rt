// The lower part of the work area, 16,384 bytes:
//
//     4 i              the four values of message i, counted from 1: up to 1,025 messages, below 4,104
//     8,192 + 512 q    1,024 half bytes: the values written into queue q = 4 p + v of process p and variable v, in the order of writing.
//                      Value k is the lower half of byte k / 2 if k is even, and its upper half if k is odd.
ghost use Rattle.std.specs.Prelude.{◌≡◌, ◌+◌, ◌*◌, ◌<◌, length, set, replicate};
ghost use Rattle.run_layout.specs.Layout.{queue_number, snapshot_at, put_snapshot, waiting_at, waiting_place, halves, put_waiting, next_number};

use base::bytes::{byte_at, four_at};

// The queue of process p and variable v; 16 where there is none, which is past the end of all arrays of queues: at_or and with_at take it for
// nothing (an Option would only add an arm that says so to each caller).
#[tactic(auto, unfolding(crate::specs::Layout::queue_number))]
pub fn queue_number(p: usize, v: usize) -> u8
    ensures { result ≡ queue_number p v }
{
    if p < 4 && v < 4 {
        (4 * p + v) as u8
    } else {
        16
    }
}

// The snapshot of message i.
#[tactic(auto, unfolding(crate::specs::Layout::snapshot_at))]
pub fn snapshot_at(lower: &[u8], i: u16) -> [u8; 4]
    ensures { result ≡ snapshot_at lower.now i }
{
    four_at(lower, 4 * usize::from(i), 0)
}

#[tactic(auto, unfolding(crate::specs::Layout::put_snapshot))]
pub fn put_snapshot(lower: &mut [u8], i: u16, snapshot: [u8; 4])
    ensures { lower.new ≡ put_snapshot lower.old i snapshot }
{
    let at = 4 * usize::from(i);
    if at + 4 <= lower.len() {
        lower[at..at + 4].copy_from_slice(&snapshot);
    }
}

fn waiting_place(q: u8, k: u16) -> usize
    ensures { result ≡ waiting_place q k }
{
    8192 + 512 * usize::from(q) + usize::from(k) / 2
}

// Value k of queue q.
#[tactic(auto, unfolding(crate::specs::Layout::waiting_at))]
pub fn waiting_at(lower: &[u8], q: u8, k: u16) -> u8
    ensures { result ≡ waiting_at lower.now q k }
{
    let both = byte_at(lower, waiting_place(q, k));
    if k % 2 == 0 { both % 16 } else { both / 16 }
}

// The byte that holds value k, with x there. No value past k is kept.
#[tactic(auto, unfolding(crate::specs::Layout::halves))]
fn halves(both: u8, k: u16, x: u8) -> u8
    ensures { result ≡ halves both k x }
{
    if k % 2 == 0 {
        x % 16
    } else {
        both % 16 + 16 * (x % 16)
    }
}

pub fn put_waiting(lower: &mut [u8], q: u8, k: u16, x: u8)
    ensures { lower.new ≡ put_waiting lower.old q k x }
{
    let at = waiting_place(q, k);
    if at < lower.len() {
        lower[at] = halves(lower[at], k, x);
    }
}

// All of it 0.
pub fn clear(lower: &mut [u8])
    ensures { lower.new ≡ replicate (length lower.old) 0 }
{
    lower.fill(0);
}
