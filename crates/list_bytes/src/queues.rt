// The 12s of an entry against the queues of a cube.
ghost use Rattle.std.specs.Prelude.{◌≡◌, true, ◌&&◌, not, ℕ, ◌+◌, ◌*◌, ◌-◌, ◌≤◌, ◌<◌, min, length, List, IfSome};
ghost use Rattle.file_records.specs.Records.{is_kind};
ghost use Rattle.file_contents.specs.Cube.{load_entry};
ghost use Rattle.list_key.specs.Match.{queue_row};
ghost use Rattle.machine_pws.specs.Machine.{all_below};
ghost use Rattle.list_bytes.specs.Same.{Kinds, WaitsAt, HeldFrom, Took, FirstWait};
ghost use Rattle.file_contents.specs.declared.entry.Queue.{Queue as Queues};

use base::arrays::at_or;
use base::bytes::cut;
use file_contents::entry::Queue;
use file_records::program::Shape;
use file_records::record::is_kind;
use list_key::{queue_matches, related, waiting, word};

// The 12 at a place is of the queue q.
#[tactic(auto, using(crate::proofs::SameLaws::not_cut))]
fn waits_at(file: &[u8], k: usize, q: usize) -> bool
    requires { q < 16 }
    ensures { result ≡ true → WaitsAt file.now k q }
{
    if cut(file, k, 3) {
        return false;
    }
    word(file[k], file[k + 1], file[k + 2], 0) == 18 + 256 * (q / 4) + 65536 * (q % 4)
}

// The values of the 12s of one queue that stand one after another, and where these end.
#[derive(Clone, Copy)]
struct Held {
    queue: Queue,
    next: usize,
}

fn held_from(file: &[u8], k: usize, q: usize) -> Held
    requires { q < 16 }
    ensures { HeldFrom file.now q k result.queue result.next }
{
    let mut values = [0u8; 9];
    let mut count = 0;
    let mut next = k;
    while count < 9 && waits_at(file, next, q) {
        values[count] = file[next + 3];
        count += 1;
        next += 4;
    }
    let queue = Queue {
        values,
        count: count as u8,
    };
    Held { queue, next }
}

// No record of the entry stands there.
fn ends_at(file: &[u8], k: usize) -> bool
    ensures { result ≡ (not (is_kind file.now k 17) && not (is_kind file.now k 18)) }
{
    !is_kind(file, k, 17) && !is_kind(file, k, 18)
}

// 12s: whether they are related to queues, and where they end.
#[derive(Clone, Copy)]
struct Walked {
    related: bool,
    next: usize,
}

// The 12s at a place, if they are of these queues, where a value waits in them, in their order.
fn waits_from(
    exact: bool,
    file: &[u8],
    at: usize,
    shape: Shape,
    queues: [Queue; 16],
) -> Option<Walked>
    ensures { IfSome result (λ w. (qs : List Queues) × Took file.now at qs w.next × (w.related ≡ all_below (min shape.processes 4) (queue_row shape.variables exact qs queues))) }
{
    let processes = shape.processes.min(4);
    let variables = shape.variables.min(4);
    let mut k = at;
    let mut waits = true;
    for p in 0..processes {
        for v in 0..variables {
            let q = 4 * p + v;
            let queue = queues[q];
            let w = waiting(queue);
            if w == 0 {
                continue;
            }
            if !waits_at(file, k, q) {
                return None;
            }
            if waits_at(file, k + 4, q) {
                let held = held_from(file, k, q);
                waits &= queue_matches(exact, held.queue, queue);
                k = held.next;
                continue;
            }
            // one value: it is the newest that counts
            waits &= related(exact, file[k + 3], at_or(queue.values, w - 1, 0));
            k += 4;
        }
    }
    Some(Walked {
        related: waits,
        next: k,
    })
}

// Where the 12s of an entry begin that has m 11s: behind these, or behind its 10 if the 11s do not stand there.
fn first_wait(file: &[u8], at: usize, back: usize, m: usize) -> usize
    requires at_in_bounds { at + 9 ≤ length file.now }
    requires m_in_bounds { back + 7 + 7 * m ≤ length file.now }
    requires m_bound { m ≤ 20 }
    ensures { FirstWait at back m result }
{
    if back == at + 2 {
        return back + 7 + 7 * m;
    }
    at + 9
}

// The entry whose 10 stands at a place has these m 11s, its 12s from where they begin up to a place, and nothing else.
fn closes(file: &[u8], at: usize, back: usize, m: usize, next: usize) -> bool
    requires at_in_bounds { at + 9 ≤ length file.now }
    requires m_in_bounds { back + 7 + 7 * m ≤ length file.now }
    requires m_bound { m ≤ 20 }
    requires kinds { Kinds file.now back m }
    ensures { result ≡ true → (start : ℕ) (qs : List Queues) → FirstWait at back m start → Took file.now start qs next → ((load_entry file.now at).count ≡ m) × ((load_entry file.now at).queues ≡ qs) }
{
    if back == at + 2 {
        return ends_at(file, next);
    }
    next == back + 7 && ends_at(file, back + 7 + 7 * m)
}

// The entry whose 10 stands at a place has these m 11s and, before or behind them, 12s of these queues, where a value waits in them, in their order, and nothing
// else; and then whether they are related.
pub(crate) fn queues_from(
    exact: bool,
    file: &[u8],
    at: usize,
    back: usize,
    m: usize,
    shape: Shape,
    queues: [Queue; 16],
) -> Option<bool>
    requires at_in_bounds { at + 9 ≤ length file.now }
    requires m_in_bounds { back + 7 + 7 * m ≤ length file.now }
    requires m_bound { m ≤ 20 }
    requires kinds { Kinds file.now back m }
    ensures { IfSome result (λ related. ((load_entry file.now at).count ≡ m) × (related ≡ all_below (min shape.processes 4) (queue_row shape.variables exact (load_entry file.now at).queues queues))) }
{
    let walked = waits_from(exact, file, first_wait(file, at, back, m), shape, queues)?;
    if !closes(file, at, back, m, walked.next) {
        return None;
    }
    Some(walked.related)
}
