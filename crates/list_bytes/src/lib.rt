// An entry against a cube by the bytes of its records (theory, section 6): nothing is built for it. Most entries that a walk leads to are told so; the others,
// whose records stand in an order of their own or whose messages could stand for others too, are left to the crate `cover`.
#![tactic(auto)]

ghost use Rattle.std.specs.Prelude.{◌≡◌, true, ◌&&◌, min, IfSome};
ghost use Rattle.list_bytes.specs.Same.{Within};
ghost use Rattle.file_contents.specs.Cube.{load_entry};
ghost use Rattle.list_key.specs.Match.{channel_matches, queue_row};
ghost use Rattle.machine_pws.specs.Machine.{all_below};
ghost use Rattle.list_bytes.specs.Against.{Against};

use crate::messages::{before_messages, channel_at, messages_at};
use crate::queues::queues_from;
use base::bytes::cut;
use file_contents::entry::{Cube, Queue};
use file_records::program::Shape;
use list_key::{states_match, values_related};

mod messages;
mod queues;

// The entry whose 10 stands at a place, but for its local states: its 11s, newest first, stand for messages of the cube as soon as they can; and its 12s, before or behind
// them, are of the queues of the cube in which a value waits, in their order. Whether it matches, if it is told by these.
#[tactic(auto, using(crate::proofs::SameLaws::not_cut))]
pub fn compare_at(
    exact: bool,
    file: &[u8],
    at: usize,
    shape: Shape,
    cube: Cube,
    cues: &[usize; 20],
) -> Option<bool>
    ensures { IfSome result (λ related. Against shape cube cues.now → related ≡ (all_below (min shape.processes 4) (queue_row shape.variables exact (load_entry file.now at).queues cube.queues) && channel_matches shape exact (load_entry file.now at) cube)) }
{
    if cut(file, at, 8) {
        return None;
    }
    let back = before_messages(file, at);
    // one more than the cube has is enough to tell
    let n = cube.count.min(19) + 1;
    if cut(file, back, 13 + 7 * n) {
        return None;
    }
    let m = messages_at(file, back, n);
    if !channel_at(exact, file, at, back, m, shape, cube, cues)? {
        return Some(false);
    }
    queues_from(exact, file, at, back, m, shape, cube.queues)
}

// The entry whose 10 stands at a place has these local states, waiting values below those of these queues, and newest values for which these may stand. It is
// told if it stands far enough from the end of the file and its 12s are of the queues in which a value waits, in their order.
#[tactic(auto, using(crate::proofs::SameLaws::not_cut))]
pub fn within_at(
    file: &[u8],
    at: usize,
    shape: Shape,
    states: [u8; 4],
    queues: [Queue; 16],
    values: [u8; 4],
) -> Option<bool>
    ensures { IfSome result (λ related. related ≡ true → Within file.now at shape states queues values) }
{
    if cut(file, at, 8) {
        return None;
    }
    let back = before_messages(file, at);
    if cut(file, back, 153) {
        return None;
    }
    let m = messages_at(file, back, 20);
    if m == 0 {
        return None;
    }
    let k = back + 7 * m;
    let newest = [file[k + 3], file[k + 4], file[k + 5], file[k + 6]];
    // most entries are told by their newest values
    if !values_related(true, newest, values) {
        return Some(false);
    }
    let own = [file[at + 1], file[at + 2], file[at + 3], file[at + 4]];
    if !states_match(shape.processes, own, states) {
        return Some(false);
    }
    queues_from(true, file, at, back, m, shape, queues)
}
