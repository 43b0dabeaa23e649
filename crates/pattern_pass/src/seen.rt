// What was seen of the latest pattern, in counts.
ghost use Rattle.std.specs.Prelude.{◌≡◌, get_or, eqb, ◌+◌, ◌*◌, ◌<◌, ◌≤◌};
ghost use Rattle.machine_pws.specs.Machine.{all_below};
ghost use Rattle.base.specs.Bytes.{byte};
ghost use Rattle.file_contents.specs.Tally.{queue_at};
ghost use Rattle.pattern_pass.specs.Seen.{seen_number, SeenRoom, seen_value, seen_read, seen_mark, seen_more, mark_fits_seen, seen_complete};

use crate::record::{mark_number, read_number, waiting_number};
use base::arrays::at_or;
use base::below::all_below;
use base::bytes::field;
use file_records::program::Shape;
use file_records::record::is_kind;

// At 4 p + v the 12s of the queue of process p and variable v, and its 15: 0 for none, else its last byte and 1. At p the 14s of process p, and
// the last byte of the first of them.
#[derive(Clone, Copy)]
pub struct Seen {
    pub words: [u8; 16],
    pub marks: [u8; 16],
    pub reads: [u8; 4],
    pub own: [u8; 4],
}

// The place of the queue that the 12 or 15 at a place names.
fn queue_at(file: &[u8], at: usize) -> usize
    ensures { result ≡ queue_at file.now at }
{
    4 * usize::from(field(file, at, 1)) + usize::from(field(file, at, 2))
}

// The number of the record at a place, by what was seen.
pub(crate) fn seen_number(file: &[u8], at: usize, shape: Shape, seen: Seen) -> u8
    ensures { result ≡ seen_number shape file.now at seen }
{
    if is_kind(file, at, 18) {
        let words = at_or(seen.words, queue_at(file, at), 0);
        return waiting_number(file, at, shape, words);
    }
    if is_kind(file, at, 20) {
        let reads = at_or(seen.reads, usize::from(field(file, at, 1)), 0);
        return read_number(file, at, shape, reads);
    }
    if is_kind(file, at, 21) {
        let mark = at_or(seen.marks, queue_at(file, at), 0);
        return mark_number(file, at, shape, !(mark == 0));
    }
    2
}

// With the 12 at a place, which was found fine.
fn with_value(file: &[u8], at: usize, seen: Seen) -> Seen
    requires { (queue_at file.now at < 16) × (get_or seen.words (queue_at file.now at) 0 ≤ 8) }
    ensures { result ≡ seen_value file.now at seen }
{
    let mut next = seen;
    let q = queue_at(file, at);
    let n = seen.words[q];
    next.words[q] = n + 1;
    next
}

// With the 14.
fn with_read(file: &[u8], at: usize, seen: Seen) -> Seen
    requires { (byte file.now (at + 1) < 4) × (get_or seen.reads (byte file.now (at + 1)) 0 ≤ 16) }
    ensures { result ≡ seen_read file.now at seen }
{
    let mut next = seen;
    let p = usize::from(field(file, at, 1));
    let n = seen.reads[p];
    next.reads[p] = n + 1;
    if n == 0 {
        next.own[p] = field(file, at, 4);
    }
    next
}

// With the 15.
fn with_mark(file: &[u8], at: usize, seen: Seen) -> Seen
    requires { (queue_at file.now at < 16) × (byte file.now (at + 3) ≤ 1) }
    ensures { result ≡ seen_mark file.now at seen }
{
    let mut next = seen;
    let q = queue_at(file, at);
    let x = field(file, at, 3);
    next.marks[q] = x + 1;
    next
}

// With the record at a place, which was found fine.
pub(crate) fn seen_more(file: &[u8], at: usize, seen: Seen) -> Seen
    requires { SeenRoom file.now at seen }
    ensures { result ≡ seen_more file.now at seen }
{
    if is_kind(file, at, 18) {
        return with_value(file, at, seen);
    }
    if is_kind(file, at, 20) {
        return with_read(file, at, seen);
    }
    with_mark(file, at, seen)
}

// ---- number 7

// So many 12s of a queue, and what was seen of its 15.
fn mark_fits(words: u8, mark: u8) -> bool
    ensures { result ≡ mark_fits_seen words mark }
{
    if mark == 0 {
        return true;
    }
    if mark == 1 {
        return words == 0;
    }
    !(words == 0)
}

// Each 15 fits the 12s of its queue, and no first 14 is own.
#[tactic(auto, unfolding(crate::specs::Seen::seen_complete))]
pub(crate) fn is_complete(shape: Shape, seen: Seen) -> bool
    requires { (shape.processes ≤ 4) × (shape.variables ≤ 4) }
    ensures { result ≡ seen_complete shape seen }
{
    let marked = all_below(shape.processes, |p| {
        all_below(
            shape.variables,
            |v| mark_fits(seen.words[4 * p + v], seen.marks[4 * p + v]),
        )
    });
    marked && all_below(shape.processes, |p| seen.own[p] == 0)
}
