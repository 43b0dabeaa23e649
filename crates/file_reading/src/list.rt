// The entries of a list: each is checked, and its place written down (document 01, "Records").
ghost use Rattle.std.specs.Prelude.{◌≡◌, ◌&&◌, [], ◌+◌, ◌≤◌, length, get_or};
ghost use Rattle.file_records.specs.Records.{checked, message_number, waiting_number, pointer_at, pointer_name, pointer_names, state_names, entry_number, value_name, message_names, waiting_names};
ghost use Rattle.file_contents.specs.EvidencePart.{body_size, pointer_inside, points_first, pointers_fit, first_some, complete, at_boundary, entry_read, entries_from, wrote_from};
ghost use Rattle.file_contents.specs.Tally.{queue_at, count_of};
ghost use Rattle.file_reading.specs.Tally.{number_by, TallyRoom, tallied, end_of};

use base::arrays::at_or;
use base::bytes::{both, cut, either, field, store_number};
use base::places::word_place;
use file_contents::entry::message_at;
use file_contents::steps::pair_exists;
use file_program::record::state_name;
use file_records::program::{Refusal, Shape, value_count};
use file_records::record::{checked, first_number, is_kind};

fn pointer_name(shape: Shape, p: usize, pointer: u8) -> bool
    ensures { result ≡ pointer_name shape p pointer }
{
    either(p < shape.processes, pointer == 0)
}

// Of the 10 at a place that is inside the file: its states, and its pointers.
fn states_inside(file: &[u8], at: usize, shape: Shape, states: [u8; 4]) -> bool
    requires { at + 9 ≤ length file.now }
    ensures { result ≡ state_names shape states file.now at }
{
    let a = state_name(shape, states, 0, file[at + 1]);
    let b = state_name(shape, states, 1, file[at + 2]);
    let c = state_name(shape, states, 2, file[at + 3]);
    let d = state_name(shape, states, 3, file[at + 4]);
    both(a, both(b, both(c, d)))
}

fn pointers_inside(file: &[u8], at: usize, shape: Shape) -> bool
    requires { at + 9 ≤ length file.now }
    ensures { result ≡ pointer_names shape file.now at }
{
    let a = pointer_name(shape, 0, file[at + 5]);
    let b = pointer_name(shape, 1, file[at + 6]);
    let c = pointer_name(shape, 2, file[at + 7]);
    let d = pointer_name(shape, 3, file[at + 8]);
    both(a, both(b, both(c, d)))
}

// The 10 of an entry.
fn check_entry(
    file: &[u8],
    at: usize,
    shape: Shape,
    states: [u8; 4],
    full: bool,
) -> Result<(), Refusal>
    ensures { result ≡ checked (entry_number shape states file.now at full) at }
{
    let other = !is_kind(file, at, 16);
    if cut(file, at, 8) {
        return checked(first_number(other, true, full, false, true), at);
    }
    let names = both(
        states_inside(file, at, shape, states),
        pointers_inside(file, at, shape),
    );
    checked(first_number(other, false, full, false, !names), at)
}

fn value_name(shape: Shape, variable: usize, value: u8) -> bool
    ensures { result ≡ value_name shape variable value }
{
    if shape.variables <= variable {
        return value == 0;
    }
    if value == 255 {
        return true;
    }
    value < value_count(shape, variable)
}

fn value_names(shape: Shape, snapshot: [u8; 4]) -> bool
    ensures { result ≡ (value_name shape 0 (get_or snapshot 0 0) && (value_name shape 1 (get_or snapshot 1 0) && (value_name shape 2 (get_or snapshot 2 0) && value_name shape 3 (get_or snapshot 3 0)))) }
{
    let a = value_name(shape, 0, snapshot[0]);
    let b = value_name(shape, 1, snapshot[1]);
    let c = value_name(shape, 2, snapshot[2]);
    let d = value_name(shape, 3, snapshot[3]);
    both(a, both(b, both(c, d)))
}

fn message_names(file: &[u8], at: usize, shape: Shape) -> bool
    ensures { result ≡ message_names shape file.now at }
{
    let message = message_at(file, at);
    let snapshot = message.snapshot;
    both(
        pair_exists(shape, message.process, message.variable),
        value_names(shape, snapshot),
    )
}

fn waiting_names(file: &[u8], at: usize, shape: Shape) -> bool
    ensures { result ≡ waiting_names shape file.now at }
{
    let variable = field(file, at, 2);
    both(
        pair_exists(shape, field(file, at, 1), variable),
        value_name(shape, usize::from(variable), field(file, at, 3)),
    )
}

fn body_size(file: &[u8], at: usize) -> usize
    ensures { result ≡ body_size file.now at }
{
    if is_kind(file, at, 17) { 7 } else { 4 }
}

fn at_boundary(file: &[u8], at: usize) -> bool
    ensures { result ≡ at_boundary file.now at }
{
    either(file.len() <= at, is_kind(file, at, 16))
}

// How much of the latest entry was read: its messages, and the waiting values of process p and variable v at 4 p + v.
#[derive(Clone, Copy)]
pub struct Tally {
    pub messages: usize,
    pub waiting: [u8; 16],
}

// The place of the count of the queue that the 12 at a place names.
fn queue_at(file: &[u8], at: usize) -> usize
    ensures { result ≡ queue_at file.now at }
{
    4 * usize::from(field(file, at, 1)) + usize::from(field(file, at, 2))
}

fn message_number(file: &[u8], at: usize, shape: Shape, messages: usize) -> u8
    ensures { result ≡ message_number shape file.now at messages }
{
    first_number(
        false,
        cut(file, at, 6),
        16 <= messages,
        false,
        !message_names(file, at, shape),
    )
}

fn waiting_number(file: &[u8], at: usize, shape: Shape, waiting: u8) -> u8
    ensures { result ≡ waiting_number shape file.now at waiting }
{
    let full = both(
        pair_exists(shape, field(file, at, 1), field(file, at, 2)),
        8 <= waiting,
    );
    first_number(
        false,
        cut(file, at, 3),
        full,
        false,
        !waiting_names(file, at, shape),
    )
}

fn body_number(file: &[u8], at: usize, shape: Shape, tally: Tally) -> u8
    ensures { result ≡ number_by shape file.now at tally }
{
    if is_kind(file, at, 17) {
        return message_number(file, at, shape, tally.messages);
    }
    if is_kind(file, at, 18) {
        let waiting = at_or(tally.waiting, queue_at(file, at), 0);
        return waiting_number(file, at, shape, waiting);
    }
    2
}

// The counts with the record at a place, which was found fine.
fn tallied(file: &[u8], at: usize, tally: Tally) -> Tally
    requires { TallyRoom file.now at tally }
    ensures { result ≡ tallied file.now at tally }
{
    let mut next = tally;
    if is_kind(file, at, 17) {
        next.messages = tally.messages + 1;
        return next;
    }
    let q = queue_at(file, at);
    let n = tally.waiting[q];
    next.waiting[q] = n + 1;
    next
}

fn pointer_fits(shape: Shape, messages: usize, p: usize, pointer: u8) -> bool
    ensures { result ≡ pointer_inside shape messages p pointer }
{
    if p < shape.processes {
        return both(1 <= pointer, usize::from(pointer) <= messages);
    }
    true
}

fn points_first(shape: Shape, p: usize, pointer: u8) -> bool
    ensures { result ≡ points_first shape p pointer }
{
    both(p < shape.processes, pointer == 1)
}

// Each pointer of the 10 at a place names one of so many messages.
fn pointers_fit(file: &[u8], at: usize, shape: Shape, messages: usize) -> bool
    requires { at + 9 ≤ length file.now }
    ensures { result ≡ pointers_fit shape messages (pointer_at file.now at) }
{
    let a = pointer_fits(shape, messages, 0, file[at + 5]);
    let b = pointer_fits(shape, messages, 1, file[at + 6]);
    let c = pointer_fits(shape, messages, 2, file[at + 7]);
    let d = pointer_fits(shape, messages, 3, file[at + 8]);
    both(a, both(b, both(c, d)))
}

// Some pointer of it is 1.
fn some_first(file: &[u8], at: usize, shape: Shape) -> bool
    requires { at + 9 ≤ length file.now }
    ensures { result ≡ first_some shape (pointer_at file.now at) }
{
    let a = points_first(shape, 0, file[at + 5]);
    let b = points_first(shape, 1, file[at + 6]);
    let c = points_first(shape, 2, file[at + 7]);
    let d = points_first(shape, 3, file[at + 8]);
    either(a, either(b, either(c, d)))
}

fn is_complete(file: &[u8], at: usize, shape: Shape, messages: usize) -> bool
    requires { at + 9 ≤ length file.now }
    ensures { result ≡ complete shape messages (pointer_at file.now at) }
{
    both(
        1 <= messages,
        both(
            pointers_fit(file, at, shape, messages),
            some_first(file, at, shape),
        ),
    )
}

// Where the entry ends whose 10 stands at a place and is fine, or why it is refused.
fn entry_from(file: &[u8], start: usize, shape: Shape) -> Result<usize, Refusal>
    requires { (start + 9 ≤ length file.now) × (shape.processes ≤ 4) × (shape.variables ≤ 4) }
    ensures { result ≡ end_of (entry_read shape file.now start) }
{
    let none = [0u8; 16];
    let mut tally = Tally {
        messages: 0,
        waiting: none,
    };
    let mut k = start + 9;
    while !at_boundary(file, k) {
        checked(body_number(file, k, shape, tally), k)?;
        tally = tallied(file, k, tally);
        k += body_size(file, k);
    }
    if is_complete(file, start, shape, tally.messages) {
        return Ok(k);
    }
    Err(Refusal {
        number: 7,
        place: start,
    })
}

// The entries, to the file's end. The place of each one's 10 is written into the list, four bytes each, least significant first.
pub(crate) fn entries_from(
    file: &[u8],
    at: usize,
    shape: Shape,
    states: [u8; 4],
    allowed: usize,
    list: &mut [u8],
) -> Result<usize, Refusal>
    requires { (shape.processes ≤ 4) × (shape.variables ≤ 4) × (allowed ≤ 524288) }
    ensures value { result ≡ count_of (entries_from allowed shape states file.now at [] []) }
    ensures list_after { list.new ≡ wrote_from 0 (entries_from allowed shape states file.now at [] []).offsets list.old }
{
    let mut k = at;
    let mut n = 0;
    while k < file.len() {
        check_entry(file, k, shape, states, allowed <= n)?;
        let next = entry_from(file, k, shape)?;
        store_number(list, word_place(n), k);
        n += 1;
        k = next;
    }
    Ok(n)
}
