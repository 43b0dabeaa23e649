// What a file holds, read again by number: entries by the list of their offsets, transitions and targets by their places. Each function is
// total on any bytes and any places; for a file that was read they give what the reading says (proofs/Again).
#![tactic(auto)]

ghost use Rattle.std.specs.Prelude.{◌≡◌, ℕ, ◌+◌, ◌*◌, ◌≤◌, ◌<◌, min, length, get_or, eqb};
ghost use Rattle.file_again.specs.Again.{offset_at, cube_at, place_in, transition_of, target_of};

use base::arrays::at_or;
use base::bytes::{cut, field, four_at, number_at};
use base::places::word_place;
use file_contents::entry::{Cube, load_entry};
use file_records::program::Program;
use file_records::record::transition_at;
use machine_pws::Transition;

pub mod offending;

// The place of the 10 of entry i.
pub fn offset_at(list: &[u8], i: usize) -> usize
    ensures { result ≡ offset_at list.now i }
{
    if list.len() / 4 < i {
        return 0;
    }
    number_at(list, word_place(i))
}

// Entry i.
pub fn entry_at(file: &[u8], list: &[u8], i: usize) -> Cube
    ensures { result ≡ cube_at file.now list.now i }
{
    let at = offset_at(list, i);
    load_entry(file, at)
}

// The place of record i of a row of 03s, or the file's end.
fn transition_place(file: &[u8], at: usize, i: usize) -> usize
    ensures { result ≡ place_in file.now (at + 8 * i) }
{
    if file.len() <= at {
        return file.len();
    }
    if (file.len() - at) / 8 < i {
        return file.len();
    }
    at + 8 * i
}

// And of 04s.
fn target_place(file: &[u8], at: usize, i: usize) -> usize
    ensures { result ≡ place_in file.now (at + 5 * i) }
{
    if file.len() <= at {
        return file.len();
    }
    if (file.len() - at) / 5 < i {
        return file.len();
    }
    at + 5 * i
}

// Transition i.
pub fn transition_of(file: &[u8], program: Program, i: usize) -> Transition
    ensures { result ≡ transition_of file.now program i }
{
    let row = program.transitions;
    let at = transition_place(file, row.at, i);
    transition_at(file, at)
}

// Transition i leads to these local states. Most lead elsewhere, and are told so by two bytes.
pub fn leads_to(file: &[u8], program: Program, i: usize, states: [u8; 4]) -> bool
    ensures { result ≡ eqb (get_or states (transition_of file.now program i).process 0) (transition_of file.now program i).to }
{
    let row = program.transitions;
    // one test for the record, and not one for each byte
    if i < 65536 {
        if !cut(file, row.at, 8 * i + 7) {
            let at = row.at + 8 * i;
            return at_or(states, usize::from(file[at + 1]), 0) == file[at + 7];
        }
    }
    let at = transition_place(file, row.at, i);
    at_or(states, usize::from(field(file, at, 1)), 0) == field(file, at, 7)
}

// The states of target k.
pub fn target_of(file: &[u8], program: Program, k: usize) -> [u8; 4]
    ensures { result ≡ target_of file.now program k }
{
    let row = program.targets;
    let at = target_place(file, row.at, k);
    four_at(file, at, 1)
}
