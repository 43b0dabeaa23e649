// A list with its summary: what every search over it reads.
ghost use Rattle.std.specs.Prelude.{◌≡◌, ◌&&◌, not, ℕ, ◌<◌, eqb, IfSome};
ghost use Rattle.file_again.specs.Again.{cube_at};
ghost use Rattle.list_summary.specs.Slots.{count_at, entry_in};
ghost use Rattle.list_summary.specs.Groups.{same_states, states_at, leader_of};
ghost use Rattle.list_summary.specs.Walks.{walk_from};

use crate::adding::states_at;
use crate::slots::{count_at, entry_in, first_link, next_link};
use crate::walking::Walk;
use file_again::entry_at;
use file_contents::entry::Cube;
use file_records::program::Shape;
use list_key::{states_match, states_number};

// The file that holds the entries, the offsets of so many of them, their summary, and the shape of their program.
#[derive(Clone, Copy)]
pub struct Listing<'a> {
    pub file: &'a [u8],
    pub offsets: &'a [u8],
    pub summary: &'a [u8],
    pub count: usize,
    pub shape: Shape,
}

impl<'a> Listing<'a> {
    // Entry i.
    pub fn entry(&self, i: usize) -> Cube
        ensures { result ≡ cube_at self.now.file.now self.now.offsets.now i }
    {
        entry_at(self.file, self.offsets, i)
    }

    // The local states of entry i.
    pub fn states(&self, i: usize) -> [u8; 4]
        ensures { result ≡ states_at self.now.file.now self.now.offsets.now self.now.shape i }
    {
        states_at(self.file, self.offsets, self.shape, i)
    }

    // Entry i leads a group with these local states.
    fn leads(&self, i: usize, states: [u8; 4]) -> bool
        ensures { result ≡ (not (eqb (count_at self.now.summary.now i) 0) && same_states self.now.shape (states_at self.now.file.now self.now.offsets.now self.now.shape i) states) }
    {
        count_at(self.summary, i) != 0 && states_match(self.shape.processes, self.states(i), states)
    }

    // The first entry with these local states.
    pub(crate) fn leader_of(&self, states: [u8; 4]) -> Option<usize>
        ensures value { result ≡ entry_in (leader_of self.now.file.now self.now.offsets.now self.now.shape self.now.summary.now self.now.count states) }
        ensures upper_bound { IfSome result (λ i. (i < 1048575) × (i < self.now.count)) }
    {
        let mut below = self.count;
        let mut link = first_link(self.summary, self.count, states_number(self.shape, states));
        while let Some(i) = entry_in(link) {
            if below <= i {
                break;
            }
            if self.leads(i, states) {
                return Some(i);
            }
            below = i;
            link = next_link(self.summary, i);
        }
        None
    }

    // The walk over the entries that may match a cube with these states and this number.
    pub fn walk_from(&self, states: [u8; 4], number: u64) -> Walk
        ensures { result ≡ walk_from self.now.summary.now self.now.count states number }
    {
        Walk {
            states,
            number,
            below: self.count,
            link: first_link(self.summary, self.count, number),
            led: false,
        }
    }
}
