// The walk over the entries that may match a cube.
ghost use Rattle.std.specs.Prelude.{◌≡◌, min};

use crate::listing::Listing;
use crate::slots::{entry_in, fits_at, mark_of, marked, next_link, signature_in};

// The local states and the number of a cube, and where a walk for it goes on: below which entry and with which link,
// and whether the first entry of the group was met.
#[derive(Clone, Copy)]
pub struct Walk {
    pub states: [u8; 4],
    pub number: u64,
    pub below: usize,
    pub link: usize,
    pub led: bool,
}

impl Walk {
    ghost use Rattle.list_summary.specs.Walks.{Onward, Led};

    // After the chain comes the first entry of the group.
    fn leader(&mut self, listing: &Listing) -> Option<usize>
        ensures same { (self.new.states ≡ self.old.states) × (self.new.number ≡ self.old.number) }
        ensures led { Led listing.now.file.now listing.now.offsets.now listing.now.summary.now listing.now.count listing.now.shape self.old.states self.old.led result self.new }
    {
        let led = self.led;
        self.below = 0;
        self.link = 0;
        self.led = true;
        if led {
            return None;
        }
        listing.leader_of(self.states)
    }

    // The next entry that may match. Whatever the walk and the summary hold, it is one of the list's, and what is
    // left is less.
    pub fn next(&mut self, listing: &Listing) -> Option<usize>
        ensures same { (self.new.states ≡ self.old.states) × (self.new.number ≡ self.old.number) }
        ensures onward { Onward listing.now.file.now listing.now.offsets.now listing.now.summary.now listing.now.count listing.now.shape self.old.states self.old.number (min self.old.below listing.now.count) self.old.link self.old.led result self.new }
    {
        let mark = mark_of(self.number);
        let bits = signature_in(self.number);
        self.below = self.below.min(listing.count);
        while let Some(i) = entry_in(self.link) {
            if self.below <= i {
                break;
            }
            let marks = marked(self.link);
            self.below = i;
            self.link = next_link(listing.summary, i);
            if marks == mark && fits_at(listing.summary, i, bits) {
                return Some(i);
            }
        }
        self.leader(listing)
    }
}
