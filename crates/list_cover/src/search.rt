// The search itself.
ghost use Rattle.std.specs.Prelude.{◌≡◌, true, false, length};
ghost use Rattle.list_theory.specs.Decision.{held};
ghost use Rattle.file_records.specs.ProgramPart.{shape_of};
ghost use Rattle.file_contents.specs.Cube.{configuration_of};
ghost use Rattle.list_cover.specs.Places.{is_free};
ghost use Rattle.list_cover.specs.Search.{CoveredIn, SearchableIn, Uncovered, entries_in};
ghost use Rattle.list_bytes.specs.Against.{Sized, Against};

use crate::entry::matches_at;
use crate::place::{Place, fillings, part_of};
use crate::split::place_for;
use file_contents::entry::Cube;
use list_key::{number_of, tags_of};
use list_summary::Listing;

// The sizes of a cube's arrays: the proof asks for them.
fn rooms(cube: Cube) -> usize
    ensures { (length cube.queues ≡ 16) × (length cube.messages ≡ 20) }
{
    let queues = cube.queues;
    let messages = cube.messages;
    36
}

// One entry covers the cube alone. Not inlined, as part_of.
#[inline(never)]
fn covers_alone(listing: &Listing, cube: Cube, cues: &[usize; 20], number: u64) -> bool
    ensures covered { result ≡ true → Against listing.now.shape cube cues.now → CoveredIn listing.now cube }
    ensures uncovered { result ≡ false → Uncovered listing.now.file.now listing.now.offsets.now listing.now.summary.now listing.now.count listing.now.shape cube cues.now number }
{
    let mut walk = listing.walk_from(cube.states, number);
    while let Some(i) = walk.next(listing) {
        if matches_at(listing, true, i, cube, cues) {
            return true;
        }
    }
    false
}

// Every part of the cube at a free place is looked for: an entry that covers it, or else its own parts at a further
// place.
fn parts_held(listing: &Listing, cube: Cube, place: Place) -> bool
    requires { is_free listing.now.shape cube place ≡ true }
    ensures covered { Sized listing.now.shape cube → result ≡ true → CoveredIn listing.now cube }
    ensures cube_value { SearchableIn listing.now cube → result ≡ false → held (shape_of listing.now.shape) (entries_in listing.now) (configuration_of cube) ≡ false }
{
    let sizes = rooms(cube);
    let m = fillings(listing.shape, place);
    for x in 0..m {
        let part = part_of(cube, place, x as u8);
        let right = tags_of(listing.shape, part);
        let mut cues = [0usize; 20];
        let number = number_of(listing.shape, part, &right, &mut cues);
        if covers_alone(listing, part, &cues, number) {
            continue;
        }
        let Some(further) = place_for(listing, part, &cues, number) else {
            return false;
        };
        if !parts_held(listing, part, further) {
            return false;
        }
    }
    true
}

// Is every filling of the cube above the list's entries? Whatever the summary and the offsets hold, the search ends,
// and what it finds held is covered by entries that stand in the file.
pub fn search(listing: &Listing, cube: Cube) -> bool
    ensures found { Sized listing.now.shape cube → result ≡ true → CoveredIn listing.now cube }
    ensures value { SearchableIn listing.now cube → result ≡ held (shape_of listing.now.shape) (entries_in listing.now) (configuration_of cube) }
{
    let sizes = rooms(cube);
    let right = tags_of(listing.shape, cube);
    let mut cues = [0usize; 20];
    let number = number_of(listing.shape, cube, &right, &mut cues);
    // (b) no call of covers_alone: the first look has a walk of its own, which makes no copy of the cube
    let mut walk = listing.walk_from(cube.states, number);
    while let Some(i) = walk.next(listing) {
        if matches_at(listing, true, i, cube, &cues) {
            return true;
        }
    }
    match place_for(listing, cube, &cues, number) {
        Some(place) => parts_held(listing, cube, place),
        None => false,
    }
}
