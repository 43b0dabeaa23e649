// Where a cube is best split: where an entry that may meet it has a value. No contract says which place is taken,
// since it changes only the speed.
ghost use Rattle.std.specs.Prelude.{◌≡◌, true, None};
ghost use Rattle.list_cover.specs.Places.{proper};
ghost use Rattle.list_cover.specs.Search.{splits, Tried, Unmet, Stuck};

use crate::entry::matches_at;
use crate::gaps::{Gaps, gaps_between};
use crate::place::{Place, first_free, is_free};
use file_contents::entry::Cube;
use file_records::program::Shape;
use list_key::{tags_of, widened};
use list_summary::Listing;

// The fewer of the gaps so far, if an entry was met, and of those of one entry more.
fn with_gaps(best: Option<Gaps>, shape: Shape, cube: Cube, gaps: Gaps) -> Gaps
    ensures { splits shape cube best ≡ true → proper shape cube result.place ≡ true }
{
    let old = best.unwrap_or(Gaps {
        place: None,
        count: 255,
    });
    match gaps.place {
        Some(place) if gaps.count < old.count && is_free(shape, cube, place) => gaps,
        _ => old,
    }
}

fn gaps_at(listing: &Listing, i: usize, cube: Cube) -> Gaps {
    let entry = listing.entry(i);
    let left = tags_of(listing.shape, entry);
    let right = tags_of(listing.shape, cube);
    gaps_between(listing.shape, entry, &left, cube, &right)
}

// With one entry more, if it may meet the cube.
fn with_entry(
    best: Option<Gaps>,
    listing: &Listing,
    i: usize,
    cube: Cube,
    cues: &[usize; 20],
) -> Option<Gaps>
    ensures { Tried listing.now.file.now listing.now.offsets.now listing.now.shape cube cues.now best i result }
{
    if !matches_at(listing, false, i, cube, cues) {
        return best;
    }
    Some(with_gaps(best, listing.shape, cube, gaps_at(listing, i, cube)))
}

// The fewest gaps of an entry that may meet the cube, if there is such an entry.
fn best_split(listing: &Listing, cube: Cube, cues: &[usize; 20], number: u64) -> Option<Gaps>
    ensures place_value { splits listing.now.shape cube result ≡ true }
    ensures unmet { result ≡ None → Unmet listing.now.file.now listing.now.offsets.now listing.now.summary.now listing.now.count listing.now.shape cube cues.now number }
{
    let mut best = None;
    let mut walk = listing.walk_from(cube.states, number);
    while let Some(i) = walk.next(listing) {
        best = with_entry(best, listing, i, cube, cues);
        // one gap is the fewest: no other entry is looked at
        if best.is_some_and(|gaps| gaps.count <= 1) {
            break;
        }
    }
    best
}

// A free place, unless no entry may meet the cube or nothing is free.
pub(crate) fn place_for(
    listing: &Listing,
    cube: Cube,
    cues: &[usize; 20],
    number: u64,
) -> Option<Place>
    ensures result_value { proper listing.now.shape cube result ≡ true }
    ensures stuck { result ≡ None → Stuck listing.now.file.now listing.now.offsets.now listing.now.summary.now listing.now.count listing.now.shape cube cues.now number }
{
    // an entry that may meet the cube may have any signature
    let any = widened(number);
    let best = best_split(listing, cube, cues, any)?;
    // no or_else: its contract does not tell what the closure gave
    if best.place.is_some() {
        return best.place;
    }
    first_free(listing.shape, cube)
}
