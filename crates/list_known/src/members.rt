// Families of the list that are full. The family of an entry is tested once, when so many entries like it were met
// that the tests of all families together look for no more cubes than number 11 would, by and large.
ghost use Rattle.std.specs.Prelude.{◌≡◌, ◌<◌, length};
ghost use Rattle.file_records.specs.ProgramPart.{shape_of};
ghost use Rattle.list_known.specs.FamilyTable.{Families};
ghost use Rattle.list_targets.specs.Walk.{Searched, listed};
ghost use Rattle.list_known.specs.Members.{Kept};

use crate::families::{Clue, count_member, in_full_family, put_family};
use file_contents::entry::Cube;
use file_records::program::value_count;
use list_cube::messages::carries;
use list_key::waiting;
use list_summary::Listing;
use list_targets::family_held;
use list_targets::seen::sees_held;

// The family of entry k by its newest values joins the table, if it is full.
fn put_newest(listing: &Listing, cube: Cube, k: usize, table: &mut [u8])
    requires { k < 524288 }
    ensures { Kept listing.now k table.old table.new }
{
    if !family_held(listing, k) {
        return;
    }
    put_family(table, listing.shape, cube, k, Clue::Newest);
}

// What p can come to see of v first: the newest value that is not free, down to its LastWrite; nothing if there is
// none, or if a value of its own waits. No contract says which is found, since it changes only the speed.
fn visible(cube: Cube, p: usize, v: usize) -> Option<u8>
    requires { (p < 4) × (v < 4) }
{
    if 0 < waiting(cube.queues[4 * p + v]) {
        return None;
    }
    let pointer = usize::from(cube.pointers[p]);
    for older in (0..cube.count.min(20)).rev() {
        let message = cube.messages[older];
        let x = message.snapshot[v];
        if x != 255 {
            return Some(x);
        }
        if older < pointer || carries(message, p, v) {
            return None;
        }
    }
    None
}

// The family of entry k by what p can come to see of v joins the table, if it is full.
fn put_sight(listing: &Listing, cube: Cube, k: usize, p: usize, v: usize, table: &mut [u8])
    requires { (k < 524288) × (p < 4) × (v < 4) }
    ensures { Kept listing.now k table.old table.new }
{
    if listing.shape.variables <= v {
        return;
    }
    let Some(x) = visible(cube, p, v) else {
        return;
    };
    if 4 <= x || value_count(listing.shape, v) <= x {
        return;
    }
    if !sees_held(listing, k, p, v, x) {
        return;
    }
    let clue = Clue::Sees {
        process: p,
        variable: v,
        value: x,
    };
    put_family(table, listing.shape, cube, k, clue);
}

fn put_sights(listing: &Listing, cube: Cube, k: usize, table: &mut [u8])
    requires { k < 524288 }
    ensures { Kept listing.now k table.old table.new }
{
    for p in 0..listing.shape.processes.min(4) {
        for v in 0..listing.shape.variables.min(4) {
            put_sight(listing, cube, k, p, v, table);
        }
    }
}

// The table of full families with one of entry k, if it is: that by newest values when `most` entries like it were
// met, and those by what processes can come to see, which have about four times as many cubes, when four times as many
// were.
pub(crate) fn put_member(listing: &Listing, most: usize, k: usize, table: &mut [u8])
    ensures { Kept listing.now k table.old table.new }
{
    if 524288 <= k {
        return;
    }
    let cube = listing.entry(k);
    let count = count_member(table, listing.shape, cube);
    if count != most && count / 4 != most {
        return;
    }
    if in_full_family(table, listing, cube) {
        return;
    }
    if count == most {
        put_newest(listing, cube, k, table);
        return;
    }
    if count % 4 == 0 {
        put_sights(listing, cube, k, table);
    }
}
