// Groups of the list that hold everything of their local states, as those of the targets do. Such a group has at least
// as many entries as a target has shapes: only a group of `least` entries is tested, so that all tests together look
// for about as many cubes as the list has entries.
ghost use Rattle.std.specs.Prelude.{◌≡◌, ◌<◌};
ghost use Rattle.list_targets.specs.Walk.{Searched};
ghost use Rattle.list_known.specs.Groups.{with_group, with_groups};

use crate::full::{is_full, put_full};
use list_summary::{Listing, count_at};
use list_targets::target_held;

// The table of full local states with those of the group that entry k leads, if they are.
fn put_group(listing: &Listing, least: usize, k: usize, table: &mut [u8])
    ensures { Searched listing.now → table.new ≡ with_group listing.now least table.old k }
{
    if count_at(listing.summary, k) < least {
        return;
    }
    let cube = listing.entry(k);
    if is_full(table, listing.shape, cube.states) {
        return;
    }
    if !target_held(listing, cube.states) {
        return;
    }
    put_full(table, cube.states);
}

// With those of every group.
pub(crate) fn put_groups(listing: &Listing, least: usize, table: &mut [u8])
    ensures { Searched listing.now → table.new ≡ with_groups listing.now least table.old listing.now.count }
{
    for k in 0..listing.count {
        put_group(listing, least, k, table);
    }
}
