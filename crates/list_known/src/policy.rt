// When what is full is looked for: only the speed depends on it.
ghost use Rattle.std.specs.Prelude.{◌≡◌, ◌<◌, length};
ghost use Rattle.machine_pws.specs.Program as pws;
ghost use Rattle.file_records.specs.ProgramPart.{shape_of};
ghost use Rattle.list_known.specs.FullStates.{Full};
ghost use Rattle.list_known.specs.FamilyTable.{Families};
ghost use Rattle.list_targets.specs.Walk.{Searched, listed};

use crate::full::is_full;
use crate::groups::put_groups;
use crate::members::put_member;
use file_records::program::Shape;
use list_summary::Listing;

// At least so many entries hold everything of one target (README, "Limits"); no list has so many for any other shape.
// Only the speed depends on it.
fn least_entries(shape: Shape) -> Option<usize> {
    match (shape.processes, shape.variables) {
        (1, 1) => Some(4),
        (1, 2) => Some(40),
        (1, 3) => Some(384),
        (1, 4) => Some(4160),
        (2, 1) => Some(232),
        (2, 2) => Some(52288),
        (3, 1) => Some(44304),
        _ => None,
    }
}

// After a part of the entries the other groups are tested too: before, a way in may be found with less.
pub fn put_others(listing: &Listing, k: usize, table: &mut [u8])
    ensures { (length table.new ≡ length table.old) × ((P : pws.Program) → P.shape ≡ shape_of listing.now.shape → pws.ProgramInRange P → Searched listing.now → Full P (listed listing.now) table.old → Full P (listed listing.now) table.new) }
{
    if k != listing.count / 32 {
        return;
    }
    if let Some(least) = least_entries(listing.shape) {
        put_groups(listing, least, table);
    }
}

// One entry in four is counted, whatever the order of the list repeats.
fn is_counted(k: usize) -> bool
    requires { k < 524288 }
{
    (k + k / 4 + k / 16) % 4 == 0
}

// So many entries like one another are counted before their family is tested, about a thirty-second part of the cubes
// that the test looks for in all; nothing for the shapes of which no list holds a whole family. Only the speed depends
// on it.
fn members_for(shape: Shape) -> Option<usize> {
    match (shape.processes, shape.variables) {
        (1, 1 | 2 | 3) | (2, 1) => Some(1),
        (1, 4) => Some(2),
        (2, 2) => Some(25),
        (2, 3) => Some(1824),
        (3, 1) => Some(43),
        _ => None,
    }
}

// The family of entry k joins the table if it is found full. Where local states are full there is no need of it.
pub fn put_like(full: &[u8], listing: &Listing, k: usize, families: &mut [u8])
    ensures { (length families.new ≡ length families.old) × (k < listing.now.count → Searched listing.now → Families (shape_of listing.now.shape) (listed listing.now) families.old → Families (shape_of listing.now.shape) (listed listing.now) families.new) }
{
    if 524288 <= k {
        return;
    }
    // groups are tested first: what is full with all its local states needs no family
    if k < listing.count / 32 {
        return;
    }
    if !is_counted(k) {
        return;
    }
    let Some(most) = members_for(listing.shape) else {
        return;
    };
    if is_full(full, listing.shape, listing.states(k)) {
        return;
    }
    put_member(listing, most, k, families);
}
