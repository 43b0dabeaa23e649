// An entry in the file against a cube.
ghost use Rattle.std.specs.Prelude.{◌≡◌, [], ◌∷◌, ◌&&◌, ◌+◌, min};
ghost use Rattle.base.specs.Bytes.{byte};
ghost use Rattle.list_theory.specs.Matching.{matches};
ghost use Rattle.file_records.specs.ProgramPart.{shape_of};
ghost use Rattle.file_contents.specs.Cube.{load_entry, configuration_of};
ghost use Rattle.file_again.specs.Again.{cube_at};
ghost use Rattle.list_key.specs.Relation.{relation};
ghost use Rattle.list_key.specs.Match.{queue_row, channel_matches};
ghost use Rattle.machine_pws.specs.Machine.{all_below};
ghost use Rattle.list_bytes.specs.Against.{Sized, Against};

use base::bytes::four_at;
use file_again::offset_at;
use file_contents::entry::{Cube, load_entry};
use file_records::program::Shape;
use list_bytes::compare_at;
use list_key::{channel_matches, queues_match, states_match, tags_of};
use list_summary::Listing;

// The local states of the entry whose 10 stands at a place.
fn states_at(file: &[u8], at: usize) -> [u8; 4]
    ensures { result ≡ byte file.now (at + 1) ∷ byte file.now (at + 2) ∷ byte file.now (at + 3) ∷ byte file.now (at + 4) ∷ [] }
{
    // one test for the four, and not one for each byte
    if at < file.len() && 4 < file.len() - at {
        return [file[at + 1], file[at + 2], file[at + 3], file[at + 4]];
    }
    four_at(file, at, 1)
}

// The entry whose 10 stands at a place, built, against a cube, but for its local states.
fn built_matches(exact: bool, file: &[u8], at: usize, shape: Shape, cube: Cube) -> bool
    ensures { Sized shape cube → result ≡ (all_below (min shape.processes 4) (queue_row shape.variables exact (load_entry file.now at).queues cube.queues) && channel_matches shape exact (load_entry file.now at) cube) }
{
    let entry = load_entry(file, at);
    if !queues_match(exact, shape, entry.queues, cube.queues) {
        return false;
    }
    let left = tags_of(shape, entry);
    let right = tags_of(shape, cube);
    channel_matches(exact, shape, entry, &left, cube, &right)
}

// Entry i against a cube with its cues: exactly, it covers the cube; else it may meet it.
pub(crate) fn matches_at(
    listing: &Listing,
    exact: bool,
    i: usize,
    cube: Cube,
    cues: &[usize; 20],
) -> bool
    ensures { Against listing.now.shape cube cues.now → result ≡ matches (shape_of listing.now.shape) (relation exact) (configuration_of (cube_at listing.now.file.now listing.now.offsets.now i)) (configuration_of cube) }
{
    let shape = listing.shape;
    let at = offset_at(listing.offsets, i);
    // entries of other states are told apart by four bytes
    let states = states_at(listing.file, at);
    if !states_match(shape.processes, states, cube.states) {
        return false;
    }
    // most entries that a walk leads to are told by their bytes
    if let Some(related) = compare_at(exact, listing.file, at, shape, cube, cues) {
        return related;
    }
    built_matches(exact, listing.file, at, shape, cube)
}
