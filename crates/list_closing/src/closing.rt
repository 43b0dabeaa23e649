// What the predecessors of a list's entries are held against.
ghost use Rattle.std.specs.Prelude.{◌≡◌};

use file_contents::entry::Cube;
use file_records::program::Program;
use list_cover::search::search;
use list_known::families::in_full_family;
use list_known::full::is_full;
use list_summary::Listing;

// The list with its summary, the program and the bytes that it is read from, and what is known already: a table of full local states and one of
// full families. What is in such is not searched for.
#[derive(Clone, Copy)]
pub struct Closing<'a> {
    pub listing: Listing<'a>,
    pub code: &'a [u8],
    pub program: Program,
    pub full: &'a [u8],
    pub families: &'a [u8],
    pub ghost shaped: { listing.shape ≡ program.shape },
}

impl<'a> Closing<'a> {
    ghost use Rattle.std.specs.Prelude.{true};
    ghost use Rattle.file_records.specs.ProgramPart.{shape_of};
    ghost use Rattle.list_known.specs.FullStates.{is_full};
    ghost use Rattle.list_known.specs.FamilyTable.{Families};
    ghost use Rattle.list_closing.specs.Closing.{entries_in, RecordedIn, Answers};

    // These local states are known to be full.
    pub(crate) fn is_full(&self, states: [u8; 4]) -> bool
        ensures { result ≡ is_full self.now.full.now self.now.program.shape states }
    {
        is_full(self.full, self.program.shape, states)
    }

    // The cube is in a family that is known to be full.
    pub(crate) fn in_full_family(&self, cube: Cube) -> bool
        ensures { result ≡ true → RecordedIn self.now cube }
    {
        in_full_family(self.families, &self.listing, cube)
    }

    // The cube is held, as a search says.
    pub(crate) fn search(&self, cube: Cube) -> bool
        ensures { Answers self.now cube result }
    {
        search(&self.listing, cube)
    }

    // Is a predecessor cube held? If it is in a full family it is, and else it is searched for.
    pub(crate) fn found(&self, cube: Cube) -> bool
        ensures { Families (shape_of self.now.program.shape) (entries_in self.now) self.now.families.now → Answers self.now cube result }
    {
        self.in_full_family(cube) || self.search(cube)
    }
}
