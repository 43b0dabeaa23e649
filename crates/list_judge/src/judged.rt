// What is judged: a list for a program.
ghost use Rattle.std.specs.Prelude.{◌≡◌};

use file_records::program::Program;
use list_summary::Listing;

// The list with its summary, and the program with the bytes that it is read from.
#[derive(Clone, Copy)]
pub(crate) struct Judged<'a> {
    pub(crate) listing: Listing<'a>,
    pub(crate) code: &'a [u8],
    pub(crate) program: Program,
    pub(crate) ghost shaped: { listing.shape ≡ program.shape },
}
