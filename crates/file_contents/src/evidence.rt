// What a file holds, and how many entries a work area allows (document 01, "Records"; document 02, N6).
ghost use Rattle.std.specs.Prelude.{◌≡◌};
ghost use Rattle.file_contents.specs.EvidencePart.{entries_allowed};
ghost use Rattle.file_contents.specs.Reading.{in_part};

use file_records::program::{Program, Refusal, Row};

// What a file holds: its program, its claim, and its entries (claim 0), or the memory that a run starts from and its steps (claims 1 and 2).
#[derive(Clone, Copy)]
pub struct Contents {
    pub program: Program,
    pub claim: u8,
    pub memory: [u8; 4],
    pub evidence: Row,
}

// The part of what is judged that a refused record stands in.
#[derive(Clone, Copy, Debug, PartialEq, Eq)]
pub enum Part {
    InProgram,
    InEvidence,
}

// Why the contents are not read.
#[derive(Clone, Copy, Debug, PartialEq, Eq)]
pub struct Unread {
    pub part: Part,
    pub refusal: Refusal,
}

// Entries that a work area of so many bytes allows.
pub fn entries_allowed(area: usize) -> usize
    ensures { result ≡ entries_allowed area }
{
    if area < 16384 {
        return 0;
    }
    let most = (area - 16384) / 12;
    if most < 524288 { most } else { 524288 }
}

// What was read, or why not and in which part.
pub fn in_part<T: Copy>(part: Part, read: Result<T, Refusal>) -> Result<T, Unread>
    ensures { result ≡ in_part part read }
{
    read.map_err(|refusal| Unread { part, refusal })
}
