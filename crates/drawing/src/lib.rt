// Runs as drawings (request N12): step records to DOT text, and the text back to step records.

#![tactic(auto)]

ghost use Rattle.std.specs.Prelude.{◌≡◌};
ghost use Rattle.drawing.specs.Writing.{told};

mod label;
pub mod put;
mod read;
mod word;
mod write;

use file_records::program::Refusal;
pub use put::step_letters;
pub use read::dot_read;
pub use write::dot_write;

// number 0: value bytes were written; else the refusal's number and place.
#[repr(C)]
#[derive(Clone, Copy)]
pub struct Written {
    pub number: u64,
    pub value: u64,
}

impl From<Result<usize, Refusal>> for Written {
    ghost from_gives = { λ r w. w ≡ told r };

    fn from(outcome: Result<usize, Refusal>) -> Written {
        match outcome {
            Ok(bytes) => Written {
                number: 0,
                value: bytes as u64,
            },
            Err(refusal) => Written {
                number: u64::from(refusal.number),
                value: refusal.place as u64,
            },
        }
    }
}
