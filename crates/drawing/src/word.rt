// Words that a text has at a place.
ghost use Rattle.std.specs.Prelude.{◌≡◌};
ghost use Rattle.drawing.specs.Reading.{has_byte, expect_at};

use file_records::program::Refusal;

// Where a text is no drawing: the first byte that none has after the same beginning.
#[derive(Clone, Copy)]
pub struct Outside {
    pub place: usize,
}

impl From<Outside> for Refusal {
    ghost from_gives = { λ o r. r ≡ record { number = 27; place = o.place } };

    fn from(outside: Outside) -> Refusal {
        Refusal {
            number: 27,
            place: outside.place,
        }
    }
}

pub(crate) fn has(text: &[u8], at: usize, c: u8) -> bool
    ensures { result ≡ has_byte text.now at c }
{
    text.get(at) == Some(&c)
}

// The place after the word, which is to stand here.
pub(crate) fn expect(text: &[u8], start: usize, word: &[u8]) -> Result<usize, Outside>
    ensures { result ≡ expect_at text.now start word.now }
{
    let mut at = start;
    for c in word {
        if !has(text, at, *c) {
            return Err(Outside { place: at });
        }
        at += 1;
    }
    Ok(at)
}
