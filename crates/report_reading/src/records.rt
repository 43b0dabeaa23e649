// The records that a report alone has, or takes in its own way: marks and claims in their turn (document 02, N10).
ghost use Rattle.std.specs.Prelude.{◌≡◌, ◌+◌, ◌<◌};
ghost use Rattle.file_records.specs.Records.{checked};
ghost use Rattle.report_reading.specs.Parts.{mark_number, marks_from, due_claim, over_number, in_report};

use base::bytes::{both, cut, field};
use file_records::program::{Refusal, unless_end};
use file_records::record::{checked, first_number, is_kind};

// n of them stand before it.
fn check_mark(file: &[u8], at: usize, transitions: usize, n: usize) -> Result<(), Refusal>
    ensures { result ≡ checked (mark_number transitions file.now at n) at }
{
    checked(
        first_number(
            !is_kind(file, at, 48),
            cut(file, at, 1),
            8 <= n,
            false,
            !(usize::from(field(file, at, 1)) < transitions),
        ),
        at,
    )
}

// The 30s that stand here in a row.
pub(crate) fn marks_from(file: &[u8], at: usize, transitions: usize) -> Result<usize, Refusal>
    ensures { result ≡ marks_from transitions file.now at }
{
    let mut k = at;
    let mut n = 0;
    while is_kind(file, k, 48) {
        check_mark(file, k, transitions, n)?;
        k += 2;
        n += 1;
    }
    Ok(n)
}

// The claim that is due here.
pub(crate) fn due_claim(file: &[u8], at: usize, claim: u8) -> Result<(), Refusal>
    ensures { result ≡ due_claim claim file.now at }
{
    let said = checked(
        first_number(
            !is_kind(file, at, 15),
            cut(file, at, 1),
            false,
            false,
            !(field(file, at, 1) == claim),
        ),
        at,
    );
    unless_end(file, at, said)
}

// What is said of an 0F where no evidence is due.
pub(crate) fn over_number(file: &[u8], at: usize) -> u8
    ensures { result ≡ over_number file.now at }
{
    first_number(!is_kind(file, at, 15), cut(file, at, 1), false, false, true)
}

// The place in the report of a refusal in its part from a to b.
pub(crate) fn in_report(file: &[u8], a: usize, b: usize, refusal: Refusal) -> Refusal
    requires { a + refusal.place < 18446744073709551616 }
    ensures { result ≡ in_report file.now a b refusal }
{
    if both(refusal.number == 6, b < file.len()) {
        return Refusal {
            number: 2,
            place: b,
        };
    }
    Refusal {
        number: refusal.number,
        place: a + refusal.place,
    }
}
