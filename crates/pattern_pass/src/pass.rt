// The patterns of a file: each is checked, and its place written down (docs/PATTERNS.md, "Records").
ghost use Rattle.std.specs.Prelude.{◌≡◌, [], ◌+◌, ◌≤◌, length};
ghost use Rattle.file_contents.specs.EvidencePart.{wrote_from};
ghost use Rattle.pattern_reading.specs.Records.{beginning};
ghost use Rattle.pattern_reading.specs.Reading.{pattern_from};
ghost use Rattle.pattern_pass.specs.Seen.{end_of_pattern};
ghost use Rattle.pattern_pass.specs.Passing.{listed_from, count_listed};

use crate::record::{at_boundary, body_size, check_pattern};
use crate::seen::{Seen, is_complete, seen_more, seen_number};
use base::bytes::store_number;
use base::places::word_place;
use file_records::program::{Refusal, Shape};
use file_records::record::checked;

// The records of the pattern whose 13 stands at a place and is fine. 7 has the place of that 13.
fn pattern_from(file: &[u8], start: usize, shape: Shape) -> Result<usize, Refusal>
    requires { (start + 9 ≤ length file.now) × (shape.processes ≤ 4) × (shape.variables ≤ 4) }
    ensures { result ≡ end_of_pattern (pattern_from (length file.now) shape file.now start (start + 9) (beginning shape file.now start)) }
{
    let mut seen = Seen {
        words: [0; 16],
        marks: [0; 16],
        reads: [0; 4],
        own: [0; 4],
    };
    let mut k = start + 9;
    while !at_boundary(file, k) {
        checked(seen_number(file, k, shape, seen), k)?;
        seen = seen_more(file, k, seen);
        k += body_size(file, k);
    }
    if is_complete(shape, seen) {
        return Ok(k);
    }
    Err(Refusal {
        number: 7,
        place: start,
    })
}

// The patterns, to the file's end. The place of each one's 13 is written into the list, four bytes each, least significant first.
pub(crate) fn patterns_from(
    file: &[u8],
    at: usize,
    shape: Shape,
    states: [u8; 4],
    allowed: usize,
    list: &mut [u8],
) -> Result<usize, Refusal>
    requires { (shape.processes ≤ 4) × (shape.variables ≤ 4) × (allowed ≤ 524288) }
    ensures value { result ≡ count_listed (listed_from allowed shape states file.now at [] []) }
    ensures list_after { list.new ≡ wrote_from 0 (listed_from allowed shape states file.now at [] []).offsets list.old }
{
    let mut k = at;
    let mut n = 0;
    while k < file.len() {
        check_pattern(file, k, shape, states, allowed <= n)?;
        let next = pattern_from(file, k, shape)?;
        store_number(list, word_place(n), k);
        n += 1;
        k = next;
    }
    Ok(n)
}
