// The patterns before a serialise and an arw, by number (docs/PATTERNS.md, "Predecessors").
ghost use Rattle.std.specs.Prelude.{◌≡◌, ◌<◌};
ghost use Rattle.pattern_theory.specs.Patterns as patterns;
ghost use Rattle.machine_pws.specs.Machine.{put};
ghost use Rattle.pattern_reading.specs.Records.{asked};
ghost use Rattle.pattern_step.specs.Meaning.{newest_of, Stands, GivenBy};
ghost use Rattle.pattern_step.specs.Numbers.{serialise_numbered, arw_numbered};

use crate::clues::{Clue, goes_to};
use crate::messages::new_message;
use crate::paths::newest_of;
use crate::patterns::Pattern;
use base::arrays::with_at;
use file_records::program::Shape;

// What is asked of the newest message, with another value of x.
fn newest_with(newest: [u8; 4], x: u8, v: u8) -> [u8; 4]
    ensures { x < 4 → newest_of result ≡ put (newest_of newest) x (asked v) }
{
    with_at(newest, usize::from(x), v)
}

pub fn before_serialise(shape: Shape, a: Pattern, p: usize, x: u8, j: usize) -> Option<Pattern>
    ensures { (e : patterns.Pattern) → Stands shape 8 16 a e → p < shape.processes → x < shape.variables → GivenBy shape result (serialise_numbered shape.processes e p x j) }
{
    let path = a.path_of(p);
    let own = path.place_of(x);
    let next = new_message(shape, a.with_path(p, path.not_own(own)), p, x, own, j)?;
    let at = usize::from(x);
    let clue = a.clue_of(p, at).in_front(newest_of(next.newest, x));
    let newest = newest_with(next.newest, x, 255);
    Some(next.with_clue(p, at, clue).with_newest(newest))
}

pub(crate) fn before_arw(
    shape: Shape,
    a: Pattern,
    p: usize,
    x: u8,
    old: u8,
    new: u8,
    j: usize,
) -> Option<Pattern>
    ensures { (e : patterns.Pattern) → Stands shape 8 16 a e → p < shape.processes → x < shape.variables → old < 255 → GivenBy shape result (arw_numbered shape.processes e p x old new j) }
{
    let at = usize::from(x);
    if !a.clue_of(p, at).can_empty() {
        return None;
    }
    let next = new_message(shape, a, p, x, 0, j)?;
    if !goes_to(newest_of(next.newest, x), new) {
        return None;
    }
    let newest = newest_with(next.newest, x, old);
    Some(next.with_clue(p, at, Clue::Empty).with_newest(newest))
}
