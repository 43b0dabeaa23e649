// The patterns before a transition but an arw, local states aside (docs/PATTERNS.md, "Predecessors").
ghost use Rattle.std.specs.Prelude.{map, ◌<◌};
ghost use Rattle.machine_pws.specs.declared.Operation.TheVariants.{Write, Mfence, Sfence};
ghost use Rattle.file_records.specs.declared.program.Shape.{Shape};
ghost use Rattle.file_records.specs.ProgramPart.{shape_of};
ghost use Rattle.pattern_theory.specs.Patterns as patterns;
ghost use Rattle.pattern_theory.specs.Patterns.{empty};
ghost use Rattle.pattern_theory.specs.Predecessors.{provided, from_option, can_empty, waiting, with_clue, with_path, before_operation};
ghost use Rattle.pattern_step.specs.Meaning.{Stands, GivenBy};
ghost use Rattle.pattern_step.specs.Numbers.{read_numbered};

use crate::clues::Clue;
use crate::paths::Read;
use crate::patterns::{Pattern, row_empty};
use file_records::program::Shape;

pub(crate) fn before_sfence(shape: Shape, a: Pattern, p: usize) -> Option<Pattern>
    ensures { (e : patterns.Pattern) → Stands shape 8 16 a e → p < shape.processes → GivenBy shape result (before_operation (shape_of shape) e p Sfence) }
{
    if !row_empty(shape.variables, a.clues, p) {
        return None;
    }
    Some(a.with_none_waiting(p))
}

pub(crate) fn before_mfence(shape: Shape, a: Pattern, p: usize) -> Option<Pattern>
    ensures { (e : patterns.Pattern) → Stands shape 8 16 a e → p < shape.processes → GivenBy shape result (before_operation (shape_of shape) e p Mfence) }
{
    if !row_empty(shape.variables, a.clues, p) {
        return None;
    }
    let path = a.path_of(p);
    let newest = path.joined(a.newest, 0)?;
    let next = a.with_none_waiting(p).with_path(p, path.cut(0));
    Some(next.with_newest(newest))
}

pub(crate) fn before_writing(a: Pattern, p: usize, x: usize, v: u8) -> Option<Pattern>
    ensures { (s : Shape) (e : patterns.Pattern) → Stands s 8 16 a e → p < s.processes → x < s.variables → GivenBy s result (before_operation (shape_of s) e p (Write x v)) }
{
    let clue = a.clue_of(p, x).before_write(v)?;
    Some(a.with_clue(p, x, clue))
}

// Before a read of what waits.
pub(crate) fn before_waiting(a: Pattern, p: usize, x: usize, v: u8) -> Option<Pattern>
    ensures { (s : Shape) (e : patterns.Pattern) → Stands s 8 16 a e → p < s.processes → x < s.variables → GivenBy s result (from_option (waiting v (e.clue p x)) (with_clue e p x)) }
{
    let clue = a.clue_of(p, x).waiting(v)?;
    Some(a.with_clue(p, x, clue))
}

// Before a read of a message, by number: behind the first n reads of the path.
pub(crate) fn before_message(a: Pattern, p: usize, x: u8, v: u8, n: usize) -> Option<Pattern>
    ensures { (s : Shape) (e : patterns.Pattern) → Stands s 8 16 a e → p < s.processes → x < s.variables → v < 255 → GivenBy s result (provided (can_empty (e.clue p x)) (map (with_path (with_clue e p x empty) p) (read_numbered x v (e.path p) n))) }
{
    let at = usize::from(x);
    if !a.clue_of(p, at).can_empty() {
        return None;
    }
    let path = a.path_of(p);
    let next = a.with_clue(p, at, Clue::Empty);
    if let Some(own) = path.first_own(x) {
        if n != 0 || own != v {
            return None;
        }
        return Some(next.with_path(p, path));
    }
    if path.place_of(x) < n {
        return None;
    }
    let read = Read {
        variable: x,
        value: v,
        own: n != 0,
    };
    Some(next.with_path(p, path.put_in(n, read)))
}
