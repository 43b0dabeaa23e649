// A pattern, when it is within another, and when a start fits it (docs/PATTERNS.md, "Within" and "Verdict").
ghost use Rattle.std.specs.Prelude.{◌≡◌, ℕ, ◌≤◌, ◌<◌, min, get_or, drop};
ghost use Rattle.machine_pws.specs.Machine.{all_below};
ghost use Rattle.machine_pws.specs.Program.{Program};
ghost use Rattle.list_theory.specs.Lists.{for_below};
ghost use Rattle.file_records.specs.ProgramPart.{shape_of};
ghost use Rattle.file_records.specs.declared.program.Shape.{Shape};
ghost use Rattle.pattern_theory.specs.Patterns as patterns;
ghost use Rattle.pattern_theory.specs.Within.{newest_within, path_within, within};
ghost use Rattle.pattern_theory.specs.Predecessors.{joined};
ghost use Rattle.pattern_theory.specs.Verdict.{start_fits};
ghost use Rattle.pattern_step.specs.Meaning.{given, newest_of, no_path, path_at, FineReads, row_within, row_empty, Stands};

use crate::clues::{Clue, Word, goes_to};
use crate::paths::PathReads;
use base::below::all_below;
use file_records::program::Shape;
use list_key::states_match;

// Four local states; what is asked of the newest message, 255 for nothing; the clue of process p and variable v at 4 p + v; the
// path of each process.
#[derive(Clone, Copy)]
pub struct Pattern {
    pub states: [u8; 4],
    pub newest: [u8; 4],
    pub clues: [Clue; 16],
    pub paths: [PathReads; 4],
}

// ---- within

// What b asks of the newest message, a asks.
fn newest_within(variables: usize, a: [u8; 4], b: [u8; 4]) -> bool
    ensures { result ≡ all_below (min variables 4) (λ v. newest_within (newest_of a v) (newest_of b v)) }
{
    all_below(variables.min(4), |v| goes_to(b[v], a[v]))
}

fn row_within(variables: usize, a: [Clue; 16], b: [Clue; 16], p: usize) -> bool
    ensures { p < 4 → result ≡ row_within variables a b p }
{
    p < 4 && all_below(variables.min(4), |v| a[4 * p + v].within(b[4 * p + v]))
}

fn clues_within(shape: Shape, a: [Clue; 16], b: [Clue; 16]) -> bool
    ensures { result ≡ all_below (min shape.processes 4) (row_within shape.variables a b) }
{
    all_below(
        shape.processes.min(4),
        |p| row_within(shape.variables, a, b, p),
    )
}

fn paths_within(processes: usize, newest: [u8; 4], a: [PathReads; 4], b: [PathReads; 4]) -> bool
    ensures { result ≡ all_below (min processes 4) (λ p. path_within (newest_of newest) (path_at a p) (path_at b p)) }
{
    all_below(processes.min(4), |p| a[p].within(newest, b[p]))
}

pub fn within(shape: Shape, a: Pattern, b: Pattern) -> bool
    ensures { (k l m n : ℕ) (e f : patterns.Pattern) → Stands shape k l a e → Stands shape m n b f → result ≡ within (shape_of shape) e f }
{
    states_match(shape.processes, a.states, b.states)
        && newest_within(shape.variables, a.newest, b.newest)
        && clues_within(shape, a.clues, b.clues)
        && paths_within(shape.processes, a.newest, a.paths, b.paths)
}

// ---- a start

pub(crate) fn row_empty(variables: usize, clues: [Clue; 16], p: usize) -> bool
    ensures { p < 4 → result ≡ row_empty variables clues p }
{
    p < 4 && all_below(variables.min(4), |v| clues[4 * p + v].can_empty())
}

fn all_empty(shape: Shape, clues: [Clue; 16]) -> bool
    ensures { result ≡ all_below (min shape.processes 4) (row_empty shape.variables clues) }
{
    all_below(
        shape.processes.min(4),
        |p| row_empty(shape.variables, clues, p),
    )
}

// The ends of all paths, each from a place on, asked of the newest message.
pub(crate) fn join_all(
    processes: usize,
    newest: [u8; 4],
    paths: [PathReads; 4],
    places: [usize; 4],
) -> Option<[u8; 4]>
    ensures { ((p : ℕ) → p < 4 → FineReads (get_or paths p no_path)) → given newest_of result ≡ joined (newest_of newest) (for_below (min processes 4) (λ p. drop (get_or places p 0) (path_at paths p))) }
{
    let mut next = newest;
    for p in 0..processes.min(4) {
        next = paths[p].joined(next, places[p])?;
    }
    Some(next)
}

// Does a start of some memory fit it?
pub fn start_fits(shape: Shape, initial: [u8; 4], a: Pattern) -> bool
    ensures { (k l : ℕ) (e : patterns.Pattern) (P : Program) → Stands shape k l a e → P.shape ≡ shape_of shape → ((p : ℕ) → P.initial p ≡ get_or initial p 0) → result ≡ start_fits P e }
{
    states_match(shape.processes, initial, a.states)
        && all_empty(shape, a.clues)
        && join_all(shape.processes, a.newest, a.paths, [0; 4]).is_some()
}

// The pattern of a target: its local states, and nothing else.
pub fn target(states: [u8; 4]) -> Pattern
    ensures { (shape : Shape) → shape.processes ≤ 4 → shape.variables ≤ 4 → Stands shape 0 0 result (patterns.target_pattern (λ p. get_or states p 0)) }
{
    Pattern {
        states,
        newest: [255; 4],
        clues: [Clue::Contains(Word::new()); 16],
        paths: [PathReads::new(); 4],
    }
}
