// A pattern's parts, and a pattern with one thing changed.
ghost use Rattle.std.specs.Prelude.{◌≡◌, ℕ, ◌+◌, ◌*◌, ◌≤◌, ◌<◌, get_or};
ghost use Rattle.file_records.specs.declared.program.Shape.{Shape};
ghost use Rattle.pattern_theory.specs.Patterns as patterns;
ghost use Rattle.pattern_theory.specs.Predecessors.{with_state, with_clue, with_none_waiting, with_newest, with_path};
ghost use Rattle.pattern_step.specs.Meaning.{clue_of, count_of, newest_of, no_clue, no_path, path_of, FineReads, Stands};

use crate::clues::Clue;
use crate::paths::PathReads;
use crate::patterns::Pattern;
use base::arrays::with_at;

impl Pattern {
    pub(crate) fn clue_of(self, p: usize, v: usize) -> Clue
        ensures { p < 4 → v < 4 → result ≡ get_or self.clues (4 * p + v) no_clue }
    {
        if p < 4 && v < 4 {
            self.clues[4 * p + v]
        } else {
            Clue::Empty
        }
    }

    pub(crate) fn path_of(self, p: usize) -> PathReads
        ensures { p < 4 → result ≡ get_or self.paths p no_path }
    {
        if p < 4 { self.paths[p] } else { self.paths[0] }
    }

    // ---- changes

    pub(crate) fn with_state(self, p: usize, x: u8) -> Pattern
        ensures { (s : Shape) (k l : ℕ) (e : patterns.Pattern) → Stands s k l self e → p < s.processes → Stands s k l result (with_state e p x) }
    {
        Pattern {
            states: with_at(self.states, p, x),
            ..self
        }
    }

    pub(crate) fn with_clue(mut self, p: usize, v: usize, clue: Clue) -> Pattern
        ensures { (s : Shape) (k l m : ℕ) (e : patterns.Pattern) → Stands s k l self e → p < s.processes → v < s.variables → k ≤ m → count_of clue ≤ m → Stands s m l result (with_clue e p v (clue_of clue)) }
    {
        if p < 4 && v < 4 {
            self.clues[4 * p + v] = clue;
        }
        self
    }

    pub(crate) fn with_none_waiting(mut self, p: usize) -> Pattern
        ensures { (s : Shape) (k l : ℕ) (e : patterns.Pattern) → Stands s k l self e → p < s.processes → Stands s k l result (with_none_waiting e p) }
    {
        if p < 4 {
            self.clues[4 * p..4 * p + 4].fill(Clue::Empty);
        }
        self
    }

    pub(crate) fn with_path(mut self, p: usize, path: PathReads) -> Pattern
        ensures { (s : Shape) (k l m : ℕ) (e : patterns.Pattern) → Stands s k l self e → p < s.processes → l ≤ m → path.count ≤ m → FineReads path → Stands s k m result (with_path e p (path_of path)) }
    {
        if p < 4 {
            self.paths[p] = path;
        }
        self
    }

    pub(crate) fn with_newest(self, newest: [u8; 4]) -> Pattern
        ensures { (s : Shape) (k l : ℕ) (e : patterns.Pattern) → Stands s k l self e → Stands s k l result (with_newest e (newest_of newest)) }
    {
        Pattern { newest, ..self }
    }
}
