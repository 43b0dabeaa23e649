// The patterns before a new message, by number (docs/PATTERNS.md, "Serialise").
ghost use Rattle.std.specs.Prelude.{◌≡◌, ◌||◌, List, ℕ, suc, ◌≤◌, ◌<◌, min, get_or, take, drop, eqb};
ghost use Rattle.std.proofs.Math.Option.{Option};
ghost use Rattle.machine_pws.specs.Machine.{all_below};
ghost use Rattle.file_records.specs.declared.program.Shape.{Shape};
ghost use Rattle.pattern_theory.specs.Patterns as patterns;
ghost use Rattle.pattern_theory.specs.Patterns.{PathRead};
ghost use Rattle.pattern_theory.specs.Predecessors.{with_path};
ghost use Rattle.pattern_step.specs.Meaning.{path_at, starts_at, no_path, FineReads, Stands, MessageBy};
ghost use Rattle.pattern_step.specs.Numbers.{places_more, PlacesMore, many, digit, message_numbered};

use crate::paths::PathReads;
use crate::patterns::{Pattern, join_all};
use base::below::all_below;
use file_records::program::Shape;
use std::array;

// How many places but the first the path of q has, at a new message of p.
fn more_at(shape: Shape, a: Pattern, p: usize, q: usize) -> u8
    ensures { PlacesMore shape a p q result }
{
    if shape.processes <= q || q == p {
        return 0;
    }
    a.path_of(q).len() as u8
}

fn more_places(shape: Shape, a: Pattern, p: usize) -> [u8; 4]
    ensures { (q : ℕ) → q < 4 → PlacesMore shape a p q (get_or result q 0) }
{
    // (c) with array::from_fn the clause stays open
    [
        more_at(shape, a, p, 0),
        more_at(shape, a, p, 1),
        more_at(shape, a, p, 2),
        more_at(shape, a, p, 3),
    ]
}

// One more each.
fn with_first(more: [u8; 4]) -> [usize; 4]
    ensures { (q : ℕ) → q < 4 → (get_or result q 0 ≡ suc (get_or more q 0)) × (get_or result q 0 ≤ 256) }
{
    more.map(|x| usize::from(x) + 1)
}

// The places of a number.
fn digits(more: [u8; 4], j: usize) -> [usize; 4]
    ensures { (q : ℕ) → q < 4 → get_or result q 0 ≡ digit (λ i. get_or more i 0) 4 j q }
{
    let [a, b, c, d] = with_first(more);
    let i = j / d;
    let h = i / c;
    let g = h / b;
    [g % a, h % b, i % c, j % d]
}

// Does each end but p's begin at a read of x?
fn all_start(shape: Shape, paths: [PathReads; 4], p: usize, x: u8, places: [usize; 4]) -> bool
    ensures { result ≡ all_below (min shape.processes 4) (λ q. eqb q p || starts_at x (path_at paths q) (get_or places q 0)) }
{
    all_below(
        shape.processes.min(4),
        |q| q == p || paths[q].starts_at(x, places[q]),
    )
}

// The fronts.
fn fronts(paths: [PathReads; 4], places: [usize; 4]) -> [PathReads; 4]
    ensures { (q : ℕ) → q < 4 → (path_at result q ≡ take (get_or places q 0) (path_at paths q)) × ((get_or result q no_path).count ≤ (get_or paths q no_path).count) × (FineReads (get_or paths q no_path) → FineReads (get_or result q no_path)) }
{
    array::from_fn(|q| paths[q].cut(places[q]))
}

// How many numbers there are.
pub fn message_count(shape: Shape, a: Pattern, p: usize) -> usize
    ensures { (k l : ℕ) (e : patterns.Pattern) → Stands shape k l a e → result ≡ many (places_more e.path p) shape.processes }
{
    let [first, second, third, fourth] = with_first(more_places(shape, a, p));
    first * second * third * fourth
}

// The pattern with all ends joined to the newest message, and the fronts for its paths; p's end begins at `own`.
pub(crate) fn new_message(
    shape: Shape,
    a: Pattern,
    p: usize,
    x: u8,
    own: usize,
    j: usize,
) -> Option<Pattern>
    ensures { (e : patterns.Pattern) (rs : List PathRead) (to : (ℕ → Option ℕ) → (ℕ → List PathRead) → List patterns.Pattern) → Stands shape 8 16 a (with_path e p rs) → p < shape.processes → MessageBy shape (with_path e p rs) to result (message_numbered shape.processes e.newest e.path p x (record { front = take own rs; end = drop own rs }) to j) }
{
    if 4 <= p {
        return None;
    }
    let mut places = digits(more_places(shape, a, p), j);
    places[p] = own;
    if !all_start(shape, a.paths, p, x, places) {
        return None;
    }
    let newest = join_all(shape.processes, a.newest, a.paths, places)?;
    Some(Pattern {
        newest,
        paths: fronts(a.paths, places),
        ..a
    })
}
