// The patterns before a transition, by number: how many numbers there are, and what a number gives.
ghost use Rattle.std.specs.Prelude.{◌≡◌, suc, ◌<◌};
ghost use Rattle.file_records.specs.declared.program.Shape.{Shape};
ghost use Rattle.file_records.specs.ProgramPart.{shape_of};
ghost use Rattle.pattern_theory.specs.Patterns as patterns;
ghost use Rattle.pattern_step.specs.Meaning.{place_of, Stands, GivenBy};
ghost use Rattle.pattern_step.specs.Numbers.{read_before, operation_count, operation_numbered, take_numbered, FineOperation};

use crate::messages::message_count;
use crate::operations::{
    before_message, before_mfence, before_sfence, before_waiting, before_writing,
};
use crate::patterns::Pattern;
use crate::stores::before_arw;
use base::arrays::at_or;
use file_records::program::Shape;
use machine_pws::{Operation, Transition};

// A variable as a byte.
fn small(x: usize) -> u8
    ensures { x < 4 → result ≡ x }
{
    x.min(3) as u8
}

// Before a read: first of what waits, then of a message.
fn before_reading(a: Pattern, p: usize, x: u8, v: u8, j: usize) -> Option<Pattern>
    ensures { (s : Shape) (e : patterns.Pattern) → Stands s 8 16 a e → p < s.processes → x < s.variables → v < 255 → GivenBy s result (read_before e p x v j) }
{
    if j == 0 {
        return before_waiting(a, p, usize::from(x), v);
    }
    before_message(a, p, x, v, j - 1)
}

fn before_operation(
    shape: Shape,
    a: Pattern,
    p: usize,
    operation: Operation,
    j: usize,
) -> Option<Pattern>
    ensures { (e : patterns.Pattern) → Stands shape 8 16 a e → p < shape.processes → FineOperation (shape_of shape) operation → GivenBy shape result (operation_numbered (shape_of shape) e p operation j) }
{
    match operation {
        Operation::Nop => Some(a),
        Operation::Read { variable, value } => before_reading(a, p, small(variable), value, j),
        Operation::Write { variable, value } => before_writing(a, p, variable, value),
        Operation::Mfence => before_mfence(shape, a, p),
        Operation::Sfence => before_sfence(shape, a, p),
        Operation::Arw { variable, old, new } => before_arw(
            shape,
            a,
            p,
            small(variable),
            old,
            new,
            j,
        ),
    }
}

pub fn before_take(shape: Shape, a: Pattern, transition: Transition, j: usize) -> Option<Pattern>
    ensures { (e : patterns.Pattern) → Stands shape 8 16 a e → transition.process < shape.processes → FineOperation (shape_of shape) transition.operation → GivenBy shape result (take_numbered (shape_of shape) e transition j) }
{
    let p = transition.process;
    if at_or(a.states, p, 0) != transition.to {
        return None;
    }
    let next = before_operation(shape, a, p, transition.operation, j)?;
    Some(next.with_state(p, transition.from))
}

// How many numbers an operation has.
pub fn operation_count(shape: Shape, a: Pattern, p: usize, operation: Operation) -> usize
    ensures { (e : patterns.Pattern) → Stands shape 8 16 a e → p < shape.processes → FineOperation (shape_of shape) operation → result ≡ operation_count (shape_of shape) e p operation }
{
    match operation {
        Operation::Read { variable, .. } => read_count(a, p, small(variable)),
        Operation::Arw { .. } => message_count(shape, a, p),
        _ => 1,
    }
}

fn read_count(a: Pattern, p: usize, x: u8) -> usize
    ensures { (s : Shape) (e : patterns.Pattern) → Stands s 8 16 a e → p < s.processes → result ≡ suc (suc (place_of x (e.path p))) }
{
    a.path_of(p).place_of(x) + 2
}
