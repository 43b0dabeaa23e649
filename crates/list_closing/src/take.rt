// The predecessor cubes of an entry for a transition whose end is the entry's local state, by its operation.
ghost use Rattle.std.specs.Prelude.{◌≡◌, true, cond, ◌&&◌, ℕ, ◌≤◌, ◌<◌, get_or};
ghost use Rattle.machine_pws.specs.declared.Operation.{Operation};
ghost use Rattle.machine_pws.specs.declared.Operation.TheVariants.{Read, Write, Arw};
ghost use Rattle.machine_pws.specs.declared.Step.TheVariants.{Take};
ghost use Rattle.machine_pws.specs.Machine.{is_empty, none_waiting, at_newest};
ghost use Rattle.list_theory.specs.Predecessors as lists;
ghost use Rattle.list_theory.specs.Decision.{held};
ghost use Rattle.file_records.specs.ProgramPart.{shape_of};
ghost use Rattle.file_contents.specs.Cube.{configuration_of};
ghost use Rattle.file_again.specs.Again.{transition_of};
ghost use Rattle.list_before.specs.Before.{take_before};
ghost use Rattle.list_closing.specs.Closing.{program_in, entries_in};
ghost use Rattle.list_closing.specs.Walk.{Searching, Acting, StepHeld, TakenHeld, LikeNop};

use crate::closing::Closing;
use crate::entered::Entered;
use base::below::all_below;
use file_contents::entry::Cube;
use file_records::program::Shape;
use list_before::operations::{
    before_arw, before_arw_on_top, before_nop, before_read, before_write, before_write_waited,
    may_read, may_swap, may_write,
};
use list_cube::newest::{alike_before, at_newest};
use list_cube::queues::none_waiting;
use list_known::full::states_from;
use machine_pws::{Operation, Transition};

// No value of p waits, and p is at the newest message.
fn is_settled(shape: Shape, cube: Cube, p: usize) -> bool
    ensures { result ≡ (none_waiting (shape_of shape) (configuration_of cube) p && at_newest (configuration_of cube).memory p) }
{
    none_waiting(shape, cube, p) && at_newest(cube, p)
}

// Before an operation that only waits: if there may be such a cube, it is held.
fn waited_held(closing: &Closing, entry: &Entered, p: usize, from: u8, may: bool) -> bool
    ensures { (o : Operation) → LikeNop (shape_of closing.now.program.shape) (configuration_of entry.now.cube) p from o may → TakenHeld closing.now entry.now.cube p from o result }
{
    !may || closing.found(before_nop(entry.cube, p, from))
}

fn read_held(closing: &Closing, entry: &Entered, p: usize, from: u8, v: usize, x: u8) -> bool
    ensures { TakenHeld closing.now entry.now.cube p from (Read v x) result }
{
    !may_read(entry.cube, entry.writes, p, v, x)
        || closing.found(before_read(entry.cube, entry.writes, p, from, v, x))
}

fn write_held(closing: &Closing, entry: &Entered, p: usize, from: u8, v: usize, x: u8) -> bool
    ensures { TakenHeld closing.now entry.now.cube p from (Write v x) result }
{
    if !may_write(entry.cube, p, v, x) {
        return true;
    }
    let undone = before_write(entry.cube, p, from, v);
    let waited = before_write_waited(entry.cube, p, from, v);
    closing.found(undone) && closing.found(waited)
}

// Before an arw, with nothing beside: if there is such a cube, it is held.
fn unswapped_held(closing: &Closing, entry: &Entered, p: usize, from: u8, v: usize, old: u8) -> bool
    ensures { Searching closing.now entry.now.cube → (j x : ℕ) → Acting (program_in closing.now) (configuration_of entry.now.cube) j p from (Arw v old x) → (is_empty ((configuration_of entry.now.cube).queue p v) && lists.swapped (shape_of closing.now.program.shape) (configuration_of entry.now.cube).memory p v x) ≡ true → result ≡ cond (lists.arw_kind (shape_of closing.now.program.shape) (configuration_of entry.now.cube).memory v old lists.undone) (held (shape_of closing.now.program.shape) (entries_in closing.now) (take_before (configuration_of entry.now.cube) p from (Arw v old x) lists.undone)) true }
{
    !alike_before(entry.cube, v, old) || closing.found(before_arw(entry.cube, p, from, v, old))
}

// With the newest message for u.
fn on_top_held(
    closing: &Closing,
    entry: &Entered,
    p: usize,
    from: u8,
    v: usize,
    old: u8,
    u: u8,
) -> bool
    ensures { Searching closing.now entry.now.cube → (j x : ℕ) → Acting (program_in closing.now) (configuration_of entry.now.cube) j p from (Arw v old x) → (is_empty ((configuration_of entry.now.cube).queue p v) && lists.swapped (shape_of closing.now.program.shape) (configuration_of entry.now.cube).memory p v x) ≡ true → u < closing.now.program.shape.variables → result ≡ held (shape_of closing.now.program.shape) (entries_in closing.now) (take_before (configuration_of entry.now.cube) p from (Arw v old x) (lists.on_top u)) }
{
    closing.found(before_arw_on_top(entry.cube, p, from, v, old, u))
}

fn arw_held(
    closing: &Closing,
    entry: &Entered,
    p: usize,
    from: u8,
    v: usize,
    old: u8,
    x: u8,
) -> bool
    ensures { TakenHeld closing.now entry.now.cube p from (Arw v old x) result }
{
    let shape = closing.program.shape;
    if !may_swap(shape, entry.cube, p, v, x) {
        return true;
    }
    unswapped_held(closing, entry, p, from, v, old)
        && all_below(shape.variables.min(4), |u| {
            on_top_held(closing, entry, p, from, v, old, u as u8)
        })
}

// Are all predecessor cubes for this transition held? It leads to the entry's local state.
fn taken_held(closing: &Closing, entry: &Entered, transition: Transition) -> bool
    ensures { Searching closing.now entry.now.cube → (j : ℕ) → j < closing.now.program.transitions.count → transition ≡ transition_of closing.now.code.now closing.now.program j → get_or entry.now.cube.states transition.process 0 ≡ transition.to → StepHeld closing.now entry.now.cube (Take j) result }
{
    let shape = closing.program.shape;
    let p = transition.process;
    let from = transition.from;
    match transition.operation {
        Operation::Nop => waited_held(closing, entry, p, from, true),
        Operation::Mfence => {
            waited_held(closing, entry, p, from, is_settled(shape, entry.cube, p))
        }
        Operation::Sfence => {
            waited_held(closing, entry, p, from, none_waiting(shape, entry.cube, p))
        }
        Operation::Read { variable, value } => {
            read_held(closing, entry, p, from, variable, value)
        }
        Operation::Write { variable, value } => {
            write_held(closing, entry, p, from, variable, value)
        }
        Operation::Arw { variable, old, new } => {
            arw_held(closing, entry, p, from, variable, old, new)
        }
    }
}

// The same, where local states that are known to be full need no search.
pub(crate) fn before_held(closing: &Closing, entry: &Entered, transition: Transition) -> bool
    ensures { Searching closing.now entry.now.cube → (j : ℕ) → j < closing.now.program.transitions.count → transition ≡ transition_of closing.now.code.now closing.now.program j → get_or entry.now.cube.states transition.process 0 ≡ transition.to → StepHeld closing.now entry.now.cube (Take j) result }
{
    let before = states_from(entry.cube.states, transition.process, transition.from);
    closing.is_full(before) || taken_held(closing, entry, transition)
}
