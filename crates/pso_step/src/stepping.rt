// What a step of the PSO machine gives: `run_after` the small part of the configuration, and `store` puts the items into the buffers.
ghost use Rattle.std.specs.Prelude.{◌≡◌};
ghost use Rattle.pso_step.specs.After.{advanced_below, states_after, memory_operated, memory_after, heads_after, tails_operated, tails_after, lasts_operated, lasts_after, run_after, marked_below, area_operated, lower_after_move};

use base::arrays::{at_or, with_at};
use file_records::program::Shape;
use machine_pws::Operation;
use pso_layout::area::put_item;
use pso_layout::buffers::{PsoHeld, PsoRun};
use pso_layout::moves::PsoMove;
use run_layout::area::queue_number;
use run_layout::arrays::advanced;

// ---- the small part

// The number of each buffer of p, of the first n variables, goes up by one.
#[tactic(auto, unfolding(crate::specs::After::advanced_below))]
fn advanced_below(mut xs: [u16; 16], p: usize, n: usize) -> [u16; 16]
    ensures { result ≡ advanced_below xs p n }
{
    for v in 0..n {
        // a name of its own: put straight into xs, the array of a call has no proof
        let more = advanced(xs, p, v);
        xs = more;
    }
    xs
}

fn states_after(states: [u8; 4], step: PsoMove) -> [u8; 4]
    ensures { result ≡ states_after states step }
{
    match step {
        PsoMove::Operate(t) => with_at(states, t.process, t.to),
        _ => states,
    }
}

fn memory_operated(memory: [u8; 4], operation: Operation) -> [u8; 4]
    ensures { result ≡ memory_operated memory operation }
{
    match operation {
        Operation::Arw { variable, new, .. } => with_at(memory, variable, new),
        _ => memory,
    }
}

// `held` is the configuration before the step.
fn memory_after(held: &PsoHeld, step: PsoMove) -> [u8; 4]
    ensures { result ≡ memory_after held.now.run held.now.lower.now step }
{
    let memory = held.run.memory;
    match step {
        PsoMove::Operate(t) => memory_operated(memory, t.operation),
        PsoMove::UpdateVariable { process, variable } => {
            with_at(memory, variable, held.head_item(process, variable))
        }
        PsoMove::RemoveMark { .. } => memory,
    }
}

fn heads_after(heads: [u16; 16], shape: Shape, step: PsoMove) -> [u16; 16]
    ensures { result ≡ heads_after heads shape step }
{
    match step {
        PsoMove::Operate(_) => heads,
        PsoMove::UpdateVariable { process, variable } => advanced(heads, process, variable),
        PsoMove::RemoveMark { process } => advanced_below(heads, process, shape.variables),
    }
}

fn tails_operated(tails: [u16; 16], shape: Shape, p: usize, operation: Operation) -> [u16; 16]
    ensures { result ≡ tails_operated tails shape p operation }
{
    match operation {
        Operation::Write { variable, .. } => advanced(tails, p, variable),
        Operation::Sfence => advanced_below(tails, p, shape.variables),
        _ => tails,
    }
}

fn tails_after(tails: [u16; 16], shape: Shape, step: PsoMove) -> [u16; 16]
    ensures { result ≡ tails_after tails shape step }
{
    match step {
        PsoMove::Operate(t) => tails_operated(tails, shape, t.process, t.operation),
        _ => tails,
    }
}

// A value that is written is the newest of its buffer.
#[tactic(auto, unfolding(run_layout::specs::Layout::next_number))]
fn lasts_operated(lasts: [u16; 16], tails: [u16; 16], p: usize, operation: Operation) -> [u16; 16]
    ensures { result ≡ lasts_operated lasts tails p operation }
{
    match operation {
        Operation::Write { variable, .. } => {
            let q = usize::from(queue_number(p, variable));
            with_at(lasts, q, at_or(tails, q, 0).saturating_add(1))
        }
        _ => lasts,
    }
}

fn lasts_after(lasts: [u16; 16], tails: [u16; 16], step: PsoMove) -> [u16; 16]
    ensures { result ≡ lasts_after lasts tails step }
{
    match step {
        PsoMove::Operate(t) => lasts_operated(lasts, tails, t.process, t.operation),
        _ => lasts,
    }
}

// The small part after a step that is permitted; `held` is the configuration before.
pub fn run_after(held: &PsoHeld, step: PsoMove) -> PsoRun
    ensures { result ≡ run_after held.now.run held.now.lower.now held.now.shape step }
{
    let run = held.run;
    PsoRun {
        states: states_after(run.states, step),
        memory: memory_after(held, step),
        heads: heads_after(run.heads, held.shape, step),
        tails: tails_after(run.tails, held.shape, step),
        lasts: lasts_after(run.lasts, run.tails, step),
    }
}

// ---- the buffers

// A mark joins each buffer of p, of the first n variables.
#[tactic(auto, unfolding(crate::specs::After::marked_below))]
fn put_marks(lower: &mut [u8], tails: [u16; 16], p: usize, n: usize)
    ensures { lower.new ≡ marked_below lower.old tails p n }
{
    for v in 0..n {
        let q = queue_number(p, v);
        put_item(lower, q, at_or(tails, usize::from(q), 0), 255);
    }
}

fn store_operated(lower: &mut [u8], tails: [u16; 16], shape: Shape, p: usize, operation: Operation)
    ensures { lower.new ≡ area_operated lower.old tails shape p operation }
{
    match operation {
        Operation::Write { variable, value } => {
            let q = queue_number(p, variable);
            put_item(lower, q, at_or(tails, usize::from(q), 0), value);
        }
        Operation::Sfence => put_marks(lower, tails, p, shape.variables),
        _ => {}
    }
}

// `tails` are those before the step.
pub fn store(lower: &mut [u8], tails: [u16; 16], shape: Shape, step: PsoMove)
    ensures { lower.new ≡ lower_after_move lower.old tails shape step }
{
    match step {
        PsoMove::Operate(t) => store_operated(lower, tails, shape, t.process, t.operation),
        _ => {}
    }
}
