// May the PSO machine take a step in the configuration of a run? `step_answer` says so, and if not why.
ghost use Rattle.std.specs.Prelude.{◌≡◌};
ghost use Rattle.pso_step.specs.Answering.{queue_fits_in, value_fits_in, operate_answer_in, may_update_in, may_remove_in, answer_in};

use base::arrays::at_or;
use machine_pws::{Operation, Transition};
use pso_layout::buffers::PsoHeld;
use pso_layout::moves::PsoMove;
use run_causes::{Cause, first_cause};

// What an operation asks of the buffers, and of the value.
fn queue_fits(held: &PsoHeld, p: usize, operation: Operation) -> bool
    ensures { result ≡ queue_fits_in held.now.run held.now.shape p operation }
{
    match operation {
        Operation::Mfence => held.no_items(p),
        Operation::Arw { variable, .. } => held.is_empty(p, variable),
        _ => true,
    }
}

fn value_fits(held: &PsoHeld, p: usize, operation: Operation) -> bool
    ensures { result ≡ value_fits_in held.now.run held.now.lower.now p operation }
{
    match operation {
        Operation::Read { variable, value } => held.sees(p, variable) == value,
        Operation::Arw { variable, old, .. } => at_or(held.run.memory, variable, 0) == old,
        _ => true,
    }
}

#[tactic(auto, unfolding(crate::specs::Answering::operate_answer_in))]
fn operate_answer(held: &PsoHeld, t: Transition) -> Result<(), Cause>
    ensures { result ≡ operate_answer_in held.now.run held.now.lower.now held.now.shape t }
{
    let state = at_or(held.run.states, t.process, 0) == t.from;
    let queue = queue_fits(held, t.process, t.operation);
    let value = value_fits(held, t.process, t.operation);
    first_cause(state, queue, true, value, true)
}

#[tactic(auto, unfolding(crate::specs::Answering::may_update_in))]
fn may_update(held: &PsoHeld, p: usize, v: usize) -> bool
    ensures { result ≡ may_update_in held.now.run held.now.lower.now held.now.shape p v }
{
    (p < held.shape.processes && v < held.shape.variables) && held.value_first(p, v)
}

#[tactic(auto, unfolding(crate::specs::Answering::may_remove_in))]
fn may_remove(held: &PsoHeld, p: usize) -> bool
    ensures { result ≡ may_remove_in held.now.run held.now.lower.now held.now.shape p }
{
    p < held.shape.processes && held.all_marked(p)
}

pub fn step_answer(held: &PsoHeld, step: PsoMove) -> Result<(), Cause>
    ensures { result ≡ answer_in held.now.run held.now.lower.now held.now.shape step }
{
    match step {
        PsoMove::Operate(t) => operate_answer(held, t),
        PsoMove::UpdateVariable { process, variable } => first_cause(
            true,
            true,
            true,
            true,
            may_update(held, process, variable),
        ),
        PsoMove::RemoveMark { process } => first_cause(
            true,
            true,
            true,
            true,
            may_remove(held, process),
        ),
    }
}
