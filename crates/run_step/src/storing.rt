// What a permitted step writes into the lent bytes (document 01, "The machine"): the message or the waiting value.
ghost use Rattle.std.specs.Prelude.{◌≡◌};
ghost use Rattle.run_step.specs.Stored.{appended, lower_taken, lower_after};

use base::arrays::{at_or, with_at};
use machine_pws::Operation;
use run_layout::area::{put_snapshot, put_waiting, queue_number, snapshot_at, waiting_at};
use run_layout::arrays::Run;
use run_layout::moves::Move;

// A copy of the newest snapshot, with v changed to x, is appended.
#[tactic(auto, unfolding(crate::specs::Stored::appended, run_layout::specs::Layout::next_number))]
fn append(lower: &mut [u8], messages: u16, v: usize, x: u8)
    ensures { lower.new ≡ appended lower.old messages v x }
{
    let newest = snapshot_at(lower, messages);
    put_snapshot(lower, messages.saturating_add(1), with_at(newest, v, x));
}

fn store_taken(lower: &mut [u8], run: Run, p: usize, operation: Operation)
    ensures { lower.new ≡ lower_taken lower.old run p operation }
{
    match operation {
        Operation::Write { variable, value } => {
            let q = queue_number(p, variable);
            put_waiting(lower, q, at_or(run.tails, usize::from(q), 0), value);
        }
        Operation::Arw { variable, new, .. } => append(lower, run.messages, variable, new),
        _ => {}
    }
}

// `run` is the small part before the step.
pub fn store(lower: &mut [u8], run: Run, step: Move)
    ensures { lower.new ≡ lower_after lower.old run step }
{
    match step {
        Move::Take(t) => store_taken(lower, run, t.process, t.operation),
        Move::Serialise { process, variable } => {
            let q = queue_number(process, variable);
            let oldest = waiting_at(lower, q, at_or(run.heads, usize::from(q), 0));
            append(lower, run.messages, variable, oldest);
        }
        Move::Update { .. } => {}
    }
}
