// The small part of a configuration after a step that is permitted (document 01, "The machine").
ghost use Rattle.std.specs.Prelude.{◌≡◌};
ghost use Rattle.run_step.specs.After.{states_after, messages_taken, messages_after, heads_after, tails_taken, tails_after, run_after};

use crate::rows::rows_after;
use base::arrays::with_at;
use machine_pws::Operation;
use run_layout::arrays::{Run, advanced};
use run_layout::moves::Move;

fn states_after(states: [u8; 4], step: Move) -> [u8; 4]
    ensures { result ≡ states_after states step }
{
    match step {
        Move::Take(t) => with_at(states, t.process, t.to),
        _ => states,
    }
}

#[tactic(auto, unfolding(run_layout::specs::Layout::next_number))]
fn messages_taken(messages: u16, operation: Operation) -> u16
    ensures { result ≡ messages_taken messages operation }
{
    match operation {
        Operation::Arw { .. } => messages.saturating_add(1),
        _ => messages,
    }
}

#[tactic(auto, unfolding(run_layout::specs::Layout::next_number))]
fn messages_after(messages: u16, step: Move) -> u16
    ensures { result ≡ messages_after messages step }
{
    match step {
        Move::Take(t) => messages_taken(messages, t.operation),
        Move::Serialise { .. } => messages.saturating_add(1),
        _ => messages,
    }
}

fn heads_after(heads: [u16; 16], step: Move) -> [u16; 16]
    ensures { result ≡ heads_after heads step }
{
    match step {
        Move::Serialise { process, variable } => advanced(heads, process, variable),
        _ => heads,
    }
}

fn tails_taken(tails: [u16; 16], p: usize, operation: Operation) -> [u16; 16]
    ensures { result ≡ tails_taken tails p operation }
{
    match operation {
        Operation::Write { variable, .. } => advanced(tails, p, variable),
        _ => tails,
    }
}

fn tails_after(tails: [u16; 16], step: Move) -> [u16; 16]
    ensures { result ≡ tails_after tails step }
{
    match step {
        Move::Take(t) => tails_taken(tails, t.process, t.operation),
        _ => tails,
    }
}

pub fn run_after(run: Run, step: Move) -> Run
    ensures { result ≡ run_after run step }
{
    Run {
        states: states_after(run.states, step),
        messages: messages_after(run.messages, step),
        heads: heads_after(run.heads, step),
        tails: tails_after(run.tails, step),
        rows: rows_after(run.rows, run.messages, step),
    }
}
