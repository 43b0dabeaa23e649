// What a permitted step gives (document 01, "The machine") of the pointers and LastWrite numbers.
ghost use Rattle.std.specs.Prelude.{◌≡◌};
ghost use Rattle.run_step.specs.Rows.{pointed, put_last, updated, rows_taken, rows_after};

use base::arrays::with_at;
use machine_pws::Operation;
use run_layout::arrays::{last_write_of, pointer_of};
use run_layout::moves::Move;

// p points at message k, which no LastWrite of p is past.
#[tactic(auto, unfolding(crate::specs::Rows::pointed))]
fn pointed(rows: [[u16; 5]; 4], p: usize, k: u16) -> [[u16; 5]; 4]
    ensures { result ≡ pointed rows p k }
{
    with_at(rows, p, [k; 5])
}

#[tactic(auto, unfolding(crate::specs::Rows::put_last))]
fn put_last(mut rows: [[u16; 5]; 4], p: usize, v: usize, k: u16) -> [[u16; 5]; 4]
    ensures { result ≡ put_last rows p v k }
{
    if p < 4 && v < 4 {
        rows[p][v + 1] = k;
    }
    rows
}

// p's pointer goes up by one, and what it passes is no LastWrite of p any more.
#[tactic(auto, unfolding(crate::specs::Rows::updated, run_layout::specs::Layout::next_number))]
fn updated(rows: [[u16; 5]; 4], p: usize) -> [[u16; 5]; 4]
    ensures { result ≡ updated rows p }
{
    let k = pointer_of(rows, p).saturating_add(1);
    let row = [
        k,
        last_write_of(rows, p, 0).max(k),
        last_write_of(rows, p, 1).max(k),
        last_write_of(rows, p, 2).max(k),
        last_write_of(rows, p, 3).max(k),
    ];
    with_at(rows, p, row)
}

#[tactic(auto, unfolding(run_layout::specs::Layout::next_number))]
fn rows_taken(rows: [[u16; 5]; 4], messages: u16, p: usize, operation: Operation) -> [[u16; 5]; 4]
    ensures { result ≡ rows_taken rows messages p operation }
{
    match operation {
        Operation::Arw { .. } => pointed(rows, p, messages.saturating_add(1)),
        _ => rows,
    }
}

// `messages` is the number of messages before the step.
#[tactic(auto, unfolding(run_layout::specs::Layout::next_number))]
pub(crate) fn rows_after(rows: [[u16; 5]; 4], messages: u16, step: Move) -> [[u16; 5]; 4]
    ensures { result ≡ rows_after rows messages step }
{
    match step {
        Move::Take(t) => rows_taken(rows, messages, t.process, t.operation),
        Move::Serialise { process, variable } => {
            put_last(rows, process, variable, messages.saturating_add(1))
        }
        Move::Update { process } => updated(rows, process),
    }
}
