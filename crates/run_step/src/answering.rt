// Whether the machine takes a step from the configuration of a run, and why not (document 01, "The machine"). What it gives then is in `after` and
// `storing`.
ghost use Rattle.std.specs.Prelude.{◌≡◌};

use base::arrays::at_or;
use base::below::all_below;
use file_records::program::Shape;
use machine_pws::{Operation, Transition};
use run_causes::{Cause, first_cause};
use run_layout::area::{queue_number, snapshot_at, waiting_at};
use run_layout::arrays::{Run, last_write_of, pointer_of};
use run_layout::moves::Move;

// The configuration of a run as it is held, of a program of this shape.
#[derive(Clone, Copy)]
pub struct Held<'a> {
    pub run: Run,
    pub lower: &'a [u8],
    pub shape: Shape,
}

impl<'a> Held<'a> {
    ghost use Rattle.run_step.specs.Answering.{empty_in, none_waiting_in, at_newest_in, sees_in, queue_fits_in, newest_has_in, may_serialise_in, may_update_in, pointer_fits_in, value_fits_in, take_answer_in, answer_in};

    #[tactic(auto, unfolding(crate::specs::Answering::empty_in))]
    fn is_empty(&self, p: usize, v: usize) -> bool
        ensures { result ≡ empty_in self.now.run p v }
    {
        let q = usize::from(queue_number(p, v));
        at_or(self.run.tails, q, 0) <= at_or(self.run.heads, q, 0)
    }

    #[tactic(auto, unfolding(crate::specs::Answering::none_waiting_in))]
    fn none_waiting(&self, p: usize) -> bool
        ensures { result ≡ none_waiting_in self.now.run self.now.shape p }
    {
        all_below(self.shape.variables.min(4), |v| self.is_empty(p, v))
    }

    #[tactic(auto, unfolding(crate::specs::Answering::at_newest_in))]
    fn at_newest(&self, p: usize) -> bool
        ensures { result ≡ at_newest_in self.now.run p }
    {
        pointer_of(self.run.rows, p) == self.run.messages
    }

    // What p reads in v: its newest waiting value, or else what the snapshot at LastWrite has.
    #[tactic(auto, unfolding(crate::specs::Answering::sees_in, crate::specs::Answering::empty_in))]
    fn sees(&self, p: usize, v: usize) -> u8
        ensures { result ≡ sees_in self.now.run self.now.lower.now p v }
    {
        let own = queue_number(p, v);
        let tail = at_or(self.run.tails, usize::from(own), 0);
        if at_or(self.run.heads, usize::from(own), 0) < tail {
            return waiting_at(self.lower, own, tail - 1);
        }
        let snapshot = snapshot_at(self.lower, last_write_of(self.run.rows, p, v));
        at_or(snapshot, v, 0)
    }

    // What an operation asks of the queues, of the pointer and of the value.
    fn queue_fits(&self, p: usize, operation: Operation) -> bool
        ensures { result ≡ queue_fits_in self.now.run self.now.shape p operation }
    {
        match operation {
            Operation::Mfence | Operation::Sfence => self.none_waiting(p),
            Operation::Arw { variable, .. } => self.is_empty(p, variable),
            _ => true,
        }
    }

    fn pointer_fits(&self, p: usize, operation: Operation) -> bool
        ensures { result ≡ pointer_fits_in self.now.run p operation }
    {
        match operation {
            Operation::Mfence | Operation::Arw { .. } => self.at_newest(p),
            _ => true,
        }
    }

    #[tactic(auto, unfolding(crate::specs::Answering::newest_has_in))]
    fn newest_has(&self, v: usize, x: u8) -> bool
        ensures { result ≡ newest_has_in self.now.run self.now.lower.now v x }
    {
        at_or(snapshot_at(self.lower, self.run.messages), v, 0) == x
    }

    fn value_fits(&self, p: usize, operation: Operation) -> bool
        ensures { result ≡ value_fits_in self.now.run self.now.lower.now p operation }
    {
        match operation {
            Operation::Read { variable, value } => self.sees(p, variable) == value,
            Operation::Arw { variable, old, .. } => self.newest_has(variable, old),
            _ => true,
        }
    }

    #[tactic(auto, unfolding(crate::specs::Answering::take_answer_in))]
    fn take_answer(&self, t: Transition) -> Result<(), Cause>
        ensures { result ≡ take_answer_in self.now.run self.now.lower.now self.now.shape t }
    {
        let p = t.process;
        first_cause(
            at_or(self.run.states, p, 0) == t.from,
            self.queue_fits(p, t.operation),
            self.pointer_fits(p, t.operation),
            self.value_fits(p, t.operation),
            true,
        )
    }

    #[tactic(auto, unfolding(crate::specs::Answering::may_serialise_in))]
    fn may_serialise(&self, p: usize, v: usize) -> bool
        ensures { result ≡ may_serialise_in self.now.run self.now.shape p v }
    {
        (p < self.shape.processes && v < self.shape.variables) && !self.is_empty(p, v)
    }

    #[tactic(auto, unfolding(crate::specs::Answering::may_update_in))]
    fn may_update(&self, p: usize) -> bool
        ensures { result ≡ may_update_in self.now.run self.now.shape p }
    {
        p < self.shape.processes && pointer_of(self.run.rows, p) < self.run.messages
    }

    pub fn answer(&self, step: Move) -> Result<(), Cause>
        ensures { result ≡ answer_in self.now.run self.now.lower.now self.now.shape step }
    {
        match step {
            Move::Take(t) => self.take_answer(t),
            Move::Serialise { process, variable } => first_cause(
                true,
                true,
                true,
                true,
                self.may_serialise(process, variable),
            ),
            Move::Update { process } => first_cause(
                true,
                true,
                true,
                true,
                self.may_update(process),
            ),
        }
    }
}
