// The buffers of a run: what heads them, and what a process reads.
ghost use Rattle.std.specs.Prelude.{◌≡◌};

use crate::area::item_at;
use base::arrays::at_or;
use base::below::all_below;
use file_records::program::Shape;
use run_layout::area::queue_number;

// The small part of a configuration. The items in buffer q = 4 p + v are those from the number heads[q] to the one before tails[q], of all
// that were put into it; lasts[q] is one past the number of the newest value of these, or 0.
#[derive(Clone, Copy)]
pub struct PsoRun {
    pub states: [u8; 4],
    pub memory: [u8; 4],
    pub heads: [u16; 16],
    pub tails: [u16; 16],
    pub lasts: [u16; 16],
}

// The configuration of a run as it is held, of a program of this shape.
#[derive(Clone, Copy)]
pub struct PsoHeld<'a> {
    pub run: PsoRun,
    pub lower: &'a [u8],
    pub shape: Shape,
}

impl<'a> PsoHeld<'a> {
    ghost use Rattle.pso_layout.specs.Layout.{empty_in, head_item, value_first_in, mark_first_in, no_items_in, all_marked_in, sees_in};

    #[tactic(auto, unfolding(crate::specs::Layout::empty_in))]
    pub fn is_empty(&self, p: usize, v: usize) -> bool
        ensures { result ≡ empty_in self.now.run p v }
    {
        let q = usize::from(queue_number(p, v));
        at_or(self.run.tails, q, 0) <= at_or(self.run.heads, q, 0)
    }

    // What heads the buffer, if anything does.
    #[tactic(auto, unfolding(crate::specs::Layout::head_item))]
    pub fn head_item(&self, p: usize, v: usize) -> u8
        ensures { result ≡ head_item self.now.run self.now.lower.now p v }
    {
        let q = queue_number(p, v);
        item_at(self.lower, q, at_or(self.run.heads, usize::from(q), 0))
    }

    #[tactic(auto, unfolding(crate::specs::Layout::value_first_in))]
    pub fn value_first(&self, p: usize, v: usize) -> bool
        ensures { result ≡ value_first_in self.now.run self.now.lower.now p v }
    {
        !self.is_empty(p, v) && self.head_item(p, v) != 255
    }

    #[tactic(auto, unfolding(crate::specs::Layout::mark_first_in))]
    fn mark_first(&self, p: usize, v: usize) -> bool
        ensures { result ≡ mark_first_in self.now.run self.now.lower.now p v }
    {
        !self.is_empty(p, v) && self.head_item(p, v) == 255
    }

    // All buffers of p are empty; marks count.
    #[tactic(auto, unfolding(crate::specs::Layout::no_items_in))]
    pub fn no_items(&self, p: usize) -> bool
        ensures { result ≡ no_items_in self.now.run self.now.shape p }
    {
        all_below(self.shape.variables.min(4), |v| self.is_empty(p, v))
    }

    // A mark heads each buffer of p.
    #[tactic(auto, unfolding(crate::specs::Layout::all_marked_in))]
    pub fn all_marked(&self, p: usize) -> bool
        ensures { result ≡ all_marked_in self.now.run self.now.lower.now self.now.shape p }
    {
        all_below(self.shape.variables.min(4), |v| self.mark_first(p, v))
    }

    // What p reads in v: the newest value in its buffer, or else memory.
    #[tactic(auto, unfolding(crate::specs::Layout::sees_in))]
    pub fn sees(&self, p: usize, v: usize) -> u8
        ensures { result ≡ sees_in self.now.run self.now.lower.now p v }
    {
        let q = queue_number(p, v);
        let last = at_or(self.run.lasts, usize::from(q), 0);
        if at_or(self.run.heads, usize::from(q), 0) < last {
            item_at(self.lower, q, last - 1)
        } else {
            at_or(self.run.memory, v, 0)
        }
    }
}
