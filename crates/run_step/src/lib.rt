// A step of a run of the PWS machine (document 01, "The machine"): may it be taken, and if not why; what it gives of the arrays; what it
// writes into the lent bytes. And the last test of a run.

#![tactic(auto)]

pub mod after;
pub mod answering;
pub mod last_test;
mod rows;
pub mod storing;
