// A step of a run of the PSO machine (report, 4.1; document 02, N7): may it be taken, and if not why; and what it gives.

#![tactic(auto)]

pub mod answering;
pub mod stepping;
