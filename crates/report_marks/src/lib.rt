// What is tested and copied once the records of a report are read (document 02, N10): its marks, and its program with one fence a nop.
#![tactic(auto)]

pub mod copy;
pub mod marks;
