// The predecessor cubes of an entry (theory, section 5), each made from the entry in one go, and the tests that say which there are. What
// they are is defined in the theory of lists.

#![tactic(auto)]

pub mod operations;
pub mod serialise;
pub mod update;
