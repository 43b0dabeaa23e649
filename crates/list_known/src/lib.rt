// What is known to be held, so that nothing is searched for: local states and families all of whose configurations are
// above the list, in tables, the tests by which they get there, and when these are made (theory, section 5).

#![tactic(auto)]

pub mod families;
pub mod full;
pub mod groups;
pub mod members;
pub mod policy;
