// How a run's configuration is held (document 01, "The machine"): in the lower 16,384 bytes of the work area and in a few small arrays. Which
// configuration that is stands in specs/Represents.antt.

#![tactic(auto)]

pub mod area;
pub mod arrays;
pub mod moves;
