// How a configuration of the PSO machine (report, 4.1; request N7) is held in a run: in the lower 16,384 bytes of the work area and in a few small
// arrays. Which configuration that is stands in specs/Represents.antt.

#![tactic(auto)]

pub mod area;
pub mod buffers;
pub mod moves;
