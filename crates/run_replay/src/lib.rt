// Runs (document 01, "The machine"): the steps of a file, replayed on a configuration that lies in the lower 16,384 bytes of the work area
// and in a few small arrays. What a run's verdict is stands in specs/Replay.antt, how a configuration is held in the crate `layout`.

#![tactic(auto)]

pub mod run;
