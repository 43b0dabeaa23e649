// Runs of the PSO machine (report, 4.1; request N7): the steps of a file, replayed on a configuration that lies in the lower 16,384 bytes of
// the work area and in a few small arrays. What a run's answer is stands in specs/Answers.antt, how a configuration is held in the crate `psolayout`.

#![tactic(auto)]

pub mod run;
