// The types of the PSO machine (report IT 13 086, 4.1). What they mean is defined in specs/, over the programs and transitions of the
// crate pws; there is no code here.

// A step of the PSO machine: a transition by its number, or one of the memory's own two steps.
#![tactic(auto)]

#[derive(Clone, Copy)]
pub enum PsoStep {
    Operate { transition: usize },
    UpdateVariable { process: usize, variable: usize },
    RemoveMark { process: usize },
}
