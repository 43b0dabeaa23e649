// The types of the machine (document 01, "The machine"; report IT 13 086, section 2 and 5.1).
// What they mean is defined in specs/, over these types; there is no code here.

// One of six forms, in the order of document 01's first sentence.
#![tactic(auto)]

#[derive(Clone, Copy)]
pub enum Operation {
    Nop,
    Read { variable: usize, value: u8 },
    Write { variable: usize, value: u8 },
    Mfence,
    Sfence,
    Arw { variable: usize, old: u8, new: u8 },
}

// Two local states of a process, and the operation between them.
#[derive(Clone, Copy)]
pub struct Transition {
    pub process: usize,
    pub from: u8,
    pub operation: Operation,
    pub to: u8,
}

// A step of the machine: a transition by its number, or one of the memory's own two steps.
#[derive(Clone, Copy)]
pub enum Step {
    Take { transition: usize },
    Serialise { process: usize, variable: usize },
    Update { process: usize },
}

// A snapshot of memory, with the process and the variable that wrote it (its label).
#[derive(Clone, Copy)]
pub struct Message {
    pub process: u8,
    pub variable: u8,
    pub snapshot: [u8; 4],
}
