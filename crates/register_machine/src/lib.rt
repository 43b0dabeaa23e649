// The types of programs with registers (document 02, N8). What they mean is defined in specs/, beside the machine of the crate
// machine_pws; there is no code here.

// One of nine forms: the six of document 01, and those that use the register, 6, 7 and 8 of N8.
#![tactic(auto)]

#[derive(Clone, Copy)]
pub enum RegisterOperation {
    Nop,
    Read { variable: usize, value: u8 },
    Write { variable: usize, value: u8 },
    Mfence,
    Sfence,
    Arw { variable: usize, old: u8, new: u8 },
    LoadRegister { variable: usize },
    StoreRegister { variable: usize },
    TestRegister { value: u8 },
}

// Two local states of a process, and the operation between them.
#[derive(Clone, Copy)]
pub struct RegisterTransition {
    pub process: usize,
    pub from: u8,
    pub operation: RegisterOperation,
    pub to: u8,
}
