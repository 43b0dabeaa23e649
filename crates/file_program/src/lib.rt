// The program part of a file read in one pass (document 01, "Records" and the refusal table). What it holds is defined in program_part/specs; what
// is handed on is places and counts, or a numbered refusal.

#![tactic(auto)]

pub mod program;
pub mod record;
