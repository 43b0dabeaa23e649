// The evidence part of a file, and the whole file, read in one pass (document 01, "Records" and the refusal table; document 02, N6).

#![tactic(auto)]

mod claim;
pub mod evidence;
mod list;
mod start;
