// Every function that C calls, each a thin call of the crate that has it. include/hrafnolt.h stands beside it: a file here for a part there.
#![tactic(auto)]

pub mod collections;
mod dot;
mod judging;
mod registers;
mod reports;
