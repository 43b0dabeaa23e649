// A pattern in code (docs/PATTERNS.md): when one is within another, when a start fits it, and its predecessors by number.

#![tactic(auto)]

pub mod clues;
pub mod editing;
pub mod messages;
pub mod operations;
pub mod paths;
pub mod patterns;
pub mod steps;
pub mod stores;
