// A pattern file, read in one pass (docs/PATTERNS.md, "Records"): each record is checked, and the offset of each pattern written down.

#![tactic(auto)]

mod pass;
pub mod reading;
mod record;
mod seen;
