// Is a cube held by the list (theory, section 6)? It is split where an entry that may meet it has a value, until an
// entry covers each part or none may meet one. Fillings are never gone through one by one, and entries are looked for
// in one group of the list's summary.

#![tactic(auto)]

mod entry;
mod gaps;
mod place;
pub mod search;
mod split;
