// The summary of a list (request N2): its entries in groups by local states, in eight bytes for each entry allowed.
// Whatever bytes it holds, a walk over it ends, and what it leads to is held against the file: a summary that came
// back changed can't make a wrong cover.

#![tactic(auto)]

mod adding;
mod listing;
mod slots;
mod walking;

pub use adding::{states_at, summarise};
pub use listing::Listing;
pub use slots::{count_at, put_word, word_at};
pub use walking::Walk;
