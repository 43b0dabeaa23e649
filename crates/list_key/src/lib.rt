// An entry against a cube (theory, section 1, T1, and section 6). Leftmost matching is exact, since a message with a role is never skipped:
// no map of messages is searched for. What all matches of a cube have in common is its key, and a key has a number.

#![tactic(auto)]

mod channel;
mod cues;
mod number;
mod queues;
mod signature;
mod tags;
mod values;

pub use channel::channel_matches;
pub use number::{number_of, states_number, widened};
pub use queues::{queue_matches, queues_match, states_match};
pub use tags::{lowest, tags_of};
pub use values::{any_message, related, values_related, waiting, word};
