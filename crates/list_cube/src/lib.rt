// A cube taken apart and put together again: its queues, its messages, its newest message. What searches, predecessors and starts
// do to a cube is said with these.

#![tactic(auto)]

pub mod messages;
pub mod newest;
pub mod queues;
