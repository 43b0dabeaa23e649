// The prelude: bytes and numbers of lent slices, read totally; tests and places of numbers. Every other crate may stand on it.

#![tactic(auto)]

pub mod arrays;
pub mod below;
pub mod bytes;
pub mod places;
