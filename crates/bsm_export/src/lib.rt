// The library for C and Rust: slices, numbers and structs of numbers only, and a function for each token (include/bsm.h).
#![tactic(auto)]

pub mod answer;
pub mod back;
pub mod expanded;
pub mod index;
pub mod item;
pub mod lines;
pub mod party;
pub mod records;
pub mod simple;
pub mod state;
pub mod tail;
pub mod text;
pub mod token;
