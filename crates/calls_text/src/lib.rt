// Rows of text: lines of the input, rows taken apart, what they print, and the places that they lend.
#![tactic(auto)]

pub mod error;
pub mod hex;
pub mod numbers;
pub mod places;
pub mod rows;
