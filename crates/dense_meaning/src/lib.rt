// What the dense comparison is: every column of two lists compared, for each of the eight powers of ω (document 02, item 2). Definitions
// (specs/), theorems (proofs/) and the buffer's size, which `dense_checking` and `dense` take from here; no code runs here.
#![tactic(auto)]

// The numbers of the buffer.
pub const BUFFER_SIZE: usize = 512;
