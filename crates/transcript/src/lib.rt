// The runner's two pure parts: choices from the bytes of its input, and the bytes that it writes.
#![tactic(auto)]

pub mod choices;
pub mod reports;
pub mod shown;
