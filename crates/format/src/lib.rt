// What no format owns. Its definitions are in specs/, the laws about them in proofs/; its numbers are here, once for all code.
#![tactic(auto)]

pub mod limit;
pub mod refusal;
