// A scene as text, and a writer of text that takes no heap.
#![tactic(auto)]

pub mod lines;
pub mod page;
