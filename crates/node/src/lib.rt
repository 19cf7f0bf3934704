// node.rs: the checking reader, and a page's sizes.
#![tactic(auto)]

pub mod reader;
