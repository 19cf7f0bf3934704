// The page writer: document 01, "The page" and "The normal page", from a table of rows.
#![tactic(auto)]

mod fitting;
mod kept;
pub mod page;
