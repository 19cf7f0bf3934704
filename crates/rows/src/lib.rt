// Entries as rows of a lent table, which all crates above share.
#![tactic(auto)]

pub mod table;
