// Edits, and the record that holds them. Document 01, "Edit record", and the refusals 10 to 12.
#![tactic(auto)]

pub mod edit;
pub mod record;
