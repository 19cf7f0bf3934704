// What a build does with edits besides laying their entries: the choice of the new page's prefix,
// and the writing of a record. Document 01, "The normal page", "Edit record".
#![tactic(auto)]

pub mod choice;
pub mod writer;
