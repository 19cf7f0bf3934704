// What document 01 means stands in specs/, as definitions. In code this crate has the sizes that it
// fixes and the refusals.
#![tactic(auto)]

pub mod layout;
pub mod refusal;
