// The parts of a page: document 01, "The page", and what each is written with. Each public function
// is total: where a part has not the size that it takes, it is left as it was.
#![tactic(auto)]

pub mod bits;
pub mod fields;
mod little;
