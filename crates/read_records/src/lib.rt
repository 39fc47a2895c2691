// The records of a skeleton whose fields are read in more than one place (docs/FORMAT.md, "Records"): the skeleton's own, and a tag
// entry.
#![tactic(auto)]

pub mod header; // the fields of the skeleton's record
pub mod entry; // the fields of a tag entry
