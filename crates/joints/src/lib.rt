// Joints and their limits (docs/FORMAT.md, "Joints and names"; `Joints`, `JointRotationLimit` and `JointTranslationLimit` of
// `src/blocks/skeleton.rs`). A limit is a row of words in a lent table; a record is a run of bytes in a section.
#![tactic(auto)]

pub mod limits; // the two kinds of limits: one record as a row, and back; the fresh limit
pub mod read; // a section's joints, as rows of two tables
mod rows; // the records of a list as rows, and back
mod words; // records as words
pub mod write; // the section's bytes
