// The matrices that follow from the bones (docs/FORMAT.md, "Deriving"). The caller lends every table; no call needs other memory.
#![tactic(auto)]

mod walk; // the parent walk
pub mod matrices; // `build_transformations`
