// The lists that follow from the bones' indices and parents (docs/FORMAT.md, "Deriving"): parents and children. The caller lends every
// table; no call needs other memory.
#![tactic(auto)]

mod bones; // the rows of the bones with their parents
mod index; // the bones by parent
mod pile; // the pending list
pub mod indices; // `build_indices`
