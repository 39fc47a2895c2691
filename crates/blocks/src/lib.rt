// Blocks of a section: where an address leads, the bytes and the name there, the cursor that reads them, and the pool of what was read
// (docs/FORMAT.md, "Finding bytes"; `src/blocks/mod.rs`).
#![tactic(auto)]

pub mod places; // an address in the system or the graphics half
pub mod names; // a name up to its zero byte
pub mod kinds; // what an address can be read as
pub mod pool; // the map from addresses to what was read there
mod tree; // the rows of the pool that are not near their home
pub mod cursor; // a reader that holds its section and its position
