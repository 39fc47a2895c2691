// The chains that follow from the bones' tags (docs/FORMAT.md, "Deriving"). The caller lends every table; no call needs other memory.
#![tactic(auto)]

pub mod buckets; // how many buckets and entries there are
pub mod tags; // `build_bone_tags`
