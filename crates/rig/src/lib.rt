// What C and Rust call. A slice is a pointer, then a length. Each export is thin, and states its outcome by the definitions that the
// function it calls states it by.
#![tactic(auto)]

mod abi; // the number of the exports
mod numbers; // little-endian fields
mod setters; // the setters of a matrix
mod derived; // the tables that follow from the bones
mod names; // the hash of a name, and the name search
mod limits; // joints
mod sections; // a skeleton's section
mod tags; // lookup of a tag
mod checks; // the skeleton check
mod readers; // the methods of a cursor
