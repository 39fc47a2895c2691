// The operations that are replayed, by their numbers in a case.
use std::fmt;

#[derive(Clone, Copy, Debug, PartialEq, Eq)]
pub(crate) enum Operation {
    Read,
    ReadFull,
    ReadShort,
    Lookup,
    Tags,
    Indices,
    Matrices,
    JointsRead,
    JointsWrite,
    FreshLimit,
    Hash,
    RotationRead,
    RotationWrite,
    TranslationRead,
    TranslationWrite,
}

// Each at the place of its number.
pub(crate) const OPERATIONS: [Operation; 15] = [
    Operation::Read,
    Operation::ReadFull,
    Operation::ReadShort,
    Operation::Lookup,
    Operation::Tags,
    Operation::Indices,
    Operation::Matrices,
    Operation::JointsRead,
    Operation::JointsWrite,
    Operation::FreshLimit,
    Operation::Hash,
    Operation::RotationRead,
    Operation::RotationWrite,
    Operation::TranslationRead,
    Operation::TranslationWrite,
];

// A number of no operation.
#[derive(Clone, Copy, Debug, PartialEq, Eq)]
pub(crate) struct UnknownOperation(pub(crate) u32);

impl TryFrom<u32> for Operation {
    type Error = UnknownOperation;

    fn try_from(n: u32) -> Result<Operation, UnknownOperation> {
        OPERATIONS
            .get(n as usize)
            .copied()
            .ok_or(UnknownOperation(n))
    }
}

impl fmt::Display for Operation {
    fn fmt<W: fmt::Write>(&self, f: &mut fmt::Formatter<W>) -> fmt::Result {
        f.pad(match self {
            Operation::Read => "read",
            Operation::ReadFull => "read full",
            Operation::ReadShort => "read short",
            Operation::Lookup => "lookup",
            Operation::Tags => "tags",
            Operation::Indices => "indices",
            Operation::Matrices => "matrices",
            Operation::JointsRead => "joints read",
            Operation::JointsWrite => "joints write",
            Operation::FreshLimit => "fresh limit",
            Operation::Hash => "hash",
            Operation::RotationRead => "rotation read",
            Operation::RotationWrite => "rotation write",
            Operation::TranslationRead => "translation read",
            Operation::TranslationWrite => "translation write",
        })
    }
}
