// What is lent, tables and a buffer, none of them zero before a call; and what is compared after it.
use format::Refusal;

// the answer of a call that does what is asked; others are `rig_answers::NOTHING` and the numbers of the refusals
pub const DONE: u32 = 0;

pub const DIRT8: u8 = 0xA5;

pub(crate) const DIRTY8: [u8; 2048] = [DIRT8; 2048];

pub(crate) const DIRTY16: [u16; 256] = [0xA5A5; 256];

pub(crate) const DIRTY32: [u32; 672] = [0xA5A5_A5A5; 672];

pub(crate) const DIRTY64: [u64; 512] = [0xA5A5_A5A5_A5A5_A5A5; 512];

// Whether a call answers so.
pub(crate) fn answered<T: Copy>(r: Result<T, Refusal>, answer: u32) -> bool {
    rig_answers::written_status(r) == answer
}

// The same of a call that gives a number where it is done: whether it is this one.
pub(crate) fn counted(r: Result<usize, Refusal>, answer: u32, count: usize) -> bool {
    answered(r, answer) && r.unwrap_or(count) == count
}

// Whether all comparisons agree. compare/vectors/run leaves one out at a time, here.
pub(crate) fn all(a: bool, b: bool, c: bool, d: bool) -> bool {
    a && b && c && d
}
