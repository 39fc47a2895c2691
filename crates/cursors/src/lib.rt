// Each method of a cursor in turn, over plain parameters: what the run against the Rust calls (`Cursor` of `src/blocks/mod.rs`).
#![tactic(auto)]

ghost use Rattle.std.specs.Prelude.{◌≡◌};
ghost use Rattle.format.specs.Result.{status};
ghost use Rattle.format.specs.Refusal.{outcome};
ghost use Rattle.cursors.specs.Turns.{in_turn, numbers_of, fit, told};

use blocks::cursor::Cursor;
use format::{Refusal, Words3, Words4};

// What each read gives, and where it leaves the cursor.
#[derive(Clone, Copy)]
pub struct Turns {
    pub byte: u8,
    pub half: u16,
    pub signed: u16,
    pub word: u32,
    pub long: u64,
    pub float: u32,
    pub three: Words3,
    pub four: Words4,
    pub va: u64,
    pub checked: Result<(), Refusal>,
}

// A cursor over the section s at a position: each read in turn, then a skip of n bytes, so that a skip that marked would be seen.
pub fn in_turn(s: &[u8], pos: usize, base: u64, n: usize) -> Turns
    ensures answer { numbers_of result ≡ in_turn s.entry pos base n }
{
    let mut c = Cursor::new(s, pos, base);
    let byte = c.u8();
    let half = c.u16();
    let signed = c.i16();
    let word = c.u32();
    let long = c.u64();
    let float = c.f32();
    let three = c.vec3();
    let four = c.vec4();
    c.skip(n);
    Turns {
        byte,
        half,
        signed,
        word,
        long,
        float,
        three,
        four,
        va: c.va(),
        checked: c.check(),
    }
}

// How many numbers the turns come to.
pub const NUMBERS: usize = 15;

// The status that C and Rust are told: 0, or the refusal's number. (`rig_answers`, which has the like, rests on crates far above this one.)
fn status(checked: Result<(), Refusal>) -> u64
    ensures { result ≡ status (outcome checked) }
{
    match checked {
        Ok(()) => 0,
        Err(refusal) => u64::from(u32::from(refusal)),
    }
}

// The numbers of `in_turn` at the front of a lent slice, in their order, the last the status. Where fewer fit, every word is as it
// was, and the answer is false. (No Result: the export answers C so.)
pub fn numbers(s: &[u8], pos: usize, base: u64, n: usize, out: &mut [u64]) -> bool
    ensures answer { result ≡ fit out.old }
    ensures slice { out.new ≡ told (in_turn s.entry pos base n) out.old }
{
    if out.len() < NUMBERS {
        return false;
    }
    let t = in_turn(s, pos, base, n);
    out[..NUMBERS].copy_from_slice(&[
        u64::from(t.byte),
        u64::from(t.half),
        u64::from(t.signed),
        u64::from(t.word),
        t.long,
        u64::from(t.float),
        u64::from(t.three.x),
        u64::from(t.three.y),
        u64::from(t.three.z),
        u64::from(t.four.x),
        u64::from(t.four.y),
        u64::from(t.four.z),
        u64::from(t.four.w),
        t.va,
        status(t.checked),
    ]);
    true
}
