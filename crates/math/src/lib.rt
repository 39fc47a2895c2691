// Float work of the rig exporter, `src/math.rs` in f32: each operation rounds once, in the Rust's written order
// (docs/FORMAT.md, "Float work"). Here are the types, and floats as the 32-bit words that records and tables hold.
#![tactic(auto)]

mod vector; // what a `Vec3` and a `Vec4` do
mod matrix; // what a `Mat4` does, but for its inverse
mod inverse; // the inverse of a `Mat4`

ghost use Rattle.std.specs.Prelude.{◌≡◌};
ghost use Rattle.math.specs.Word.{float_of, word_of};

// Each is laid out as in C, so that C can lend one.
#[repr(C)]
#[derive(Clone, Copy)]
pub struct Vec3 {
    pub x: f32,
    pub y: f32,
    pub z: f32,
}

#[repr(C)]
#[derive(Clone, Copy)]
pub struct Vec4 {
    pub x: f32,
    pub y: f32,
    pub z: f32,
    pub w: f32,
}

// Sixteen floats in row-major order, the translation in the fourth row.
#[repr(C)]
#[derive(Clone, Copy)]
pub struct Mat4(pub [f32; 16]);

pub const SIGN_BIT: u32 = 0x8000_0000;

// The word of +infinity: a word above this, its sign dropped, is a NaN's.
pub const INFINITY_WORD: u32 = 0x7F80_0000;

const NAN_WORD: u32 = 0x7FC0_0000;

// The float that the word w stands for: every NaN's word is the one NaN.
pub fn float_of(w: u32) -> f32
    ensures answer { result ≡ float_of w }
{
    if w % SIGN_BIT > INFINITY_WORD {
        f32::NAN
    } else {
        f32::from_bits(w)
    }
}

// The word of x: 7FC00000 hex where x is NaN.
pub fn word_of(x: f32) -> u32
    ensures answer { result ≡ word_of x }
{
    if x.is_nan() { NAN_WORD } else { x.to_bits() }
}
