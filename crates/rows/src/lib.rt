// A bone's row in a lent table of 32-bit words (docs/FORMAT.md, "Records"; the words of a row stand in `format`, Rows.antt).
// Every table and position has an answer: words that the table lacks read as 0. A table and a row's number name a bone as they do in the
// definitions (`row_at t p`); a row by itself is lent as a table whose first row it is.
#![tactic(auto, unfolding(format::specs::Rows::bone_of, format::specs::Rows::place_of, crate::specs::Value::our_bone))]

ghost use Rattle.std.specs.Prelude.{◌≡◌, ◌+◌, ◌*◌, ◌/◌, ◌%◌, ◌^◌, ◌≤◌, length, get_or, map};
ghost use Rattle.std.proofs.lemmas.List.Edits.{sets};
ghost use Rattle.math.specs.Word.{float_of};
ghost use Rattle.format.specs.Result.{need};
ghost use Rattle.format.specs.Refusal.{outcome, outcome_by};
ghost use Rattle.format.specs.Rows.{pair, lower, upper, bone_width, bone_words, bone_of, place_of};
ghost use Rattle.rows.specs.Row.{row_words, row_at, words3_from, words4_from, has_row, put_row, bones_got};
ghost use Rattle.rows.specs.Value.{our_place, our_bone, meant_bone, vec3_of, vec4_of};
ghost use Rattle.format.specs.Words.{our_words3, our_words4};

use format::{BONE_WORDS, MOST, Place, Refusal, Words3, Words4};
use math::{Vec3, Vec4, float_of};

// A bone as its row holds it. Signed 16-bit numbers are their patterns, negative from 32768 on.
#[derive(Clone, Copy, Debug, PartialEq, Eq)]
pub struct Bone {
    // a quaternion x, y, z, w
    pub rotation: Words4,
    pub translation: Words3,
    pub scale: Words3,
    pub next_sibling: u16,
    pub parent: u16,
    pub name: Place,
    pub flags: u16,
    pub index: u16,
    pub tag: u16,
    // column 4 of the bone's local matrix
    pub kept: Words4,
}

// ---- words: halves of one, and those of a long number. (No From: a word has two halves, and the library has no method for either.)

fn lower_half(w: u32) -> u16
    ensures answer { result ≡ lower w }
{
    (w & 0xffff) as u16
}

fn upper_half(w: u32) -> u16
    ensures answer { result ≡ upper w }
{
    (w >> 16) as u16
}

// Two 16-bit fields in one word, the first in the lower half.
fn both_halves(lo: u16, hi: u16) -> u32
    ensures answer { result ≡ pair lo hi }
{
    u32::from(lo) | u32::from(hi) << 16
}

fn lower_word(v: u64) -> u32
    ensures answer { result ≡ v % 2 ^ 32 }
{
    (v & 0xffff_ffff) as u32
}

fn upper_word(v: u64) -> u32
    ensures answer { result ≡ v / 2 ^ 32 }
{
    (v >> 32) as u32
}

// A 64-bit number of its two words, the lower first.
fn both_words(lo: u32, hi: u32) -> u64
    ensures answer { result ≡ lo + 2 ^ 32 * hi }
{
    u64::from(lo) | u64::from(hi) << 32
}

// The place at an address; the size of no name is 0.
fn place_of(address: u64, size: u64) -> Place
    ensures answer { result ≡ our_place (place_of address size) }
{
    Place {
        address,
        size: if address == 0 { 0 } else { size },
    }
}

// ---- reading a row (one function for each kind of answer: the words, the floats and the structs have named fields)

// Word i of row p.
pub fn word_at(t: &[u32], p: usize, i: usize) -> u32
    ensures answer { result ≡ get_or (row_words t.now p) i 0 }
{
    if p > t.len() / BONE_WORDS {
        return 0;
    }
    let row = &t[BONE_WORDS * p..];
    row.get(i).copied().unwrap_or(0)
}

// The float that word i of row p stands for.
fn float_at(t: &[u32], p: usize, i: usize) -> f32
    ensures answer { result ≡ float_of (get_or (row_words t.now p) i 0) }
{
    float_of(word_at(t, p, i))
}

// Three words of row p, from word i on.
fn words3_at(t: &[u32], p: usize, i: usize) -> Words3
    requires { i ≤ 18 }
    ensures answer { result ≡ our_words3 (words3_from (row_words t.now p) i) }
{
    Words3 {
        x: word_at(t, p, i),
        y: word_at(t, p, i + 1),
        z: word_at(t, p, i + 2),
    }
}

// Four words of row p, from word i on.
fn words4_at(t: &[u32], p: usize, i: usize) -> Words4
    requires { i ≤ 17 }
    ensures answer { result ≡ our_words4 (words4_from (row_words t.now p) i) }
{
    Words4 {
        x: word_at(t, p, i),
        y: word_at(t, p, i + 1),
        z: word_at(t, p, i + 2),
        w: word_at(t, p, i + 3),
    }
}

// The three floats that stand in row p from word i on.
fn vec3_at(t: &[u32], p: usize, i: usize) -> Vec3
    requires { i ≤ 18 }
    ensures answer { result ≡ vec3_of (words3_from (row_words t.now p) i) }
{
    Vec3 {
        x: float_at(t, p, i),
        y: float_at(t, p, i + 1),
        z: float_at(t, p, i + 2),
    }
}

// The parent of the bone in row p, a pattern.
pub fn parent_at(t: &[u32], p: usize) -> u16
    ensures answer { result ≡ (row_at t.now p).parent }
{
    upper_half(word_at(t, p, format::SIBLING_AND_PARENT))
}

// The index of the bone in row p, a pattern.
pub fn index_at(t: &[u32], p: usize) -> u16
    ensures answer { result ≡ (row_at t.now p).index }
{
    upper_half(word_at(t, p, format::FLAGS_AND_INDEX))
}

// The tag of the bone in row p.
pub fn tag_at(t: &[u32], p: usize) -> u16
    ensures answer { result ≡ (row_at t.now p).tag }
{
    lower_half(word_at(t, p, format::TAG))
}

// The rotation of the bone in row p.
pub fn rotation_at(t: &[u32], p: usize) -> Vec4
    ensures answer { result ≡ vec4_of (row_at t.now p).rotation }
{
    Vec4 {
        x: float_at(t, p, format::ROTATION_X),
        y: float_at(t, p, format::ROTATION_Y),
        z: float_at(t, p, format::ROTATION_Z),
        w: float_at(t, p, format::ROTATION_W),
    }
}

// The translation of the bone in row p.
pub fn translation_at(t: &[u32], p: usize) -> Vec3
    ensures answer { result ≡ vec3_of (row_at t.now p).translation }
{
    vec3_at(t, p, format::TRANSLATION_X)
}

// The scale of the bone in row p.
pub fn scale_at(t: &[u32], p: usize) -> Vec3
    ensures answer { result ≡ vec3_of (row_at t.now p).scale }
{
    vec3_at(t, p, format::SCALE_X)
}

// The kept words of the bone in row p.
pub fn kept_at(t: &[u32], p: usize) -> Words4
    ensures answer { result ≡ our_words4 (row_at t.now p).kept }
{
    words4_at(t, p, format::KEPT_X)
}

// Where the name of the bone in row p lies.
pub fn name_at(t: &[u32], p: usize) -> Place
    ensures answer { result ≡ our_place (row_at t.now p).name }
{
    let address = both_words(
        word_at(t, p, format::NAME_ADDRESS),
        word_at(t, p, format::NAME_ADDRESS_UPPER),
    );
    let size = both_words(
        word_at(t, p, format::NAME_SIZE),
        word_at(t, p, format::NAME_SIZE_UPPER),
    );
    place_of(address, size)
}

// The bone in row p.
pub fn bone_at(t: &[u32], p: usize) -> Bone
    ensures answer { result ≡ our_bone (row_at t.now p) }
{
    let links = word_at(t, p, format::SIBLING_AND_PARENT);
    let marks = word_at(t, p, format::FLAGS_AND_INDEX);
    Bone {
        rotation: words4_at(t, p, format::ROTATION_X),
        translation: words3_at(t, p, format::TRANSLATION_X),
        scale: words3_at(t, p, format::SCALE_X),
        next_sibling: lower_half(links),
        parent: upper_half(links),
        name: name_at(t, p),
        flags: lower_half(marks),
        index: upper_half(marks),
        tag: tag_at(t, p),
        kept: kept_at(t, p),
    }
}

// ---- the rows of a table

// The first n rows of a table, each a bone's. Refuses 2 above 65,535 bones, then 1 where the table has fewer rows.
// (C lends a table and how many rows count: here they become rows.)
#[tactic(auto, using(crate::proofs::Rows::rows_many, crate::proofs::Rows::rows_short, crate::proofs::Rows::rows_first))]
pub fn rows_of(t: &[u32], n: usize) -> Result<&[[u32; BONE_WORDS]], Refusal>
    ensures answer { outcome_by (λ rows. map bone_of rows.now) result ≡ bones_got n t.now }
{
    if n > MOST {
        return Err(Refusal::TooManyBones);
    }
    let (rows, _) = t.as_chunks::<BONE_WORDS>();
    if rows.len() < n {
        return Err(Refusal::TableTooShort);
    }
    Ok(&rows[..n])
}

// ---- storing a row

// The words of a bone's row. (No From: its call would have to name the array.)
fn bone_words(b: Bone) -> [u32; BONE_WORDS]
    ensures answer { result ≡ bone_words (meant_bone b) }
{
    let n = place_of(b.name.address, b.name.size);
    [
        b.rotation.x,
        b.rotation.y,
        b.rotation.z,
        b.rotation.w,
        b.translation.x,
        b.translation.y,
        b.translation.z,
        b.scale.x,
        b.scale.y,
        b.scale.z,
        both_halves(b.next_sibling, b.parent),
        both_halves(b.flags, b.index),
        u32::from(b.tag),
        b.kept.x,
        b.kept.y,
        b.kept.z,
        b.kept.w,
        lower_word(n.address),
        upper_word(n.address),
        lower_word(n.size),
        upper_word(n.size),
    ]
}

// Stores the bone as row p, the free half of word 12 as 0. Where the row does not lie in the table, the table stays as it was.
pub fn put_bone(t: &mut [u32], p: usize, b: Bone) -> Result<(), Refusal>
    ensures answer { outcome result ≡ need 1 (has_row t.old p) }
    ensures rows { t.new ≡ put_row t.old p (meant_bone b) }
{
    if p >= t.len() / BONE_WORDS {
        return Err(Refusal::TableTooShort);
    }
    t[BONE_WORDS * p..BONE_WORDS * (p + 1)].copy_from_slice(&bone_words(b));
    Ok(())
}
