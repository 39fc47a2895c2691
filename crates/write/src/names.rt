// The names of the bones, from the lent halves (docs/FORMAT.md, "Reading and writing a skeleton": "names in bone order one behind
// the other, each ended by a zero").
ghost use Rattle.std.specs.Prelude.{◌≡◌, ◌+◌, ◌*◌, ◌≤◌, ◌++◌, ◌∷◌, [], length, take, map, IfOk};
ghost use Rattle.format.specs.Refusal.{outcome, outcome_by};
ghost use Rattle.format.specs.Rows.{bone_of};
ghost use Rattle.format.specs.Section.{part};
ghost use Rattle.format.specs.Layout.{all_names};
ghost use Rattle.format.specs.Write.{no_zero, good_name, named};
ghost use Rattle.blocks.specs.Places.{section_of};
ghost use Rattle.write.specs.Names.{name_in, names_result, StoredTo};

use crate::block::name_bytes;
use crate::words::{CHUNK, put_at_least};
use blocks::places::Section;
use format::{BONE_WORDS, Place, Refusal};
use rows::name_at;

// Zeros, and behind them ones.
static MASK: [[u8; CHUNK]; 2] = [[0; CHUNK], [1; CHUNK]];

// Whether none of the bytes is zero. The loop has no other way out, so that many bytes are tested at once.
fn no_zero_run(s: &[u8]) -> bool
    ensures answer { result ≡ no_zero s.now }
{
    let mut good = true;
    for byte in s {
        good &= *byte != 0;
    }
    good
}

// The same of the first k bytes, at most 32, where 32 stand: the mask has ones over those behind them. No branch depends on k.
fn no_zero_near(s: &[u8], k: usize) -> bool
    requires { (32 ≤ length s.now) × (k ≤ 32) }
    ensures answer { result ≡ no_zero (take k s.now) }
{
    let mask = MASK.as_flattened();
    let start = CHUNK - k;
    let mut good = true;
    for i in 0..CHUNK {
        good &= (s[i] != 0) | (mask[start + i] != 0);
    }
    good
}

// The same of the first k bytes, for any k.
fn no_zero(s: &[u8], k: usize) -> bool
    requires { k ≤ length s.now }
    ensures answer { result ≡ no_zero (take k s.now) }
{
    if k <= CHUNK && s.len() >= CHUNK {
        return no_zero_near(s, k);
    }
    no_zero_run(&s[..k])
}

// The bytes of a half from a name on. All of the name's must stand: refusals 10, then 11.
fn from_name<'a>(names: Section<'a>, name: Place) -> Result<&'a [u8], Refusal>
    ensures name { outcome_by (λ s. take name.size s.now) result ≡ part (section_of names.entry) name.address name.size }
    ensures stands { IfOk result (λ s. name.size ≤ length s.now) }
{
    let bytes = names.rest(name.address)?;
    if bytes.len() < name.size as usize {
        return Err(Refusal::PastTheEnd);
    }
    Ok(bytes)
}

// Whether the writer takes the name of a row: no name is good.
fn good_name(row: &[u32; BONE_WORDS], names: Section) -> bool
    ensures answer { result ≡ good_name (section_of names.entry) (bone_of row.now).name }
{
    let name = name_at(row, 0);
    if name.address == 0 {
        return true;
    }
    let size = name.size as usize;
    if size > format::LONGEST_NAME {
        return false;
    }
    let Ok(bytes) = from_name(names, name) else {
        return false;
    };
    no_zero(bytes, size)
}

// The bytes that the names of some rows take, with their zeros. Refusal: 4 where one is over 255 bytes, holds a zero or does not lie in
// the lent bytes.
pub(crate) fn measure_names(bones: &[[u32; BONE_WORDS]], names: Section) -> Result<usize, Refusal>
    requires { length bones.now ≤ 65535 }
    ensures answer { outcome result ≡ names_result (section_of names.entry) (map bone_of bones.now) }
{
    let mut total = 0;
    for row in bones {
        if !good_name(row, names) {
            return Err(Refusal::BadName);
        }
        total += name_bytes(row);
    }
    Ok(total)
}

// Stores the first k bytes of s and a zero; gives where they end. The buffer may change up to its end.
fn put_ended(d: &mut [u8], at: usize, s: &[u8], k: usize) -> usize
    requires { (k ≤ length s.now) × (at + k + 1 ≤ length d.old) }
    ensures end { result ≡ at + k + 1 }
    ensures bytes { StoredTo (length d.old) d.old at (take k s.now ++ 0 ∷ []) d.new }
{
    put_at_least(d, at, s, k);
    let end = at + k;
    d[end] = 0;
    end + 1
}

// Stores the name of a row and its zero, or nothing for no name; gives where it ends. The buffer may change up to its end.
fn put_name(d: &mut [u8], at: usize, row: &[u32; BONE_WORDS], names: Section) -> usize
    requires { at + length (name_in (section_of names) row.now) ≤ length d.old }
    ensures end { result ≡ at + length (name_in (section_of names.entry) row.now) }
    ensures bytes { StoredTo (length d.old) d.old at (name_in (section_of names.entry) row.now) d.new }
{
    let name = name_at(row, 0);
    if name.address == 0 {
        return at;
    }
    match from_name(names, name) {
        Ok(bytes) => put_ended(d, at, bytes, name.size as usize),
        Err(_) => put_ended(d, at, &[], 0),
    }
}

// Fills a buffer with the names of some rows.
pub(crate) fn put_names(d: &mut [u8], bones: &[[u32; BONE_WORDS]], names: Section)
    requires { length d.old ≡ length (all_names (named (section_of names) (map bone_of bones.now))) }
    ensures bytes { d.new ≡ all_names (named (section_of names.entry) (map bone_of bones.now)) }
{
    let mut to = 0;
    for row in bones {
        to = put_name(d, to, row, names);
    }
}
