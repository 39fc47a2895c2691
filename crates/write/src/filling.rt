// The parts of a section filled where they start. The derived tables hold their rows.
ghost use Rattle.std.specs.Prelude.{◌≡◌, ◌+◌, ◌*◌, ◌≤◌, length, map};
ghost use Rattle.std.proofs.lemmas.List.Edits.{sets};
ghost use Rattle.format.specs.Field.{word_bytes};
ghost use Rattle.format.specs.Rows.{bone_of};
ghost use Rattle.format.specs.Layout.{base, after, pad16, all_names, layout};
ghost use Rattle.format.specs.Write.{named};
ghost use Rattle.blocks.specs.Places.{section_of};
ghost use Rattle.write.specs.Placing.{meant_starts};
ghost use Rattle.format.specs.Words.{meant_words4};
ghost use Rattle.write.specs.Records.{block};
ghost use Rattle.tables.specs.Working.{lists};
ghost use Rattle.write.specs.Filling.{NamesPart, BonesPart, ListsRoom, lists_stored, bones_stored, PartsPlaced};

use crate::block::put_block;
use crate::chains::put_chains;
use crate::names::put_names;
use crate::skeleton::put_skeleton;
use crate::starts::{Starts, fill};
use crate::words::{put_run, put_zeros};
use blocks::places::Section;
use format::{BONE_WORDS, Words4};
use tables::working::Working;

// How many there are of what, beside the bones.
#[derive(Clone, Copy)]
pub struct Sizes {
    pub buckets: usize,
    // child entries
    pub children: usize,
    // name bytes, the zeros among them
    pub names: usize,
}

// Stores 16-bit numbers and their fill.
fn put_list(d: &mut [u8], at: usize, h: &[u16])
    requires { after at (2 * length h.now) ≤ length d.old }
    ensures bytes { d.new ≡ sets d.old at (pad16 (word_bytes 2 h.now)) }
{
    put_run(d, at, h);
    let n = 2 * h.len();
    put_zeros(d, at + n, fill(n));
}

// Stores the names, `size` bytes, and their fill.
fn put_names_part(d: &mut [u8], at: usize, size: usize, bones: &[[u32; BONE_WORDS]], names: Section)
    requires { NamesPart (section_of names) (map bone_of bones.now) at size (length d.old) }
    ensures bytes { let lent = section_of names.entry in
        d.new ≡ sets d.old at (pad16 (all_names (named lent (map bone_of bones.now)))) }
{
    let end = at + size;
    put_names(&mut d[at..end], bones, names);
    put_zeros(d, end, fill(size));
}

// Stores the bones block and the names.
fn fill_bones(d: &mut [u8], at: Starts, size: usize, bones: &[[u32; BONE_WORDS]], names: Section)
    requires { BonesPart (meant_starts at) (section_of names) bones.now size (length d.old) }
    ensures bytes { let lent = section_of names.entry in
        d.new ≡ bones_stored (meant_starts at) lent (map bone_of bones.now) d.old }
{
    put_block(d, at.bones, at.names, bones);
    put_names_part(d, at.names, size, bones, names);
}

// Stores matrices, parents and child entries.
fn fill_lists(
    d: &mut [u8],
    at: Starts,
    inverse: &[u32],
    local: &[u32],
    parents: &[u16],
    children: &[u16],
)
    requires { ListsRoom (meant_starts at) inverse.now local.now parents.now children.now (length d.old) }
    ensures bytes { d.new ≡ lists_stored (meant_starts at) inverse.now local.now parents.now children.now d.old }
{
    put_run(d, at.inverse, inverse);
    put_run(d, at.local, local);
    put_list(d, at.parents, parents);
    put_list(d, at.children, children);
}

// Stores the whole section.
pub(crate) fn fill_section(
    d: &mut [u8],
    at: Starts,
    free: Words4,
    s: Sizes,
    bones: &[[u32; BONE_WORDS]],
    names: Section,
    tables: &Working,
)
    requires { PartsPlaced (meant_starts at) s (section_of names) bones.now (lists tables.now) (length d.old) }
    ensures bytes { let lent = section_of names.entry in
        d.new ≡ sets d.old 0 (layout (named lent (map bone_of bones.now)) (meant_words4 free)) }
{
    let n = bones.len();
    let words = format::MATRIX_WORDS * n;
    put_skeleton(d, at, free, n, s.buckets, s.children);
    put_chains(
        d,
        at.buckets,
        at.entries,
        &tables.buckets[..s.buckets],
        tables.entries,
    );
    fill_bones(d, at, s.names, bones, names);
    fill_lists(
        d,
        at,
        &tables.inverse[..words],
        &tables.local[..words],
        &tables.parents[..n],
        &tables.children[..s.children],
    );
}
