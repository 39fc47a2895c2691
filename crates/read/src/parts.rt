// The parts of a skeleton, each read into its own tables (docs/FORMAT.md, "Reading and writing a skeleton"): buckets with chains,
// bones with names, the two lists of matrices, parents and children. These are the steps of one reading: every table is zero
// before it, and of a refusal nothing is said of the tables. Where a part stands its length is given: in rows, and in words of a list
// of matrices. (Each step is lent the tables that it fills, and no struct of all: of the others it would have to say that they stay.)
ghost use Rattle.std.specs.Prelude.{◌≡◌};
ghost use Rattle.blocks.specs.Places.{section_of};
ghost use Rattle.format.specs.Tables.{inverse_table, parents_table};
ghost use Rattle.read_chains.specs.Lent.{SameTables};
ghost use Rattle.read.specs.Parts.{ReadsChains, ReadsBonesIn, ReadsListIn, ReadsRows, ReadsPair, KeepsPart};

use blocks::places::Section;
use format::Refusal;
use read_bones::columns;
use read_chains::{Tables, Used};
use read_lists::{Indices, ListKind, Matrices};
use read_records::header::Header;

// ---- one part

// The buckets with their chains, in the tables that chains are read into.
fn buckets_in(
    section: Section,
    va: u64,
    n: u16,
    tables: &mut Tables,
) -> Result<Option<usize>, Refusal>
    ensures chains { ReadsChains (section_of section.entry) va n result
        tables.old.buckets.now tables.new.buckets.now
        tables.old.entries.now tables.new.entries.now tables.old.pool.now tables.new.pool.now }
    ensures same { SameTables tables.old tables.new }
{
    let used = Used {
        buckets: 0,
        entries: 0,
    };
    let array = read_chains::read_buckets(section, va, n, tables, used)?;
    Ok(array.map(|array| array.stored.count as usize))
}

// The same, each table lent by itself. (Two functions: for three tables the proof of one, made as `bones_in` is, did not close.)
fn chains_in(
    section: Section,
    va: u64,
    n: u16,
    buckets: &mut [u32],
    entries: &mut [u32],
    pool: &mut [u64],
) -> Result<Option<usize>, Refusal>
    ensures { ReadsChains (section_of section.entry) va n result
        buckets.old buckets.new
        entries.old entries.new pool.old pool.new }
{
    let mut tables = Tables {
        buckets,
        entries,
        pool,
    };
    buckets_in(section, va, n, &mut tables)
}

// The bones with their names.
fn bones_in(
    section: Section,
    pointer: u64,
    n: u16,
    bones: &mut [u32],
    pool: &mut [u64],
) -> Result<Option<usize>, Refusal>
    ensures { ReadsBonesIn (section_of section.entry) pointer n result
        bones.old bones.new pool.old pool.new }
{
    let mut tables = read_bones::Tables { bones, pool };
    let block = read_bones::read_block(section, pointer, n as usize, &mut tables, 0)?;
    Ok(block.map(|block| block.stored.count as usize))
}

// A list; `other` is the other table of its kind.
fn list_in<K: ListKind>(
    section: Section,
    which: K,
    va: u64,
    n: u16,
    own: &mut [K::Word],
    other: &[K::Word],
    pool: &mut [u64],
) -> Result<Option<usize>, Refusal>
    ensures { ReadsListIn (section_of section.entry) (K.table which) va n (K.Word.numbers other.now) result
        (K.Word.numbers own.old) (K.Word.numbers own.new) pool.old pool.new }
{
    let list = read_lists::read_list(section, which, va, n, own, 0, other, pool)?;
    Ok(list.map(|list| list.stored.count as usize))
}

// ---- two parts

// The buckets with their chains, then the bones with their names.
pub fn read_rows(
    section: Section,
    h: Header,
    bones: &mut [u32],
    buckets: &mut [u32],
    entries: &mut [u32],
    pool: &mut [u64],
) -> Result<(Option<usize>, Option<usize>), Refusal>
    ensures tables { ReadsRows (section_of section.entry) h result
        bones.old bones.new buckets.old buckets.new
        entries.old entries.new pool.old pool.new }
{
    let chains = chains_in(
        section,
        h.buckets_at,
        h.bucket_count,
        buckets,
        entries,
        pool,
    )?;
    let block = bones_in(section, h.bones_at, h.bone_count, bones, pool)?;
    Ok((chains, block))
}

// The list of n rows at an address, then the list of m rows of the other table of its kind.
fn read_pair<K: ListKind>(
    section: Section,
    which: K,
    va: u64,
    n: u16,
    other_va: u64,
    m: u16,
    own: &mut [K::Word],
    other: &mut [K::Word],
    pool: &mut [u64],
) -> Result<(Option<usize>, Option<usize>), Refusal>
    ensures { ReadsPair (section_of section.entry) (K.table which) va n other_va m result
        (K.Word.numbers own.old) (K.Word.numbers own.new)
        (K.Word.numbers other.old) (K.Word.numbers other.new) pool.old pool.new }
{
    let first = list_in(section, which, va, n, own, other, pool)?;
    let second = list_in(section, which.other(), other_va, m, other, own, pool)?;
    Ok((first, second))
}

// The inverse matrices, then the local ones.
pub fn read_matrices(
    section: Section,
    h: Header,
    inverse: &mut [u32],
    local: &mut [u32],
    pool: &mut [u64],
) -> Result<(Option<usize>, Option<usize>), Refusal>
    ensures tables { ReadsPair (section_of section.entry) inverse_table h.inverse_at h.bone_count h.local_at h.bone_count result
        inverse.old inverse.new local.old local.new pool.old pool.new }
{
    read_pair(
        section,
        Matrices::Inverse,
        h.inverse_at,
        h.bone_count,
        h.local_at,
        h.bone_count,
        inverse,
        local,
        pool,
    )
}

// The parents, then the child entries.
pub fn read_indices(
    section: Section,
    h: Header,
    parents: &mut [u16],
    children: &mut [u16],
    pool: &mut [u64],
) -> Result<(Option<usize>, Option<usize>), Refusal>
    ensures tables { ReadsPair (section_of section.entry) parents_table h.parents_at h.bone_count h.children_at h.child_count result
        parents.old parents.new children.old children.new pool.old pool.new }
{
    read_pair(
        section,
        Indices::Parents,
        h.parents_at,
        h.bone_count,
        h.children_at,
        h.child_count,
        parents,
        children,
        pool,
    )
}

// The kept words of the bones, where bones and local matrices stand. (The matrices by `&mut`, and they stay: of a field `&mut [u32]` that is
// passed as `&[u32]` a proof knows the length alone afterwards.)
pub fn keep(bones: &mut [u32], rows: Option<usize>, local: &mut [u32], words: Option<usize>)
    ensures bones { KeepsPart rows words local.old bones.old bones.new }
    ensures local { local.new ≡ local.old }
{
    if let (Some(n), Some(w)) = (rows, words) {
        columns::keep_columns(bones, n, local, w);
    }
}
