// One bone of a section with its name (docs/FORMAT.md, "Records"; `Bone::read`), stored as a row of the bones table and pooled.
ghost use Rattle.std.specs.Prelude.{◌≡◌, ◌+◌, ◌≤◌};
ghost use Rattle.format.specs.Field.{field_at};
ghost use Rattle.format.specs.Tables.{bone};
ghost use Rattle.blocks.specs.Places.{section_of};
ghost use Rattle.blocks.specs.Hashed.{PlacedAt};
ghost use Rattle.blocks.specs.Pool.{pool_row, Stores};
ghost use Rattle.rows.specs.Value.{meant_bone};
ghost use Rattle.format.specs.Words.{meant_words3, meant_words4};
ghost use Rattle.read_bones.specs.Lent.{SameTables};
ghost use Rattle.read_bones.specs.Bones.{words_at3, words_at4, bone_fields, ReadsName, NewName, BoneFrom, NewBone, ReadsBone};

use crate::Tables;
use blocks::kinds::Kind;
use blocks::places::Section;
use blocks::pool;
use blocks::pool::{Spot, Stored};
use format::{Place, Refusal, Words3, Words4};
use rows::Bone;

// A bone that was read: its row, and how many rows of bones are used now.
#[derive(Clone, Copy)]
pub struct Row {
    pub row: u64,
    pub used: usize,
}

// ---- names

// The name at an address where nothing was read before: 10 and 11 for the address, 1 where the pool has no row for it. The search
// for the address in the pool ended at the spot.
fn new_name(section: Section, va: u64, spot: Spot, pool: &mut [u64]) -> Result<Place, Refusal>
    requires { PlacedAt pool.old va spot }
    ensures { NewName (section_of section.entry) va result pool.old pool.new }
{
    let name = section.name_at(va)?;
    let stored = Stored {
        first: name.address,
        count: name.size,
    };
    pool::put_at(pool, spot, va, Kind::String, stored)?;
    Ok(name)
}

// Where the name at an address lies: 12 where another kind was read there, then what a new name refuses. Address 0 is no name.
fn read_name(section: Section, va: u64, pool: &mut [u64]) -> Result<Place, Refusal>
    ensures { ReadsName (section_of section.entry) va result pool.old pool.new }
{
    if va == 0 {
        return Ok(Place {
            address: 0,
            size: 0,
        });
    }
    let spot = pool::place(pool, va);
    match pool::cached_at(pool, Kind::String, spot)? {
        None => new_name(section, va, spot, pool),
        Some(stored) => Ok(Place {
            address: stored.first,
            size: stored.count,
        }),
    }
}

// ---- the fields of a bone (No From: not any bytes are three or four words, but those of a record; two, since the structs have named fields.)

// Three words from `at` on.
fn words3(b: &[u8], at: usize) -> Words3
    requires { at ≤ 58 }
    ensures { meant_words3 result ≡ words_at3 b.now at }
{
    Words3 {
        x: fields::read::<u32>(b, at),
        y: fields::read::<u32>(b, at + 4),
        z: fields::read::<u32>(b, at + 8),
    }
}

// The first four words.
fn words4(b: &[u8]) -> Words4
    ensures { meant_words4 result ≡ words_at4 b.now }
{
    Words4 {
        x: fields::read::<u32>(b, 0),
        y: fields::read::<u32>(b, 4),
        z: fields::read::<u32>(b, 8),
        w: fields::read::<u32>(b, 12),
    }
}

// The bone that 70 bytes hold, with its name. Its kept words are zeros: column 4 is not read yet.
fn bone_in(b: &[u8], name: Place) -> Bone
    ensures { meant_bone result ≡ bone_fields b.now name }
{
    Bone {
        rotation: words4(b),
        translation: words3(b, 16),
        scale: words3(b, 32),
        next_sibling: fields::read::<u16>(b, 48),
        parent: fields::read::<u16>(b, 50),
        name: name,
        flags: fields::read::<u16>(b, 64),
        index: fields::read::<u16>(b, 66),
        tag: fields::read::<u16>(b, 68),
        kept: Words4 {
            x: 0,
            y: 0,
            z: 0,
            w: 0,
        },
    }
}

// ---- bones

// Pools a bone as the row that it was given: 1 where the pool has no row for it.
fn pool_bone(pool: &mut [u64], va: u64, row: usize) -> Result<(), Refusal>
    ensures { Stores (pool_row va bone row 1) result pool.old pool.new }
{
    let spot = pool::place(pool, va);
    let stored = Stored {
        first: row as u64,
        count: 1,
    };
    pool::put_at(pool, spot, va, Kind::Bone, stored)
}

// The bone that 70 bytes at an address hold: what its name refuses, then 1 where no row is left for it in the table or the pool.
fn bone_from(
    section: Section,
    b: &[u8],
    va: u64,
    tables: &mut Tables,
    used: usize,
) -> Result<Row, Refusal>
    ensures tables { BoneFrom (section_of section.entry) b.now va used result
        tables.old.bones.now tables.new.bones.now tables.old.pool.now tables.new.pool.now }
    ensures same { SameTables tables.old tables.new }
{
    let name = read_name(section, fields::read::<u64>(b, 56), tables.pool)?;
    rows::put_bone(tables.bones, used, bone_in(b, name))?;
    pool_bone(tables.pool, va, used)?;
    Ok(Row {
        row: used as u64,
        used: used + 1,
    })
}

// The bone at an address where nothing was read before: its 70 bytes must stand (10, 11).
fn new_bone(section: Section, va: u64, tables: &mut Tables, used: usize) -> Result<Row, Refusal>
    ensures tables { NewBone (section_of section.entry) va used result
        tables.old.bones.now tables.new.bones.now tables.old.pool.now tables.new.pool.now }
    ensures same { SameTables tables.old tables.new }
{
    let b = section.slice(va, format::BONE_READ)?;
    bone_from(section, b, va, tables, used)
}

// The row of the bone at an address, stored in the row `used` if it is yet to be read: 12 where another kind was read there, then
// what a new bone refuses.
pub fn read_bone(
    section: Section,
    va: u64,
    tables: &mut Tables,
    used: usize,
) -> Result<Row, Refusal>
    ensures tables { ReadsBone (section_of section.entry) va used result
        tables.old.bones.now tables.new.bones.now tables.old.pool.now tables.new.pool.now }
    ensures same { SameTables tables.old tables.new }
{
    match tables.pooled(Kind::Bone, va)? {
        None => new_bone(section, va, tables, used),
        Some(stored) => Ok(Row {
            row: stored.first,
            used,
        }),
    }
}
