// The bones block of a skeleton (docs/FORMAT.md, "Reading and writing a skeleton"; `SkeletonBonesBlock::read`). Two lent tables take
// what is read: bones, 21 words a row, and the pool. A refusal leaves them as they happen to be: whoever lends them clears them.
// (The table of bones is lent whole, with how many of its rows are used: the next row is stored behind them.)
#![tactic(auto)]

ghost use Rattle.std.specs.Prelude.{◌≡◌, ◌≤◌};
ghost use Rattle.blocks.specs.Kinds.{meant_kind};
ghost use Rattle.blocks.specs.Places.{section_of};
ghost use Rattle.blocks.specs.Pool.{FindsAs};
ghost use Rattle.read_bones.specs.Lent.{SameTables};
ghost use Rattle.read_bones.specs.Blocks.{ReadsBones, NewBlock, ReadsBlock};

use blocks::kinds::Kind;
use blocks::places::Section;
use blocks::pool;
use blocks::pool::Stored;
use format::Refusal;

pub mod bone; // one bone with its name
pub mod columns; // the kept words of the bones

// The bytes of the block's header, and of a bone, as parts of an address.
const HEADER_SIZE: u64 = format::BLOCK_HEADER_SIZE as u64;

const BONE_SIZE: u64 = format::BONE_SIZE as u64;

// A bones block that was read: its first member and how many there are, and how many rows of bones are used now. (`List` of `read_lists` has the
// same fields: one struct in `blocks` for a list and a block would need a name of neither.)
#[derive(Clone, Copy, Debug, PartialEq, Eq)]
pub struct Block {
    pub stored: Stored,
    pub used: usize,
}

// The lent tables that bones are read into.
#[derive(Drop)]
pub struct Tables<'a> {
    pub bones: &'a mut [u32],
    pub pool: &'a mut [u64],
}

impl Tables<'_> {
    // What the pool has at an address as a kind; 12 where another kind was read there.
    fn pooled(&self, kind: Kind, va: u64) -> Result<Option<Stored>, Refusal>
        ensures answer { FindsAs self.now.pool.now (meant_kind kind) va result }
    {
        pool::cached_as(self.pool, kind, va)
    }
}

// The n bones from an address on, 80 bytes from one to the next: how many rows of bones are used now. The rows that they were given
// are not kept: they are those from `used` on, unless a bone was read before at one of the addresses, which no single reading does.
fn read_bones(
    section: Section,
    va: u64,
    n: usize,
    tables: &mut Tables,
    used: usize,
) -> Result<usize, Refusal>
    ensures tables { ReadsBones (section_of section.entry) va n used result
        tables.old.bones.now tables.new.bones.now tables.old.pool.now tables.new.pool.now }
    ensures same { SameTables tables.old tables.new }
{
    let mut at = va;
    let mut row = used;
    for _ in 0..n {
        let read = bone::read_bone(section, at, tables, row)?;
        row = read.used;
        at = at.wrapping_add(BONE_SIZE);
    }
    Ok(row)
}

// The block that starts before a pointer to its first bone, which was not read before: its header's address must be a legal
// cursor (10, 11), a half's end too, and no byte of the header is read; then what its bones refuse, then 1 where the pool has no
// row for it.
fn new_block(
    section: Section,
    pointer: u64,
    n: usize,
    tables: &mut Tables,
    used: usize,
) -> Result<Block, Refusal>
    requires { 16 ≤ pointer }
    ensures tables { NewBlock (section_of section.entry) pointer n used result
        tables.old.bones.now tables.new.bones.now tables.old.pool.now tables.new.pool.now }
    ensures same { SameTables tables.old tables.new }
{
    let va = pointer - HEADER_SIZE;
    section.rest(va)?;
    let now = read_bones(section, pointer, n, tables, used)?;
    let stored = Stored {
        first: used as u64,
        count: n as u64,
    };
    pool::put(tables.pool, va, Kind::Block, stored)?;
    Ok(Block { stored, used: now })
}

// The bones block of n bones, by the pointer to its first bone. Pointer 0 or 16 is no block; refusals: 13 for a pointer from 1 to
// 15, 12 where another kind was read at the block's address, 10 and 11 for its header's address, then those of its bones in turn
// (12, 10 and 11 for a bone, the same for its name, 1 where a table has no row for it), 1 where the pool has no row for the
// block. `used` is how many rows of the bones table are used before.
pub fn read_block(
    section: Section,
    pointer: u64,
    n: usize,
    tables: &mut Tables,
    used: usize,
) -> Result<Option<Block>, Refusal>
    ensures tables { ReadsBlock (section_of section.entry) pointer n used result
        tables.old.bones.now tables.new.bones.now tables.old.pool.now tables.new.pool.now }
    ensures same { SameTables tables.old tables.new }
{
    if pointer == 0 {
        return Ok(None);
    }
    if pointer < HEADER_SIZE {
        return Err(Refusal::BonesPointer);
    }
    if pointer == HEADER_SIZE {
        return Ok(None);
    }
    if let Some(stored) = tables.pooled(Kind::Block, pointer - HEADER_SIZE)? {
        return Ok(Some(Block { stored, used }));
    }
    new_block(section, pointer, n, tables, used).map(Some)
}
