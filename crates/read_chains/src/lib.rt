// The bucket array of a skeleton with its chains (docs/FORMAT.md, "Reading and writing a skeleton"; `Skeleton::read`, the hash
// buckets). Three lent tables take what is read: buckets, one word a row; entries, three words a row (tag, position, link); and
// the pool. A link is 0, or one more than the row of an entry. A refusal leaves the tables as they happen to be: whoever lends
// them clears them.
#![tactic(auto)]

ghost use Rattle.blocks.specs.Places.{section_of};
ghost use Rattle.blocks.specs.Pool.{FindsAs};
ghost use Rattle.format.specs.Tables.{buckets};
ghost use Rattle.read_chains.specs.Lent.{SameTables};
ghost use Rattle.read_chains.specs.Arrays.{ReadsBucket, ReadsPointers, ReadsNewArray, ReadsBuckets};

use blocks::kinds::Kind;
use blocks::places::Section;
use blocks::pool;
use blocks::pool::Stored;
use format::{POINTER, Refusal};

mod chains; // entries, chains, and the link to a chain's head

// How many rows of buckets and of entries are used. (The tables are lent whole: the next row is stored behind.)
#[derive(Clone, Copy, Debug, PartialEq, Eq)]
pub struct Used {
    pub buckets: usize,
    pub entries: usize,
}

// A bucket array that was read: its first row and how many there are, and the rows that are used now.
#[derive(Clone, Copy, Debug, PartialEq, Eq)]
pub struct Buckets {
    pub stored: Stored,
    pub used: Used,
}

// The lent tables that chains are read into. (Not the tables of a whole reading: of the others each step would have to say that they stay.)
#[derive(Drop)]
pub struct Tables<'a> {
    pub buckets: &'a mut [u32],
    pub entries: &'a mut [u32],
    pub pool: &'a mut [u64],
}

// The bucket of one pointer, stored in a row after its chain: what the chain refuses, then 1.
fn read_bucket(section: Section, va: u64, tables: &mut Tables, used: Used) -> Result<Used, Refusal>
    ensures tables { ReadsBucket (section_of section.entry) va used.buckets used.entries result
        tables.old.buckets.now tables.new.buckets.now
        tables.old.entries.now tables.new.entries.now tables.old.pool.now tables.new.pool.now }
    ensures same { SameTables tables.old tables.new }
{
    let head = chains::read_head(section, va, tables.entries, used.entries, tables.pool)?;
    if used.buckets >= tables.buckets.len() {
        return Err(Refusal::TableTooShort);
    }
    tables.buckets[used.buckets] = head.link;
    Ok(Used {
        buckets: used.buckets + 1,
        entries: head.used,
    })
}

// The buckets of the pointers that some bytes hold, in their order.
fn read_pointers(
    section: Section,
    bytes: &[u8],
    tables: &mut Tables,
    used: Used,
) -> Result<Used, Refusal>
    ensures tables { ReadsPointers (section_of section.entry) bytes.now used.buckets used.entries result
        tables.old.buckets.now tables.new.buckets.now
        tables.old.entries.now tables.new.entries.now tables.old.pool.now tables.new.pool.now }
    ensures same { SameTables tables.old tables.new }
{
    let (pointers, _) = bytes.as_chunks::<POINTER>();
    let mut now = used;
    for pointer in pointers {
        now = read_bucket(section, u64::from_le_bytes(*pointer), tables, now)?;
    }
    Ok(now)
}

// An array that is yet to be read: all its bytes must stand (10, 11), then its buckets, then 1 for its row of the pool.
fn read_new(
    section: Section,
    va: u64,
    count: u16,
    tables: &mut Tables,
    used: Used,
) -> Result<Buckets, Refusal>
    ensures tables { ReadsNewArray (section_of section.entry) va count used.buckets used.entries result
        tables.old.buckets.now tables.new.buckets.now
        tables.old.entries.now tables.new.entries.now tables.old.pool.now tables.new.pool.now }
    ensures same { SameTables tables.old tables.new }
{
    let bytes = section.array(va, POINTER * (count as usize))?;
    let now = read_pointers(section, bytes, tables, used)?;
    let stored = Stored {
        first: used.buckets as u64,
        count: count as u64,
    };
    pool::put(tables.pool, va, Kind::Buckets, stored)?;
    Ok(Buckets { stored, used: now })
}

// The array that the pool has at an address; 12 where another kind was read there.
fn pooled(tables: &Tables, va: u64) -> Result<Option<Stored>, Refusal>
    ensures answer { FindsAs tables.now.pool.now buckets va result }
{
    pool::cached_as(tables.pool, Kind::Buckets, va)
}

// The bucket array of so many pointers at an address, none at address 0; the `used` rows of buckets and of entries stand before.
// The pool is asked first: an array already read is given again, whatever the count, and takes no new rows. An array of count 0 is
// not looked for, and is pooled. 12 where another kind was read there, 10 and 11 where its bytes do not stand, then what its chains
// refuse, and 1 where a bucket or a row of the pool has no room.
pub fn read_buckets(
    section: Section,
    va: u64,
    count: u16,
    tables: &mut Tables,
    used: Used,
) -> Result<Option<Buckets>, Refusal>
    ensures tables { ReadsBuckets (section_of section.entry) va count used.buckets used.entries result
        tables.old.buckets.now tables.new.buckets.now
        tables.old.entries.now tables.new.entries.now tables.old.pool.now tables.new.pool.now }
    ensures same { SameTables tables.old tables.new }
{
    if va == 0 {
        return Ok(None);
    }
    if let Some(stored) = pooled(tables, va)? {
        return Ok(Some(Buckets { stored, used }));
    }
    read_new(section, va, count, tables, used).map(Some)
}
