// Reading a skeleton from a section into lent tables (docs/FORMAT.md, "Reading and writing a skeleton"; `Skeleton::read`).
#![tactic(auto)]

ghost use Rattle.std.specs.Prelude.{◌≡◌};
ghost use Rattle.format.specs.Tables.{no_rows};
ghost use Rattle.format.specs.Read.{read_skeleton};
ghost use Rattle.blocks.specs.Places.{section_of};
ghost use Rattle.read.specs.Lent.{lists, cleared_all, read_room, SameTables};
ghost use Rattle.read.specs.Reads.{Fills, Reads};

use blocks::kinds::Kind;
use blocks::places::Section;
use blocks::pool;
use blocks::pool::Stored;
use format::{Refusal, Words4};
use read_records::header;

mod parts; // the parts, one after another

// A skeleton that was read: the fields that stay, and of each part that stands how long it is, in rows, and in words of a list of matrices.
// Each part's rows are the first of its table.
#[derive(Clone, Copy, Debug, PartialEq, Eq)]
pub struct Skeleton {
    // the kind word, as it is stored
    pub kind: u32,
    pub free: Words4,
    // the stored counts
    pub bucket_count: u16,
    pub bone_count: u16,
    pub child_count: u16,
    pub buckets: Option<usize>,
    pub bones: Option<usize>,
    pub inverse: Option<usize>,
    pub local: Option<usize>,
    pub parents: Option<usize>,
    pub children: Option<usize>,
}

// The tables that a reading is lent, and the pool.
#[derive(Drop)]
pub struct Tables<'a> {
    pub bones: &'a mut [u32],
    pub buckets: &'a mut [u32],
    pub entries: &'a mut [u32],
    pub inverse: &'a mut [u32],
    pub local: &'a mut [u32],
    pub parents: &'a mut [u16],
    pub children: &'a mut [u16],
    pub pool: &'a mut [u64],
}

impl Tables<'_> {
    // Zeros in every table.
    #[inline(always)]
    pub fn clear(&mut self)
        ensures tables { lists self.new ≡ cleared_all (lists self.old) }
        ensures same { SameTables self.old self.new }
    {
        self.bones.fill(0);
        self.buckets.fill(0);
        self.entries.fill(0);
        self.inverse.fill(0);
        self.local.fill(0);
        self.parents.fill(0);
        self.children.fill(0);
        self.pool.fill(0);
    }
}

// The skeleton at an address, read into tables that are all zero. Of a refusal nothing is said of the tables.
fn fill(section: Section, root: u64, t: &mut Tables) -> Result<Skeleton, Refusal>
    ensures filled { Fills (section_of section.entry) root result (lists t.old) (lists t.new) }
    ensures same { SameTables t.old t.new }
{
    let h = header::header_at(section, root)?;
    let (buckets, bones) = parts::read_rows(section, h, t.bones, t.buckets, t.entries, t.pool)?;
    let (inverse, local) = parts::read_matrices(section, h, t.inverse, t.local, t.pool)?;
    let (parents, children) = parts::read_indices(section, h, t.parents, t.children, t.pool)?;
    parts::keep(t.bones, bones, t.local, local);
    pool::put(t.pool, root, Kind::Skeleton, Stored { first: 0, count: 1 })?;
    Ok(Skeleton {
        kind: h.kind,
        free: h.free,
        bucket_count: h.bucket_count,
        bone_count: h.bone_count,
        child_count: h.child_count,
        buckets,
        bones,
        inverse,
        local,
        parents,
        children,
    })
}

// Reads the skeleton at a root address of a section, with an empty pool. Then the tables hold the rows read and zeros behind them: bones 21
// words a row, buckets one, entries three (tag, position, link), matrices sixteen,
// parents and children one. Root 0 gives none. Refusals, the first in reading order: 10 and 11 for the 98 bytes of the record,
// then those of buckets and chains, bones and names (13 for a bones pointer from 1 to 15), inverse, local, parents, children (12,
// 10 and 11 for an address, 1 where a table has no row left), and 1 where the pool has no row for the skeleton. After none and
// after a refusal every table is zero; the pool is zero after every call.
pub fn read(section: Section, root: u64, tables: &mut Tables) -> Result<Option<Skeleton>, Refusal>
    ensures tables { Reads (read_skeleton (section_of section.entry) (read_room (lists tables.old)) root no_rows) result
        (lists tables.old) (lists tables.new) }
    ensures same { SameTables tables.old tables.new }
{
    tables.clear();
    if root == 0 {
        return Ok(None);
    }
    match fill(section, root, tables) {
        Ok(s) => {
            tables.pool.fill(0);
            Ok(Some(s))
        }
        Err(r) => {
            tables.clear();
            Err(r)
        }
    }
}
