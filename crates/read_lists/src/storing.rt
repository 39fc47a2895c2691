// Words stored as new rows of a lent table, behind its `used` words, all or none: read from a section's bytes, or copied from the
// other table of the kind (docs/FORMAT.md, "Finding bytes", "Who can cause a refusal": 1 for an array after its bytes). (The table is lent whole,
// with how much of it is used: the next row is stored behind.)
ghost use Rattle.std.specs.Prelude.{◌≡◌, ◌*◌, ◌/◌, length};
ghost use Rattle.blocks.specs.Places.{section_of};
ghost use Rattle.read_lists.specs.Storing.{Copies, ReadsNewList};

use crate::{List, ListKind};
use blocks::places::Section;
use blocks::pool::Stored;
use fields::{Pod, runs};
use format::Refusal;

// The list of n rows at an address.
pub fn new_list<K: ListKind>(
    section: Section,
    va: u64,
    n: u16,
    own: &mut [K::Word],
    used: usize,
) -> Result<List, Refusal>
    ensures list { ReadsNewList (section_of section.entry) va K.Word.SIZE (K.ROW * n) (K.ROW * (length own.old / K.ROW)) used result
        (K.Word.numbers own.old) (K.Word.numbers own.new) }
{
    let m = K::ROW * n as usize;
    let bytes = section.array(va, <K::Word as Pod>::SIZE * m)?;
    let rows = K::ROW * (own.len() / K::ROW);
    let Ok(()) = runs::load(bytes, 0, m, &mut own[..rows], used) else {
        return Err(Refusal::TableTooShort);
    };
    Ok(List {
        stored: Stored {
            first: used as u64,
            count: m as u64,
        },
        used: used + m,
    })
}

// The list that is stored in the other table; 1 also if it is not there.
pub fn copy_list<K: ListKind>(
    other: &[K::Word],
    stored: Stored,
    own: &mut [K::Word],
    used: usize,
) -> Result<List, Refusal>
    ensures list { Copies (K.Word.numbers other.now) stored.first stored.count (K.ROW * (length own.old / K.ROW)) used result
        (K.Word.numbers own.old) (K.Word.numbers own.new) }
{
    let n = stored.count as usize;
    let rows = K::ROW * (own.len() / K::ROW);
    let Ok(()) = runs::copy(other, stored.first as usize, n, &mut own[..rows], used) else {
        return Err(Refusal::TableTooShort);
    };
    Ok(List {
        stored: Stored {
            first: used as u64,
            count: stored.count,
        },
        used: used + n,
    })
}
