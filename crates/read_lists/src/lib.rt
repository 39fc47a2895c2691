// Plain arrays of a section, read into lent tables under the pool (docs/FORMAT.md, "Finding bytes"; `read_struct_array`): the two
// lists of matrices, sixteen 32-bit words a row, and the two lists of 16-bit indices, one word a row.
#![tactic(auto)]

ghost use Rattle.std.specs.Prelude.{◌≡◌};
ghost use Rattle.blocks.specs.Places.{section_of};
ghost use Rattle.read_lists.specs.Reads.{ReadsList};

use crate::pooling::Way;
use blocks::kinds::Kind;
use blocks::places::Section;
use blocks::pool;
use blocks::pool::Stored;
use format::Refusal;

pub mod kinds; // the kinds of lists, and the two tables of each
mod pooling; // what the pool says of a list
mod storing; // words stored as new rows, from bytes or from the other table

pub use kinds::{Indices, ListKind, Matrices};

// A list that was read: its first word in its own table and the count of its words, and how many words of the table are used now.
#[derive(Clone, Copy, Debug, PartialEq, Eq)]
pub struct List {
    pub stored: Stored,
    pub used: usize,
}

// The list of n rows at an address, behind the `used` words of its own table; `other` is the other table of the kind. None where
// the address is 0. The pool is asked before the count: a list of the kind is given again, and copied if it lies in the other
// table; at another kind's address the list is read anew and left out of the pool. Refusals: 10, 11, then 1 for the rows, then 1
// for the pool's row. `own` then holds the rows and zeros behind them, and `pool` the list's row; of a refusal nothing is said of
// either.
#[tactic(auto, using(crate::proofs::Reading::reads_absent, crate::proofs::Reading::reads_again))]
pub fn read_list<K: ListKind>(
    section: Section,
    which: K,
    va: u64,
    n: u16,
    own: &mut [K::Word],
    used: usize,
    other: &[K::Word],
    pool: &mut [u64],
) -> Result<Option<List>, Refusal>
    ensures list { ReadsList (section_of section.entry) (K.table which) va n used (K.Word.numbers other.now) result
        (K.Word.numbers own.old) (K.Word.numbers own.new) pool.old pool.new }
{
    if va == 0 {
        return Ok(None);
    }
    let table = which.table();
    match pooling::way_of(pool, table, va) {
        Way::Again(stored) => Ok(Some(List { stored, used })),
        Way::Copy(stored) => storing::copy_list::<K>(other, stored, own, used).map(Some),
        Way::Over => storing::new_list::<K>(section, va, n, own, used).map(Some),
        Way::New => {
            let list = storing::new_list::<K>(section, va, n, own, used)?;
            pool::put(pool, va, Kind::List(table), list.stored)?;
            Ok(Some(list))
        }
    }
}
