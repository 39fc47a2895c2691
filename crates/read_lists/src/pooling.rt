// What the pool says of a list that is to be read (docs/FORMAT.md, "Finding bytes").
ghost use Rattle.blocks.specs.Kinds.{meant_table};
ghost use Rattle.read_lists.specs.Pooling.{Leads};

use blocks::kinds::{Kind, ListTable};
use blocks::pool;
use blocks::pool::Stored;

// How a list comes into its table, by what the pool has at its address. (Four ways, of which two have a value: no Option.)
#[derive(Clone, Copy)]
pub enum Way {
    // a list of its kind, in its own table
    Again(Stored),
    // a list of its kind, in the other table
    Copy(Stored),
    // another kind: it is read anew and left out of the pool
    Over,
    // nothing: it is read anew and pooled
    New,
}

// The way of a list at an address.
pub fn way_of(pool: &[u64], table: ListTable, va: u64) -> Way
    ensures answer { Leads pool.now (meant_table table) va result }
{
    let list = Kind::List(table);
    match pool::find(pool, va) {
        None => Way::New,
        Some(found) if found.kind == list => Way::Again(found.stored),
        Some(found) if found.kind.same(list) => Way::Copy(found.stored),
        Some(_) => Way::Over,
    }
}
