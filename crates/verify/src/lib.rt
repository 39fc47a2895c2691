// The skeleton check (docs/FORMAT.md, "Lookup and check"): a section is read, all that can be derived is derived from the bones read, and
// the two are compared word by word.
#![tactic(auto)]

mod steps; // the steps, of the struct of tables

ghost use Rattle.blocks.specs.Places.{section};
ghost use Rattle.read.specs.Lent.{lists, SameTables};
ghost use Rattle.tables.specs.Working.{lists as working_lists, SameTables as SameWorking};
ghost use Rattle.verify.specs.Checks.{Checks};

use crate::steps::{chains_step, indices_step, matrices_step};
use blocks::places::Section;
use check_steps::{begin, count_parts, settle};
use format::Refusal;
use read::Tables;
use tables::working::Working;

// Checks the skeleton at a root address of a section: reads it, and compares its chains, parents, children and matrices with those derived
// from the bones read. Gives the number of bones read, and none for root 0. Refusals:
// reading's, 1 where a table for deriving is too short, 21 to 25. After an acceptance the tables of the reading hold what it gives;
// else they are zero. The pool and the tables for deriving are zero after every call.
// The halves stand beside one another here: of the bytes of a slice lent a proof knows that they are bytes, and not of those in a struct.
pub fn check(
    system: &[u8],
    graphics: &[u8],
    root: u64,
    tables: &mut Tables,
    working: &mut Working,
) -> Result<Option<usize>, Refusal>
    ensures checked { Checks (section system.now graphics.now) root result (lists tables.old) (lists tables.new)
        (working_lists working.old) (working_lists working.new) }
    ensures tables { SameTables tables.old tables.new }
    ensures working { SameWorking working.old working.new }
{
    let r = read::read(Section { system, graphics }, root, tables);
    let k = count_parts(r);
    let b = begin(
        r,
        k.bones,
        working.buckets.len(),
        working.entries.len(),
        working.inverse.len(),
        working.local.len(),
        working.parents.len(),
        working.children.len(),
        working.pending.len(),
    );
    let c = chains_step(b, tables, k, working.buckets, working.entries);
    let i = indices_step(
        c,
        tables,
        k,
        working.parents,
        working.children,
        working.pending,
    );
    let m = matrices_step(i, tables, k, working.inverse, working.local);
    settle(m, tables)
}
