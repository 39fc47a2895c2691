// The section writer (docs/FORMAT.md, "Reading and writing a skeleton"): first the parts are placed, then they are filled.
#![tactic(auto)]

mod words; // words, halves and bytes stored one behind the other
mod starts; // where the parts of a section start
mod skeleton; // the skeleton's record
mod chains; // bucket pointers and entries
mod block; // the bones block
mod names; // the names
mod filling; // all parts
mod working; // the working tables
mod outcome; // the tests in their order

ghost use Rattle.std.specs.Prelude.{length};
ghost use Rattle.blocks.specs.Places.{section_of};
ghost use Rattle.format.specs.Words.{meant_words4};
ghost use Rattle.write.specs.Outcome.{outcome, Writes};
ghost use Rattle.tables.specs.Working.{lists, room_in, SameTables, Zeroed};

use crate::outcome::attempt;
use blocks::places::Section;
use format::{Refusal, Words4};
use tables::working::Working;

// Writes the section of the first n bones of a table, whose names lie in the halves of a lent section, at the front of `out`, and gives
// its length. Refuses 2, then 1 for the table of bones, 4, 1 for the working tables, 3, 5. On a refusal `out` is as it was; else only
// the section's own bytes change. The working tables are zero after every call.
pub fn write(
    bones: &[u32],
    n: usize,
    names: Section,
    free: Words4,
    tables: &mut Working,
    out: &mut [u8],
) -> Result<usize, Refusal>
    ensures written { Writes
        (outcome (section_of names.entry) (room_in (lists tables.old)) (length out.old) n bones.now (meant_words4 free))
        result out.old out.new }
    ensures tables { Zeroed (lists tables.old) (lists tables.new) }
    ensures same { SameTables tables.old tables.new }
{
    let answer = attempt(bones, n, names, free, tables, out);
    tables.clear();
    answer
}
