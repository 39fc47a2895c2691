// The writer's tests in their order (docs/FORMAT.md, "Who can cause a refusal": "Writing a skeleton tests 2, 4, 1, 3, 5";
// a table of bones with fewer rows than asked for is 1 right behind 2).
ghost use Rattle.std.specs.Prelude.{◌≡◌, length, map};
ghost use Rattle.format.specs.Rows.{bone_of};
ghost use Rattle.blocks.specs.Places.{section_of};
ghost use Rattle.format.specs.Words.{meant_words4};
ghost use Rattle.write.specs.Filling.{Held};
ghost use Rattle.write.specs.Outcome.{outcome, laid_out, Writes};
ghost use Rattle.tables.specs.Working.{lists, room_in, SameTables};

use crate::filling::{Sizes, fill_section};
use crate::names::measure_names;
use crate::starts::{after, place};
use crate::working::derive_tables;
use blocks::places::Section;
use derive_chains::buckets::{bucket_count, entry_count};
use format::{BONE_WORDS, Refusal, Words4};
use rows::rows_of;
use tables::working::Working;

// Tests the child entries and the buffer, and fills it: refusals 3, 5.
fn lay_out(
    bones: &[[u32; BONE_WORDS]],
    names: Section,
    free: Words4,
    s: Sizes,
    tables: &Working,
    out: &mut [u8],
) -> Result<usize, Refusal>
    requires { Held s (section_of names) (map bone_of bones.now) (lists tables.now) }
    ensures written { Writes
        (laid_out (section_of names.entry) (length out.old) (map bone_of bones.now) (meant_words4 free))
        result out.old out.new }
{
    if s.children > format::MOST {
        return Err(Refusal::TooManyChildren);
    }
    let n = bones.len();
    let at = place(s.buckets, entry_count(n), n, s.names);
    let size = after(at.children, 2 * s.children);
    if size > out.len() {
        return Err(Refusal::BufferTooShort);
    }
    fill_section(out, at, free, s, bones, names, tables);
    Ok(size)
}

// Writes or refuses; the working tables are left as they may be.
pub(crate) fn attempt(
    bones: &[u32],
    n: usize,
    names: Section,
    free: Words4,
    tables: &mut Working,
    out: &mut [u8],
) -> Result<usize, Refusal>
    ensures written { Writes
        (outcome (section_of names.entry) (room_in (lists tables.old)) (length out.old) n bones.now (meant_words4 free))
        result out.old out.new }
    ensures same { SameTables tables.old tables.new }
{
    let rows = rows_of(bones, n)?;
    let name_bytes = measure_names(rows, names)?;
    let children_count = derive_tables(bones, n, tables)?;
    let sizes = Sizes {
        buckets: bucket_count(n),
        children: children_count,
        names: name_bytes,
    };
    lay_out(rows, names, free, sizes, tables, out)
}
