// What C and Rust call to read and write a skeleton's section (docs/FORMAT.md, "Reading and writing a skeleton"). A status is 0, 100 for
// none, or the number of the refusal.
ghost use Rattle.std.specs.Prelude.{length};
ghost use Rattle.format.specs.Tables.{no_rows};
ghost use Rattle.format.specs.Read.{read_skeleton};
ghost use Rattle.blocks.specs.Places.{section};
ghost use Rattle.read.specs.Lent.{lent, read_room};
ghost use Rattle.write.specs.Outcome.{outcome};
ghost use Rattle.tables.specs.Working.{working, room_in, Zeroed};
ghost use Rattle.rig_answers.specs.Told.{free_of, ReadTold, WriteTold};

use blocks::places::Section;
use format::Words4;
use read::Tables;
use tables::working::Working;

// The skeleton at a root address, read into tables as `read::read` says, which also has the order of the refusals: the rows read and
// zeros behind them, zeros alone after none and after a refusal, and a pool of zeros after every call. `fields` are the kind word,
// the four free words, the stored counts of buckets, bones and children, and of buckets, bones, inverse, local, parents and children
// whether each stands and how long it is, matrices in words; all 0 unless the skeleton was read.
#[unsafe(no_mangle)]
pub extern "C" fn rig_read<'a>(
    sys: &'a [u8],
    gfx: &'a [u8],
    root: u64,
    bones: &mut [u32],
    buckets: &mut [u32],
    entries: &mut [u32],
    inverse: &mut [u32],
    local: &mut [u32],
    parents: &mut [u16],
    children: &mut [u16],
    pool: &mut [u64],
    fields: &mut [usize; 20],
) -> u32
    ensures told { ReadTold (read_skeleton (section sys.now gfx.now)
        (read_room (lent bones.old buckets.old entries.old inverse.old
        local.old parents.old children.old pool.old)) root no_rows) result fields.new
        (lent bones.old buckets.old entries.old inverse.old
        local.old parents.old children.old pool.old)
        (lent bones.new buckets.new entries.new inverse.new
        local.new parents.new children.new pool.new) }
{
    let mut tables = Tables {
        bones,
        buckets,
        entries,
        inverse,
        local,
        parents,
        children,
        pool,
    };
    let section = Section {
        system: sys,
        graphics: gfx,
    };
    let r = read::read(section, root, &mut tables);
    *fields = rig_answers::read_fields(r);
    rig_answers::status(r)
}

// The section of the first n bones of a table, written at the front of `out` as `write::write` says, which also has the order of the
// refusals. `count` is the number of its bytes, 0 after a refusal, when `out` is as it was; the working tables are zero after every
// call. `free` are the skeleton's words at 28, 80, 84 and 88.
#[unsafe(no_mangle)]
pub extern "C" fn rig_write<'a>(
    bones: &[u32],
    n: usize,
    sys: &'a [u8],
    gfx: &'a [u8],
    free: &[u32; 4],
    buckets: &mut [u32],
    entries: &mut [u32],
    inverse: &mut [u32],
    local: &mut [u32],
    parents: &mut [u16],
    children: &mut [u16],
    pending: &mut [u32],
    out: &mut [u8],
    count: &mut usize,
) -> u32
    ensures told { let x = working buckets.old entries.old inverse.old local.old
        parents.old children.old pending.old in
        WriteTold
        (outcome (section sys.now gfx.now) (room_in x) (length out.old) n bones.now
        (free_of free.now))
        result count.new out.old out.new }
    ensures tables { Zeroed
        (working buckets.old entries.old inverse.old local.old
        parents.old children.old pending.old)
        (working buckets.new entries.new inverse.new local.new
        parents.new children.new pending.new) }
{
    let words = Words4 {
        x: free[0],
        y: free[1],
        z: free[2],
        w: free[3],
    };
    let names = Section {
        system: sys,
        graphics: gfx,
    };
    let mut tables = Working {
        buckets,
        entries,
        inverse,
        local,
        parents,
        children,
        pending,
    };
    let answer = write::write(bones, n, names, words, &mut tables, out);
    *count = rig_answers::written_count(answer);
    rig_answers::written_status(answer)
}
