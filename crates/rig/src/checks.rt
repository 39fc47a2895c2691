// What C and Rust call to check a skeleton's section (docs/FORMAT.md, "Lookup and check"). A status is 0, 100 for none, or the
// number of the refusal.
ghost use Rattle.blocks.specs.Places.{section};
ghost use Rattle.read.specs.Lent.{lent};
ghost use Rattle.tables.specs.Working.{working};
ghost use Rattle.rig_answers.specs.Told.{CheckTold};

use read::Tables;
use tables::working::Working;

// The check of the skeleton at a root address, as `verify::check` says, which also has the order of the refusals. `count` is the
// number of bones read, 0 unless the section is accepted. The tables of the reading are as `rig_read` leaves them after an acceptance,
// else zero; the pool and the tables for deriving are zero after every call.
#[unsafe(no_mangle)]
pub extern "C" fn rig_check<'a>(
    sys: &'a [u8],
    gfx: &'a [u8],
    root: u64,
    bones: &mut [u32],
    buckets: &mut [u32],
    entries: &mut [u32],
    inverse: &mut [u32],
    local: &mut [u32],
    parents: &mut [u16],
    children: &mut [u16],
    pool: &mut [u64],
    derived_buckets: &mut [u32],
    derived_entries: &mut [u32],
    derived_inverse: &mut [u32],
    derived_local: &mut [u32],
    derived_parents: &mut [u16],
    derived_children: &mut [u16],
    pending: &mut [u32],
    count: &mut usize,
) -> u32
    ensures told { CheckTold (section sys.now gfx.now) root result count.new
        (lent bones.old buckets.old entries.old inverse.old
        local.old parents.old children.old pool.old)
        (lent bones.new buckets.new entries.new inverse.new
        local.new parents.new children.new pool.new)
        (working derived_buckets.old derived_entries.old derived_inverse.old
        derived_local.old derived_parents.old derived_children.old pending.old)
        (working derived_buckets.new derived_entries.new derived_inverse.new
        derived_local.new derived_parents.new derived_children.new pending.new) }
{
    let mut tables = Tables {
        bones,
        buckets,
        entries,
        inverse,
        local,
        parents,
        children,
        pool,
    };
    let mut working = Working {
        buckets: derived_buckets,
        entries: derived_entries,
        inverse: derived_inverse,
        local: derived_local,
        parents: derived_parents,
        children: derived_children,
        pending,
    };
    let r = verify::check(sys, gfx, root, &mut tables, &mut working);
    *count = rig_answers::given(r);
    rig_answers::status(r)
}
