// What C and Rust call to hash a name, and to search a section for a bone by its name's hash (docs/FORMAT.md, "Joints and names"). A status
// is 0, 100 for none, or the number of the refusal.
ghost use Rattle.std.specs.Prelude.{◌≡◌};
ghost use Rattle.format.specs.Hash.{rage_joaat};
ghost use Rattle.blocks.specs.Places.{section};
ghost use Rattle.read.specs.Lent.{lent};
ghost use Rattle.rig_answers.specs.Told.{SearchTold};

use read::Tables;

#[unsafe(no_mangle)]
pub extern "C" fn rig_rage_joaat(s: &[u8]) -> u32
    ensures answer { result ≡ rage_joaat s.now }
{
    hash::rage_joaat(s)
}

// The position of the first bone whose stored name hashes to a key, in the section read at a root address, as `search::search` says,
// which also has the refusals. `position` is 0 unless one is found; the tables are as `rig_read` leaves them.
#[unsafe(no_mangle)]
pub extern "C" fn rig_search<'a>(
    sys: &'a [u8],
    gfx: &'a [u8],
    root: u64,
    key: u32,
    bones: &mut [u32],
    buckets: &mut [u32],
    entries: &mut [u32],
    inverse: &mut [u32],
    local: &mut [u32],
    parents: &mut [u16],
    children: &mut [u16],
    pool: &mut [u64],
    position: &mut usize,
) -> u32
    ensures told { SearchTold (section sys.now gfx.now) root key result position.new
        (lent bones.old buckets.old entries.old inverse.old
        local.old parents.old children.old pool.old)
        (lent bones.new buckets.new entries.new inverse.new
        local.new parents.new children.new pool.new) }
{
    let mut tables = Tables {
        bones,
        buckets,
        entries,
        inverse,
        local,
        parents,
        children,
        pool,
    };
    let r = search::search(sys, gfx, root, key, &mut tables);
    *position = rig_answers::given(r);
    rig_answers::status(r)
}
