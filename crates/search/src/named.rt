// The first bone of a table whose name hashes to a key (docs/FORMAT.md, "Joints and names").
ghost use Rattle.std.specs.Prelude.{◌≡◌};
ghost use Rattle.format.specs.Section.{name_bytes};
ghost use Rattle.format.specs.Bone.{map_name};
ghost use Rattle.format.specs.Rows.{place_of, bones_of};
ghost use Rattle.format.specs.Search.{has_key, first_key};
ghost use Rattle.blocks.specs.Places.{section};
ghost use Rattle.search.specs.First.{stored_names};

use blocks::places::Section;
use format::Place;

// Whether the name at a place hashes to a key, its stored bytes as they are. Address 0 is no name, and hashes to none.
fn has_key<'a>(sys: &'a [u8], gfx: &'a [u8], p: Place, key: u32) -> bool
    ensures { result ≡ has_key key
        (map_name (name_bytes (section sys.now gfx.now)) (place_of p.address p.size)) }
{
    if p.address == 0 {
        return false;
    }
    let section = Section {
        system: sys,
        graphics: gfx,
    };
    let name = section.name(p);
    hash::rage_joaat(name) == key
}

// The first of the n bones in the first rows of a table whose stored name bytes hash to a key; bones without a name are skipped. (The table
// is not cut to n rows: they stand in a reading's table, and not in any that is lent.)
pub(crate) fn first_named<'a>(
    sys: &'a [u8],
    gfx: &'a [u8],
    bones: &[u32],
    n: usize,
    key: u32,
) -> Option<usize>
    ensures answer { result ≡ first_key key 0
        (stored_names (section sys.now gfx.now) (bones_of n bones.now)) }
{
    for i in 0..n {
        if has_key(sys, gfx, rows::name_at(bones, i), key) {
            return Some(i);
        }
    }
    None
}
