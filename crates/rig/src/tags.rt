// What C and Rust call to look up a tag in a section (docs/FORMAT.md, "Lookup and check"). A status is 0, 100 for none, or the
// number of the refusal.
ghost use Rattle.format.specs.Lookup as Definitions;
ghost use Rattle.blocks.specs.Places.{section};
ghost use Rattle.rig_answers.specs.Told.{Told};

use blocks::places::Section;

// The position that the skeleton at a root address stores for a tag, as `lookup::lookup` says, which also has the order of the
// refusals. `position` is 0 unless one is found.
#[unsafe(no_mangle)]
pub extern "C" fn rig_lookup(
    sys: &[u8],
    gfx: &[u8],
    root: u64,
    tag: u16,
    position: &mut usize,
) -> u32
    ensures told { Told (Definitions.lookup (section sys.now gfx.now) root tag)
        result position.new }
{
    let section = Section {
        system: sys,
        graphics: gfx,
    };
    let r = lookup::lookup(section, root, tag);
    *position = rig_answers::looked_position(r);
    rig_answers::status(r)
}
