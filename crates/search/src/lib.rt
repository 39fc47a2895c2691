// The name search (docs/FORMAT.md, "Joints and names"): a section is read, and its bones' names are hashed.
#![tactic(auto)]

ghost use Rattle.std.specs.Prelude.{◌≡◌};
ghost use Rattle.format.specs.Tables.{no_rows};
ghost use Rattle.format.specs.Read.{read_skeleton};
ghost use Rattle.format.specs.Refusal.{outcome};
ghost use Rattle.format.specs.Search as Definitions;
ghost use Rattle.blocks.specs.Places.{section};
ghost use Rattle.read.specs.Lent.{lists, read_room, SameTables};
ghost use Rattle.read.specs.Reads.{read_leaves};
ghost use Rattle.search.specs.Searched.{first_in};

use blocks::places::Section;
use format::Refusal;
use read::{Skeleton, Tables};

mod named; // the first bone of a table whose name hashes to a key

// The first of the bones that a reading left in the first rows of their table, or what the reading refused.
fn first_in<'a>(
    sys: &'a [u8],
    gfx: &'a [u8],
    tables: &Tables,
    r: Result<Option<Skeleton>, Refusal>,
    key: u32,
) -> Result<Option<usize>, Refusal>
    ensures { outcome result ≡ first_in (section sys.now gfx.now) key tables.now.bones.now r }
{
    let Some(s) = r? else {
        return Ok(None);
    };
    Ok(named::first_named(sys, gfx, tables.bones, s.bones.unwrap_or(0), key))
}

// The position of the first bone whose stored name bytes hash to a key, in the section that is read at a root address; bones
// without a name are skipped. Root 0 gives none. The refusals are reading's. After the search the tables hold what reading leaves
// (`read::read`): the rows and zeros behind them, all zero after none for root 0 and after a refusal, and the pool always.
// The halves stand beside one another here: of the bytes of a slice lent a proof knows that they are bytes, and not of those in a struct.
pub fn search(
    system: &[u8],
    graphics: &[u8],
    root: u64,
    key: u32,
    tables: &mut Tables,
) -> Result<Option<usize>, Refusal>
    ensures answer { outcome result ≡ Definitions.search (section system.now graphics.now) (read_room (lists tables.old)) root key }
    ensures tables { lists tables.new ≡ read_leaves (read_skeleton (section system.now graphics.now) (read_room (lists tables.old)) root no_rows)
        (lists tables.old) }
    ensures same { SameTables tables.old tables.new }
{
    let r = read::read(Section { system, graphics }, root, tables);
    first_in(system, graphics, tables, r, key)
}
