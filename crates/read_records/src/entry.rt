// A tag entry: the fields of its 16 bytes (docs/FORMAT.md, "Records").
ghost use Rattle.std.specs.Prelude.{◌≡◌};
ghost use Rattle.format.specs.Refusal.{outcome};
ghost use Rattle.blocks.specs.Cursor.{cursor_at};
ghost use Rattle.blocks.specs.Places.{section_of};
ghost use Rattle.read_records.specs.Entry.{entry_read, entry_at};

use blocks::cursor::Cursor;
use blocks::places::Section;
use format::Refusal;

// The fields of an entry: its tag, its position, and the address of the next.
#[derive(Clone, Copy, Debug, PartialEq, Eq)]
pub struct Entry {
    pub tag: u32,
    pub position: u32,
    pub next: u64,
}

// The entry at an offset of some bytes, read by a cursor: 11 where not all of its bytes stand.
fn read_entry(bytes: &[u8], at: usize, base: u64) -> Result<Entry, Refusal>
    ensures answer { outcome result ≡ entry_read (cursor_at bytes.entry at base) }
{
    let mut c = Cursor::new(bytes, at, base);
    let tag = c.u32();
    let position = c.u32();
    let next = c.u64();
    c.check()?;
    Ok(Entry {
        tag,
        position,
        next,
    })
}

// The fields of the entry at an address, whose 16 bytes must stand: 10, 11. They are asked for at once, so that the compiler drops
// the tests of each read.
#[tactic(auto, using(crate::proofs::Entries::entry_whole), unfolding(crate::specs::Entry::entry_at))]
pub fn entry_at(section: Section, va: u64) -> Result<Entry, Refusal>
    ensures answer { outcome result ≡ entry_at (section_of section.entry) va }
{
    let bytes = section.slice(va, format::ENTRY_SIZE)?;
    read_entry(bytes, 0, va)
}
