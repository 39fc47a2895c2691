// Chains of tag entries (docs/FORMAT.md, "Reading and writing a skeleton": "A chain that meets an entry already read ends there and
// shares it"). A row of the entries table is three words: the tag, the position, and the link.
ghost use Rattle.std.specs.Prelude.{◌≡◌, [], ◌∷◌, ◌+◌, ◌*◌, ◌%◌, ◌<◌, length};
ghost use Rattle.std.proofs.lemmas.List.Edits.{sets};
ghost use Rattle.blocks.specs.Places.{section_of};
ghost use Rattle.blocks.specs.Hashed.{PlacedAt};
ghost use Rattle.read_chains.specs.Lent.{entry_room};
ghost use Rattle.read_chains.specs.Entries.{LinksTo, ReadsEntry, ReadsChain, ReadsHead};

use blocks::kinds::Kind;
use blocks::places::Section;
use blocks::pool;
use blocks::pool::{Spot, Stored};
use format::{ENTRY_SIZE, ENTRY_WORDS, Refusal};
use read_records::entry;

// The most rows of an entries table that are used: the link to the row behind the last is a 32-bit word, too. No section has
// more than 536,870,912 addresses.
pub const MOST_ENTRIES: usize = 4294967294;

// Where an address leads from an entry or a bucket. (No Option: both cases are links, and each has a value.)
#[derive(Clone, Copy)]
enum Link {
    // the link: 0, or one more than the row of an entry already read
    To(u32),
    // an entry that is yet to be read, and where the search for it in the pool ended
    Unread(Spot),
}

// An entry that is yet to be read: its address, and where the search for it in the pool ended.
#[derive(Clone, Copy)]
struct Unread {
    address: u64,
    spot: Spot,
}

// The link to the first entry of a bucket's chain, and how many rows of entries are used now.
#[derive(Clone, Copy)]
pub struct Head {
    pub link: u32,
    pub used: usize,
}

// How many rows a table of so many words has.
fn rows(words: usize) -> usize
    ensures { result ≡ entry_room words }
{
    (words / ENTRY_WORDS).min(MOST_ENTRIES)
}

// The link to a row. Rows are at most MOST_ENTRIES, so that the remainder is the row.
fn link_of(row: u64) -> u32
    ensures { result ≡ row % 4294967295 + 1 }
{
    (row % 4294967295 + 1) as u32
}

// The link to an address, as far as the pool knows it: 12 where another kind was read there.
#[inline(always)]
fn link_to(pool: &[u64], va: u64) -> Result<Link, Refusal>
    ensures { LinksTo pool.now va result }
{
    if va == 0 {
        return Ok(Link::To(0));
    }
    let spot = pool::place(pool, va);
    match pool::cached_at(pool, Kind::Entry, spot)? {
        Some(stored) => Ok(Link::To(link_of(stored.first))),
        None => Ok(Link::Unread(spot)),
    }
}

// Stores the three words of a row. (Here and where chains are derived, each for itself: public functions here have no `requires`, and one would
// test again what both know.)
fn store(entries: &mut [u32], row: usize, tag: u32, position: u32, link: u32)
    requires { row < entry_room (length entries.old) }
    ensures { entries.new ≡ sets entries.old (3 * row) (tag ∷ position ∷ link ∷ []) }
{
    let at = ENTRY_WORDS * row;
    entries[at] = tag;
    entries[at + format::ENTRY_POSITION] = position;
    entries[at + format::ENTRY_LINK] = link;
}

// An entry, stored in a row that is free: 10 and 11 for its bytes, 1 for its row of the pool, 12 for its link. It is pooled before
// its link is looked for: an entry that links to itself is its own next. The next is given where it is yet to be read; it takes the
// next row.
fn read_entry(
    section: Section,
    unread: Unread,
    entries: &mut [u32],
    row: usize,
    pool: &mut [u64],
) -> Result<Option<Unread>, Refusal>
    requires { (row < entry_room (length entries.old)) × PlacedAt pool.old unread.address unread.spot }
    ensures { ReadsEntry (section_of section.entry) unread.address row result
        entries.old entries.new pool.old pool.new }
{
    let entry = entry::entry_at(section, unread.address)?;
    let stored = Stored {
        first: row as u64,
        count: 1,
    };
    pool::put_at(pool, unread.spot, unread.address, Kind::Entry, stored)?;
    match link_to(pool, entry.next)? {
        Link::To(link) => {
            store(entries, row, entry.tag, entry.position, link);
            Ok(None)
        }
        Link::Unread(spot) => {
            let link = link_of((row + 1) as u64);
            store(entries, row, entry.tag, entry.position, link);
            Ok(Some(Unread {
                address: entry.next,
                spot,
            }))
        }
    }
}

// An entry and those behind it, in the rows from `used` on, up to a link 0 or an entry already read: how many rows are used then.
// Each entry takes a row: where none is left, 10 and 11 for its bytes, then 1.
fn read_chain(
    section: Section,
    first: Unread,
    entries: &mut [u32],
    used: usize,
    pool: &mut [u64],
) -> Result<usize, Refusal>
    requires { PlacedAt pool.old first.address first.spot }
    ensures { ReadsChain (section_of section.entry) first.address used result
        entries.old entries.new pool.old pool.new }
{
    let mut unread = first;
    for row in used..rows(entries.len()) {
        let Some(next) = read_entry(section, unread, entries, row, pool)? else {
            return Ok(row + 1);
        };
        unread = next;
    }
    section.slice(unread.address, ENTRY_SIZE)?;
    Err(Refusal::TableTooShort)
}

// The head of the chain at an address, which is read if it is yet to be: 12 where another kind was read there, then what the chain
// refuses.
pub fn read_head(
    section: Section,
    va: u64,
    entries: &mut [u32],
    used: usize,
    pool: &mut [u64],
) -> Result<Head, Refusal>
    ensures table { ReadsHead (section_of section.entry) va used result
        entries.old entries.new pool.old pool.new }
{
    match link_to(pool, va)? {
        Link::To(link) => Ok(Head { link, used }),
        Link::Unread(spot) => {
            let first = Unread { address: va, spot };
            let now = read_chain(section, first, entries, used, pool)?;
            Ok(Head {
                link: link_of(used as u64),
                used: now,
            })
        }
    }
}
