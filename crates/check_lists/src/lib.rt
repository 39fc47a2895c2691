// Comparing what was read with what was derived (docs/FORMAT.md, "Lookup and check"): lists word by word, and chains along the links
// of two tables of entries. Each comparison stops at the first difference.
#![tactic(auto)]

ghost use Rattle.std.specs.Prelude.{◌≡◌, take, get_or};
ghost use Rattle.format.specs.Check.{chain_along, chains_along, no_entry, same_entry, same_list};
ghost use Rattle.check_lists.specs.Chained.{alike, entries_in, meant_row};

// An entry of a chain.
#[derive(Clone, Copy, PartialEq, Eq)]
struct Entry {
    tag: u32,
    position: u32,
}

// A row of a table of entries. `link` is 0 at a chain's end, and otherwise one more than the next entry's row. (No
// Option: it is a word of the table.)
#[derive(Clone, Copy)]
struct Row {
    entry: Entry,
    link: u32,
}

// The first n of a table, or all where it has fewer.
fn front<T>(table: &[T], n: usize) -> &[T]
    ensures first { result.now ≡ take n table.now }
{
    &table[..n.min(table.len())]
}

// ---- words

// Whether the first k words of a table equal the first m of another, their number included; a table that has fewer gives them all. (The
// counts as a reading and deriving leave them: cut here for both.)
pub fn same_words<T: PartialEq>(a: &[T], k: usize, b: &[T], m: usize) -> bool
    ensures answer { result ≡ same_list T.eq (take k a.now) (take m b.now) }
{
    front(a, k) == front(b, m)
}

// ---- chains

// Row r of a table of entries; a row that the table lacks is zeros.
fn row_at(entries: &[u32], r: usize) -> Row
    ensures answer { meant_row result ≡ get_or (entries_in entries.now) r no_entry }
{
    if r >= entries.len() / format::ENTRY_WORDS {
        let entry = Entry {
            tag: 0,
            position: 0,
        };
        return Row { entry, link: 0 };
    }
    let at = format::ENTRY_WORDS * r;
    let entry = Entry {
        tag: entries[at],
        position: entries[at + format::ENTRY_POSITION],
    };
    Row {
        entry,
        link: entries[at + format::ENTRY_LINK],
    }
}

// Whether the chains from two links stand, each of at most n entries, and have the same tags and positions.
fn same_chain(entries: &[u32], link: u32, derived: &[u32], head: u32, n: usize) -> bool
    ensures answer { result ≡ alike (same_list same_entry) (chain_along (entries_in entries.now) n link)
        (chain_along (entries_in derived.now) n head) }
{
    let mut a = link;
    let mut b = head;
    for _met in 0..n {
        if a == 0 || b == 0 {
            return a == b;
        }
        let x = row_at(entries, a as usize - 1);
        let y = row_at(derived, b as usize - 1);
        if x.entry != y.entry {
            return false;
        }
        a = x.link;
        b = y.link;
    }
    a == 0 && b == 0
}

// Whether the chains of the first `count` buckets of a table equal those of the first c of another, their number included. A chain
// of more than n entries, a circular one among them, equals none.
pub fn same_chains(
    buckets: &[u32],
    count: usize,
    entries: &[u32],
    n: usize,
    heads: &[u32],
    c: usize,
    derived: &[u32],
) -> bool
    ensures answer { result ≡ alike (same_list (same_list same_entry))
        (chains_along (entries_in entries.now) n (take count buckets.now))
        (chains_along (entries_in derived.now) n (take c heads.now)) }
{
    let links = front(buckets, count);
    let derived_links = front(heads, c);
    links.len() == derived_links.len()
        && links
            .iter()
            .zip(derived_links)
            .all(|(&a, &b)| same_chain(entries, a, derived, b, n))
}
