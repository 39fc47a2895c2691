// The pool: a lent table that maps an address to what was read there (docs/FORMAT.md, "Finding bytes"; `cached_as` and `cache` of
// `src/blocks/mod.rs`): a row near the address's home, or in a tree (`tree`). A row is four words: the address, the code word, and the
// first and the count of what is stored (of a name, its address and its size). The code word has the kind's code, 0 for a free row, so
// that any address has its row, and the links of the tree. A table of n words has n / 4 rows; the words behind the last row are not used.
// Callers carry `Represents t n q`, that the table t of n rows holds the pool q, from the cleared table, which holds the empty pool,
// through every `put`. Of a table that holds no pool nothing is promised but safety. (No struct of the pool:
// `Represents` is known to callers alone, from their clearing on; and without that fact a struct is the words again.)
ghost use Rattle.std.specs.Prelude.{◌≡◌, ℕ, ◌+◌, ◌≤◌, ◌<◌, IfErr};
ghost use Rattle.format.specs.declared.Refusal.TheVariants.{TableTooShort};
ghost use Rattle.blocks.specs.Kinds.{meant_kind};
ghost use Rattle.blocks.specs.Hashed.{pool_rows, home_of, EndsAt, Scanned, PlacedAt, with_row};
ghost use Rattle.blocks.specs.Pool.{pool_row, Finds, FindsAs, Stores, FindsAt, FindsAsAt, StoresAt};

use crate::kinds::Kind;
use crate::tree;
use crate::tree::Ended;
use format::{POOL_WORDS, Refusal};

// Where what was read is stored: its first row and how many; of a name, its address and its size.
#[derive(Clone, Copy, Debug, PartialEq, Eq)]
pub struct Stored {
    pub first: u64,
    pub count: u64,
}

// What was read at an address.
#[derive(Clone, Copy, Debug, PartialEq, Eq)]
pub struct Pooled {
    pub kind: Kind,
    pub stored: Stored,
}

// Where the search for an address ends. (No Option: three ends, and `put` goes another way at each.)
#[derive(Clone, Copy, Debug, PartialEq, Eq)]
pub enum Spot {
    // at a row: its own, or a free one
    Row(usize),
    // at no row, and the tree has this free one for it
    Tree(usize),
    // at no row, and none is free: `put_at` refuses
    Full,
}

// How many rows are searched from the home on, before the tree.
const NEAR: usize = 16;

// The row at which the search for an address starts. In a small table addresses are spread by the golden ratio. In a larger one those
// of a stretch of 2,048 bytes stay together, 7 rows to 16 bytes, since they are asked for one after another, and the stretches are spread.
fn home(va: u64, rows: usize) -> usize
    requires { 0 < rows }
    ensures { (result ≡ home_of va rows) × (result < rows) }
{
    let n = rows as u64;
    if n < 8192 {
        return (va % 4294967296 * 2654435769 % 4294967296 * n / 4294967296) as usize;
    }
    let mixed = va / 2048 % 4294967296 * 2654435769 % 4294967296;
    let row = mixed * (n % 4294967296) / 4294967296 + va % 2048 * 7 / 16;
    if row < n {
        return row as usize;
    }
    (row - n) as usize
}

// The row behind those that are near a home.
fn near_end(home: usize, rows: usize) -> usize
    requires { home < rows }
    ensures { (home ≤ result) × (result ≤ rows) × (result ≤ home + 16) × ((k : ℕ) → k < home + 16 → k < rows → k < result) }
{
    home + NEAR.min(rows - home)
}

// Whether a search ends at row i: the row is free or has the address.
fn ends_at(pool: &[u64], va: u64, i: usize) -> bool
    requires { i < pool_rows pool.now }
    ensures { EndsAt pool.now va i result }
{
    if tree::kind_in(pool[POOL_WORDS * i + 1]) == 0 {
        return true;
    }
    pool[POOL_WORDS * i] == va
}

// The first row of `from` .. `to` that is free or has the address.
fn scan(pool: &[u64], va: u64, from: usize, to: usize) -> Option<usize>
    requires { (from ≤ to) × (to ≤ pool_rows pool.now) }
    ensures { Scanned pool.now va from to result }
{
    for i in from..to {
        if ends_at(pool, va, i) {
            return Some(i);
        }
    }
    None
}

// Where the search for an address from its home on ends: near the home, in the tree, or behind the rows that a link can lead to. In a table
// below 32 GiB a link can lead to every row.
fn search(pool: &[u64], va: u64, h: usize) -> Spot
    requires { (h ≡ home_of va (pool_rows pool.now)) × (h < pool_rows pool.now) }
    ensures { PlacedAt pool.now va result }
{
    let rows = pool.len() / POOL_WORDS;
    if let Some(i) = scan(pool, va, h, near_end(h, rows)) {
        return Spot::Row(i);
    }
    if let Ended::At(i) = tree::path(pool, va) {
        return Spot::Row(i);
    }
    if let Some(i) = tree::free_row(pool) {
        return Spot::Tree(i);
    }
    match scan(pool, va, tree::linked_rows(rows), rows) {
        Some(i) => Spot::Row(i),
        None => Spot::Full,
    }
}

// Where the search for an address ends: at its own row, or a free one near its home; else, where the tree has a free row for it, at that
// one. One search serves `cached_at` and `put_at`, as long as no other row is stored between them. It looks at 16 rows near the home, and along
// 65 of the tree at most (specs/Bound.antt), and then for the tree's free row; mostly it ends at the home itself, which is asked here, so that
// the rest is not in the code of every caller. (Inlined, as are `row_at`, `cached_at` and `cached_as`: by calls reading
// 1,000 bones took 1.2 to 1.4 times as long. `PlacedAt` stands in contracts: it is of the table as it is until the next row is stored.)
#[inline(always)]
pub fn place(pool: &[u64], va: u64) -> Spot
    ensures row { PlacedAt pool.now va result }
{
    let rows = pool.len() / POOL_WORDS;
    if rows == 0 {
        return Spot::Full;
    }
    let h = home(va, rows);
    if ends_at(pool, va, h) {
        return Spot::Row(h);
    }
    search(pool, va, h)
}

// What stands where the search for an address ended.
#[inline(always)]
fn row_at(pool: &[u64], spot: Spot) -> Option<Pooled>
    ensures { FindsAt pool.now spot result }
{
    let Spot::Row(i) = spot else {
        return None;
    };
    if i >= pool.len() / POOL_WORDS {
        return None;
    }
    let code = tree::kind_in(pool[POOL_WORDS * i + 1]);
    if code == 0 {
        return None;
    }
    Some(Pooled {
        kind: Kind::from_code(code),
        stored: Stored {
            first: pool[POOL_WORDS * i + 2],
            count: pool[POOL_WORDS * i + 3],
        },
    })
}

// What was read at an address.
pub fn find(pool: &[u64], va: u64) -> Option<Pooled>
    ensures answer { Finds pool.now va result }
{
    row_at(pool, place(pool, va))
}

// What was read as a kind at an address whose search ended at a spot; 12 where another kind was.
#[inline(always)]
pub fn cached_at(pool: &[u64], kind: Kind, spot: Spot) -> Result<Option<Stored>, Refusal>
    ensures answer { FindsAsAt pool.now (meant_kind kind) spot result }
{
    match row_at(pool, spot) {
        None => Ok(None),
        Some(pooled) if pooled.kind.same(kind) => Ok(Some(pooled.stored)),
        Some(_) => Err(Refusal::OtherKind),
    }
}

// What was read at an address as a kind; 12 where another kind was.
#[inline(always)]
pub fn cached_as(pool: &[u64], kind: Kind, va: u64) -> Result<Option<Stored>, Refusal>
    ensures answer { FindsAs pool.now (meant_kind kind) va result }
{
    cached_at(pool, kind, place(pool, va))
}

// Stores row i. Its links stay.
fn store(pool: &mut [u64], i: usize, va: u64, kind: Kind, stored: Stored)
    requires { i < pool_rows pool.old }
    ensures table { pool.new ≡ with_row pool.old i (pool_row va (meant_kind kind) stored.first stored.count) }
{
    let code = u64::from(kind);
    let word = pool[POOL_WORDS * i + 1];
    pool[POOL_WORDS * i] = va;
    pool[POOL_WORDS * i + 1] = tree::with_kind(word, code);
    pool[POOL_WORDS * i + 2] = stored.first;
    pool[POOL_WORDS * i + 3] = stored.count;
}

// Pools what was read at an address, in the place of the earlier row of the address if there is one. The table then holds the
// pool with the row; 1 where the address has none and no row is free, and then every word is as it was.
pub fn put(pool: &mut [u64], va: u64, kind: Kind, stored: Stored) -> Result<(), Refusal>
    ensures refusal { IfErr result (λ r. r ≡ TableTooShort) }
    ensures table { Stores (pool_row va (meant_kind kind) stored.first stored.count) result pool.old pool.new }
{
    let rows = pool.len() / POOL_WORDS;
    if rows == 0 {
        return Err(Refusal::TableTooShort);
    }
    match search(pool, va, home(va, rows)) {
        Spot::Row(i) => store(pool, i, va, kind, stored),
        Spot::Tree(i) => {
            tree::link(pool, i, va);
            store(pool, i, va, kind, stored);
        }
        Spot::Full => return Err(Refusal::TableTooShort),
    }
    Ok(())
}

// Pools what was read at an address whose search ended at a spot, as `put` does.
pub fn put_at(
    pool: &mut [u64],
    spot: Spot,
    va: u64,
    kind: Kind,
    stored: Stored,
) -> Result<(), Refusal>
    ensures refusal { IfErr result (λ r. r ≡ TableTooShort) }
    ensures table { StoresAt spot (pool_row va (meant_kind kind) stored.first stored.count) result pool.old pool.new }
{
    match spot {
        Spot::Row(i) if i < pool.len() / POOL_WORDS => {
            store(pool, i, va, kind, stored);
            Ok(())
        }
        _ => put(pool, va, kind, stored),
    }
}
