// The rows of the pool that do not stand near their address's home: a binary tree that goes by the bits of an address (a digital
// search tree), so that no path has more than 65 rows, whatever addresses a section has (specs/Bound.antt).
// A row's code word is the kind's code, below 16; 16 × its left link; and 2^34 × its right link. A link is 0, or one more than the row
// that it leads to, and leads to a lower row: a row is taken from the end of the table on, the highest free one. The links of row 0
// are the tree's own: the left leads to its first row, and the right is how many rows, from the last on, are known to be taken.
ghost use Rattle.std.specs.Prelude.{◌≡◌, ℕ, ◌%◌, ◌≤◌, ◌<◌};
ghost use Rattle.blocks.specs.Tree.{linkable, kind_in, link_in, turned_of, with_kind, with_link};
ghost use Rattle.blocks.specs.Hashed.{side_number, pool_rows, PathEnds, FreeFound, Linked};

use format::POOL_WORDS;

// The rows that a link of 30 bits can lead to.
const LINKABLE: usize = 1073741823;

// The side of a link.
#[derive(Clone, Copy)]
pub(crate) enum Side {
    Left,
    Right,
}

// Where the path of an address ends. Its own enum: both ends are answers, and neither is an error.
#[derive(Clone, Copy)]
pub(crate) enum Ended {
    // at the row of the address
    At(usize),
    // at no row: the row that has no link for it, and the side of that link; row 0 and the left where there is no tree
    Behind(usize, Side),
}

// How many of a table's rows can be in the tree.
#[tactic(auto, unfolding(crate::specs::Tree::linkable))]
pub(crate) fn linked_rows(rows: usize) -> usize
    ensures { result ≡ linkable rows }
{
    rows.min(LINKABLE)
}

// The kind's code in a code word.
pub(crate) fn kind_in(word: u64) -> u64
    ensures { result ≡ kind_in word }
{
    word % 16
}

// The code word with another kind's code.
pub(crate) fn with_kind(word: u64, code: u64) -> u64
    requires { code < 16 }
    ensures { result ≡ with_kind word code }
{
    word / 16 * 16 + code
}

// The link of a code word on a side.
#[tactic(auto, unfolding(crate::specs::Tree::link_in))]
fn link_in(word: u64, side: Side) -> u64
    ensures { result ≡ link_in word (side_number side) }
{
    match side {
        Side::Left => word / 16 % 1073741824,
        Side::Right => word / 17179869184,
    }
}

// The code word with another link on a side.
#[tactic(auto, unfolding(crate::specs::Tree::with_link))]
fn with_link(word: u64, side: Side, link: u64) -> u64
    requires { link < 1073741824 }
    ensures { result ≡ with_link word (side_number side) link }
{
    match side {
        Side::Left => word / 17179869184 * 17179869184 + link * 16 + word % 16,
        Side::Right => link * 17179869184 + word % 17179869184,
    }
}

// The bits of an address in the order in which the tree goes by them, the lowest first: addresses are mostly multiples of 16, so that
// the lowest four come last of the lower 32.
fn turned(va: u64) -> u64
    ensures { result ≡ turned_of va }
{
    va / 4294967296 * 4294967296 + va % 16 * 268435456 + va / 16 % 268435456
}

// The side to which a path goes on, by the bits that are left of its address.
fn side_of(bits: u64) -> Side
    ensures { side_number result ≡ bits % 2 }
{
    if bits % 2 == 0 {
        Side::Left
    } else {
        Side::Right
    }
}

// Where the path of an address ends. (A `while`: each link is read from the row before.)
pub(crate) fn path(pool: &[u64], va: u64) -> Ended
    requires { 0 < pool_rows pool.now }
    ensures { PathEnds pool.now va result }
{
    let mut bits = turned(va);
    let mut side = Side::Left;
    let mut at = 0;
    let mut above = linked_rows(pool.len() / POOL_WORDS);
    let mut next = link_in(pool[1], side) as usize;
    while 0 < next && next <= above {
        at = next - 1;
        above = at;
        if pool[POOL_WORDS * at] == va {
            return Ended::At(at);
        }
        side = side_of(bits);
        bits /= 2;
        next = link_in(pool[POOL_WORDS * at + 1], side) as usize;
    }
    Ended::Behind(at, side)
}

// The highest free row that can be in the tree.
pub(crate) fn free_row(pool: &[u64]) -> Option<usize>
    requires { 0 < pool_rows pool.now }
    ensures { FreeFound pool.now result }
{
    let rows = linked_rows(pool.len() / POOL_WORDS);
    let taken = link_in(pool[1], Side::Right) as usize;
    for i in (0..rows.saturating_sub(taken)).rev() {
        if kind_in(pool[POOL_WORDS * i + 1]) == 0 {
            return Some(i);
        }
    }
    None
}

// Links row i, the highest free one, where the path of an address ends, and counts it and those above it as taken.
pub(crate) fn link(pool: &mut [u64], i: usize, va: u64)
    requires { i < linkable (pool_rows pool.old) }
    ensures { Linked i va pool.old pool.new }
{
    let rows = linked_rows(pool.len() / POOL_WORDS);
    let end = path(pool, va);
    let Ended::Behind(at, side) = end else {
        return;
    };
    let word = pool[POOL_WORDS * at + 1];
    pool[POOL_WORDS * at + 1] = with_link(word, side, (i + 1) as u64);
    let first = pool[1];
    pool[1] = with_link(first, Side::Right, (rows - i) as u64);
}
