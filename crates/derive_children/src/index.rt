// An index of the bones by parent, in the table lent as the pending list: each position leads to the next one with the same
// parent, and each bone to its first child. A position is held as a word, one more than it; 0 is none. (No Option: the words go into the lent
// table as they are.)
// Of n bones the table's words are: next sibling n, first child n, and then the slots n + 1, links n and heads n of the index,
// which the pile of pending bones overwrites once every bone has its first child. (One table, since C lends one: no call has other memory.
// By offsets, and not as five slices: each contract would tell of every one what is stored and what stays.
// `IndexTable` stands in the contracts: it is of the positions from `i` on, and each position entered lowers `i`.)
ghost use Rattle.std.specs.Prelude.{◌≡◌, ℕ, suc, ◌+◌, ◌*◌, ◌≤◌, ◌<◌, length};
ghost use Rattle.format.specs.Children.{positions};
ghost use Rattle.format.specs.Rows.{cleared};
ghost use Rattle.derive_children.specs.Index.{LinkedFrom, Sought, IndexTable, first_word, link_at};
ghost use Rattle.derive_children.specs.Pile.{Ready};
ghost use Rattle.derive_children.specs.Indexing.{indices_of};

use crate::bones::Bones;
use rows::index_at;

// The word of the first along the links from `from` whose parent is v. (A `while`: the links are followed to their end, and not counted.)
fn seek(parents: &[u16], t: &[u32], v: u16, from: u32) -> u32
    requires { (8 * (length parents.now + 1) ≤ length t.now) × LinkedFrom parents.now (link_at parents.now t.now) from }
    ensures answer { Sought parents.now (link_at parents.now t.now) v from result }
{
    let mut at = from;
    while at > 0 {
        let j = at as usize;
        if parents[j - 1] == v {
            return at;
        }
        at = t[3 * parents.len() + j];
    }
    0
}

// Enters position i into the index of the positions behind it. A slot's chain holds one position for each parent in the slot.
fn enter(parents: &[u16], t: &mut [u32], i: usize)
    requires { (i < length parents.now) × (length parents.now ≤ 65535) × IndexTable parents.now t.old (suc i) }
    ensures rows { IndexTable parents.now t.new i }
{
    let n = parents.len();
    let v = parents[i];
    let slot = v as usize % (n + 1);
    let from = t[2 * n + slot];
    let rep = seek(parents, t, v, from);
    if rep > 0 {
        let head = 4 * n + rep as usize;
        t[i] = t[head];
        t[head] = (i + 1) as u32;
        return;
    }
    t[i] = 0;
    t[4 * n + i + 1] = (i + 1) as u32;
    t[3 * n + i + 1] = from;
    t[2 * n + slot] = (i + 1) as u32;
}

// The index of all positions; the table is zero.
fn enter_all(parents: &[u16], t: &mut [u32])
    requires { (8 * (length parents.now + 1) ≤ length t.old) × (length parents.now ≤ 65535)
        × (t.old ≡ cleared (length t.old)) }
    ensures rows { IndexTable parents.now t.new 0 }
{
    for i in (0..parents.len()).rev() {
        enter(parents, t, i);
    }
}

// The word of the first position whose parent is v.
fn first_child(parents: &[u16], t: &[u32], v: u16) -> u32
    requires { IndexTable parents.now t.now 0 }
    ensures answer { result ≡ first_word (positions v 0 parents.now) }
{
    let n = parents.len();
    let slot = v as usize % (n + 1);
    let rep = seek(parents, t, v, t[2 * n + slot]);
    if rep > 0 {
        return t[4 * n + rep as usize];
    }
    0
}

// Each bone's first child, from the index of all positions. (By index: each call reads the table in which the loop stores.)
fn first_children(bones: Bones, t: &mut [u32])
    requires { IndexTable bones.parents.now t.old 0 }
    ensures rows { Ready (indices_of bones.entry.rows.now) bones.entry.parents.now t.new }
{
    let n = bones.parents.len();
    for (b, row) in bones.rows.iter().enumerate() {
        t[n + b] = first_child(bones.parents, t, index_at(row, 0));
    }
}

// Each position's next sibling and each bone's first child; the table is zero.
pub(crate) fn index_children(bones: Bones, t: &mut [u32])
    requires { (8 * (length bones.parents.now + 1) ≤ length t.old) × (length bones.parents.now ≤ 65535)
        × (t.old ≡ cleared (length t.old)) }
    ensures rows { Ready (indices_of bones.entry.rows.now) bones.entry.parents.now t.new }
{
    enter_all(bones.parents, t);
    first_children(bones, t);
}
