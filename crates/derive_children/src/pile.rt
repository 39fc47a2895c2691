// The pending list as a pile of words, never expanded: a word stands for its position and all later ones with the same parent.
// The pile lies behind the next siblings and first children of `index`, and has at most n + 4k words after k layers.
// (`PileTable` stands in the contracts, and in no ghost field of a struct of the table and `top`: that would have to hold after each word
// pushed too, and a push would ask for more than room. `Ready` hands the table over from `index`.)
ghost use Rattle.std.specs.Prelude.{◌≡◌, ℕ, suc, ◌+◌, ◌*◌, ◌≤◌, ◌<◌, length};
ghost use Rattle.std.proofs.lemmas.List.Edits.{sets};
ghost use Rattle.format.specs.Children.{pair_at};
ghost use Rattle.format.specs.Rows.{cleared};
ghost use Rattle.derive_children.specs.Pile.{PushedAt, root_word, Ready, PileTable, Took, TookFour, Layered, Listing};
ghost use Rattle.derive_children.specs.Pile.{entries, pending_of};
ghost use Rattle.derive_children.specs.Indexing.{indices_of, Rooted};

use crate::bones::Bones;
use rows::index_at;

// A bone taken, the word of its first child, and how many words the pile then has. (No tuple: the clauses name the three.)
#[derive(Clone, Copy)]
struct One {
    bone: usize,
    kid: u32,
    top: usize,
}

// The words of the first children of four bones taken, and how many words the pile then has. (By name: a clause that reads an array by
// index names a default for each of its words.)
#[derive(Clone, Copy)]
struct Four {
    a: u32,
    b: u32,
    c: u32,
    d: u32,
    top: usize,
}

// Puts a word on the pile that starts at `base`, if it is not 0.
fn push(t: &mut [u32], base: usize, top: usize, w: u32) -> usize
    requires { base + top < length t.old }
    ensures answer { PushedAt t.old base top w result t.new }
{
    if w == 0 {
        return top;
    }
    t[base + top] = w;
    top + 1
}

// A root's word; 0 for a bone whose parent is not negative.
fn if_root(p: u16, w: u32) -> u32
    ensures answer { result ≡ root_word p w }
{
    if p >= 32768 {
        return w;
    }
    0
}

// The pending list at first: the roots' words, the first root's on top.
pub(crate) fn push_roots(bones: Bones, t: &mut [u32]) -> usize
    requires { Ready (indices_of bones.rows.now) bones.parents.now t.old }
    ensures answer { Rooted (indices_of bones.entry.rows.now) bones.entry.parents.now result t.new }
{
    let n = bones.parents.len();
    let mut top = 0;
    for r in (0..n).rev() {
        let w = if_root(bones.parents[r], t[n + r]);
        top = push(t, 2 * n, top, w);
    }
    top
}

// Writes the pair (index, parent) of a bone.
fn put_pair(bones: Bones, out: &mut [u16], at: usize, bone: usize)
    requires { (bone < length bones.parents.now) × (at + 1 < length out.old) }
    ensures rows { out.new ≡ sets out.old at (pair_at (indices_of bones.entry.rows.now) bones.entry.parents.now bone) }
{
    out[at] = index_at(&bones.rows[bone], 0);
    out[at + 1] = bones.parents[bone];
}

// Takes one bone from the pile and writes its pair; from an empty pile it writes the last bone's pair again.
#[tactic(auto, using(crate::proofs::Taking::front_known))]
fn take_one(bones: Bones, t: &mut [u32], out: &mut [u16], at: usize, top: usize, last: usize) -> One
    requires { PileTable (indices_of bones.rows.now) bones.parents.now t.old top
        × (last < length bones.parents.now)
        × (at + 1 < length out.old) }
    ensures answer { Took (indices_of bones.entry.rows.now) bones.entry.parents.now t.old
        top last out.old at result t.new out.new }
{
    if top == 0 {
        put_pair(bones, out, at, last);
        return One {
            bone: last,
            kid: 0,
            top: 0,
        };
    }
    let n = bones.parents.len();
    let bone = t[2 * n + top - 1] as usize - 1;
    let w = t[bone];
    let left = push(t, 2 * n, top - 1, w);
    put_pair(bones, out, at, bone);
    One {
        bone: bone,
        kid: t[n + bone],
        top: left,
    }
}

// Takes a layer and writes it.
fn take_four(bones: Bones, t: &mut [u32], out: &mut [u16], at: usize, top: usize) -> Four
    requires { PileTable (indices_of bones.rows.now) bones.parents.now t.old top
        × (0 < top)
        × (at + 8 ≤ length out.old) }
    ensures answer { TookFour (indices_of bones.entry.rows.now) bones.entry.parents.now
        t.old top out.old at result t.new out.new }
{
    let a = take_one(bones, t, out, at, top, 0);
    let b = take_one(bones, t, out, at + 2, a.top, a.bone);
    let c = take_one(bones, t, out, at + 4, b.top, b.bone);
    let d = take_one(bones, t, out, at + 6, c.top, c.bone);
    Four {
        a: a.kid,
        b: b.kid,
        c: c.kid,
        d: d.kid,
        top: d.top,
    }
}

// One layer: taken, written, and its children put in front of the rest.
fn layer(bones: Bones, t: &mut [u32], out: &mut [u16], at: usize, top: usize) -> usize
    requires { PileTable (indices_of bones.rows.now) bones.parents.now t.old top
        × (0 < top)
        × (2 * length bones.parents.now + top + 4 ≤ length t.old)
        × (at + 8 ≤ length out.old) }
    ensures answer { Layered (indices_of bones.entry.rows.now) bones.entry.parents.now
        t.old top out.old at result t.new out.new }
{
    let base = 2 * bones.parents.len();
    let f = take_four(bones, t, out, at, top);
    let d = push(t, base, f.top, f.d);
    let c = push(t, base, d, f.c);
    let b = push(t, base, c, f.b);
    push(t, base, b, f.a)
}

// All layers, at most one more than there are bones; `out` is zero. Gives the number of entries.
pub(crate) fn put_layers(bones: Bones, t: &mut [u32], out: &mut [u16], start: usize) -> usize
    requires { PileTable (indices_of bones.rows.now) bones.parents.now t.old start
        × (start ≤ length bones.parents.now)
        × (8 * (length bones.parents.now + 1) ≤ length out.old)
        × (out.old ≡ cleared (length out.old)) }
    ensures answer { Listing
        (entries (indices_of bones.entry.rows.now) bones.entry.parents.now
        (suc (length bones.entry.parents.now)) (pending_of bones.entry.parents.now t.old start))
        result out.old out.new }
{
    let mut top = start;
    let mut at = 0;
    for _layer in 0..bones.parents.len() + 1 {
        if top == 0 {
            return at;
        }
        top = layer(bones, t, out, at, top);
        at += 8;
    }
    at
}
