// The skeleton's record, 112 bytes (docs/FORMAT.md, "Records"), as one array of words.
ghost use Rattle.std.specs.Prelude.{◌≡◌, ◌+◌, ◌*◌, ◌≤◌, ◌<◌, min, length};
ghost use Rattle.std.proofs.lemmas.List.Edits.{sets};
ghost use Rattle.format.specs.Field.{lay};
ghost use Rattle.format.specs.Layout.{skeleton_items};
ghost use Rattle.write.specs.Placing.{SkeletonCounts, meant_starts, skeleton_words};
ghost use Rattle.format.specs.Words.{meant_words4};

use crate::starts::{Starts, pointer};
use crate::words::put_run;
use format::Words4;

// Two 16-bit numbers in one word, the first in the lower half. The counts are `usize`: `from` would want them cut first.
fn halves(lo: usize, hi: usize) -> u32
    requires { (lo ≤ 65535) × (hi ≤ 65535) }
    ensures answer { result ≡ lo + 65536 * hi }
{
    (lo + 65536 * hi) as u32
}

// The words of the record of n bones, c buckets and k child entries.
#[tactic(auto, unfolding(crate::specs::Placing::skeleton_words))]
fn skeleton_words(at: Starts, free: Words4, n: usize, c: usize, k: usize) -> [u32; 28]
    requires { SkeletonCounts (meant_starts at) n c k }
    ensures answer { result ≡ skeleton_words (meant_starts at) (meant_words4 free) n c k }
{
    let buckets = pointer(at.buckets, c);
    let bones = pointer(at.bones + format::BLOCK_HEADER_SIZE, n);
    let inverse = pointer(at.inverse, n);
    let local = pointer(at.local, n);
    let parents = pointer(at.parents, n);
    let children = pointer(at.children, k);
    let hashed = halves(c, n.min(c));
    let counts = halves(1, n);
    [
        format::SKELETON_KIND,
        1,
        0,
        0,
        buckets,
        0,
        hashed,
        free.x,
        bones,
        0,
        inverse,
        0,
        local,
        0,
        parents,
        0,
        children,
        0,
        0,
        0,
        free.y,
        free.z,
        free.w,
        counts,
        k as u32,
        0,
        0,
        0,
    ]
}

// Stores the record at the buffer's start.
pub(crate) fn put_skeleton(d: &mut [u8], at: Starts, free: Words4, n: usize, c: usize, k: usize)
    requires { SkeletonCounts (meant_starts at) n c k × (112 ≤ length d.old) }
    ensures bytes { d.new ≡ sets d.old 0 (lay (skeleton_items (meant_starts at) (meant_words4 free) n c k)) }
{
    put_run(d, 0, &skeleton_words(at, free, n, c, k));
}
