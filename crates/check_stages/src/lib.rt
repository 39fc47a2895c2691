// The stages of the check behind reading (docs/FORMAT.md, "Lookup and check"): whether the working tables have room, and then chains,
// indices and matrices. Each stage derives from the bones read into working tables, compares with what was read, and leaves its
// working tables zero. Counts are of words, buckets or bones; what is absent counts 0.
// (A table stands beside its count: a reading leaves the two, and `same_words` and `same_chains` cut both sides in one place. Bones are lent as
// deriving takes them, a table and how many rows count, as C lends them. Three stages, of other tables and refusals: each is lent what it fills,
// since of other working tables it would have to say that they stay.)
#![tactic(auto)]

ghost use Rattle.std.specs.Prelude.{◌≡◌, ◌≤◌, length};
ghost use Rattle.format.specs.Result.{done};
ghost use Rattle.format.specs.Deriving.{derives};
ghost use Rattle.format.specs.Refusal.{outcome};
ghost use Rattle.format.specs.Rows.{cleared};
ghost use Rattle.tables.specs.Working.{derive_room};
ghost use Rattle.check_stages.specs.Agreement.{chains_judged, indices_judged, matrices_judged};
ghost use Rattle.check_stages.specs.Agreement.{chains_stage, indices_stage, matrices_stage};

use check_lists::{same_chains, same_words};
use derive_chains::buckets::{bucket_count, entry_count};
use derive_chains::tags::build_bone_tags;
use derive_children::indices::build_indices;
use derive_matrices::matrices::build_transformations;
use format::{ENTRY_WORDS, MATRIX_WORDS, Refusal};

// ---- room

// Whether working tables of so many words have the rows that n bones need: an entry is three words and a matrix sixteen, and for each of
// n + 1 there are eight child entries and four pending rows of two words. (Told by their lengths: a caller may ask before it has tables.)
#[tactic(auto, unfolding(format::specs::Deriving::derives))]
pub fn room(
    n: usize,
    buckets: usize,
    entries: usize,
    inverse: usize,
    local: usize,
    parents: usize,
    children: usize,
    pending: usize,
) -> bool
    ensures answer { result ≡ derives (derive_room buckets entries inverse local parents children pending) n }
{
    bucket_count(n) <= buckets
        && entry_count(n) <= entries / ENTRY_WORDS
        && n <= inverse / MATRIX_WORDS
        && n <= local / MATRIX_WORDS
        && n <= parents
        && n < children / 8
        && n < pending / 8
}

// ---- chains

// 21, behind what deriving gave.
#[tactic(auto, unfolding(crate::specs::Agreement::chains_judged))]
fn chains_judged(
    derived: Result<usize, Refusal>,
    buckets: &[u32],
    count: usize,
    entries: &[u32],
    n: usize,
    dbuckets: &[u32],
    dentries: &[u32],
) -> Result<(), Refusal>
    ensures answer { outcome result
        ≡ chains_judged (outcome derived) buckets.now count entries.now n dbuckets.now
        dentries.now }
{
    let c = derived?;
    if !same_chains(buckets, count, entries, n, dbuckets, c, dentries) {
        return Err(Refusal::Chains);
    }
    Ok(())
}

// Compares the chains of the first `count` buckets read with those of the first n bones of a table: 21. A chain of more than n
// entries, a circular one among them, differs. Deriving's 2, then 1, go first.
pub fn chains_stage(
    bones: &[u32],
    n: usize,
    buckets: &[u32],
    count: usize,
    entries: &[u32],
    dbuckets: &mut [u32],
    dentries: &mut [u32],
) -> Result<(), Refusal>
    ensures answer { outcome result
        ≡ chains_stage n bones.now count buckets.now entries.now
        (length dbuckets.old) (length dentries.old) }
    ensures work { (dbuckets.new ≡ cleared (length dbuckets.old))
        × (dentries.new ≡ cleared (length dentries.old)) }
{
    let derived = build_bone_tags(bones, n, dbuckets, dentries);
    let r = chains_judged(derived, buckets, count, entries, n, dbuckets, dentries);
    dbuckets.fill(0);
    dentries.fill(0);
    r
}

// ---- parents and children

// 22, then 23, behind what deriving gave.
#[tactic(auto, unfolding(crate::specs::Agreement::indices_judged))]
fn indices_judged(
    derived: Result<usize, Refusal>,
    n: usize,
    parents: &[u16],
    p: usize,
    children: &[u16],
    c: usize,
    dparents: &[u16],
    dchildren: &[u16],
) -> Result<(), Refusal>
    ensures answer { outcome result
        ≡ indices_judged (outcome derived) n parents.now p children.now c dparents.now
        dchildren.now }
{
    let k = derived?;
    if !same_words(parents, p, dparents, n) {
        return Err(Refusal::Parents);
    }
    if !same_words(children, c, dchildren, k) {
        return Err(Refusal::Children);
    }
    Ok(())
}

// Compares the first p parents and then the first c child entries read with those of the first n bones of a table: 22, then 23.
// Deriving's 2, then 1, go first.
pub fn indices_stage(
    bones: &[u32],
    n: usize,
    parents: &[u16],
    p: usize,
    children: &[u16],
    c: usize,
    dparents: &mut [u16],
    dchildren: &mut [u16],
    pending: &mut [u32],
) -> Result<(), Refusal>
    ensures answer { outcome result
        ≡ indices_stage n bones.now p parents.now c children.now
        (length dparents.old) (length dchildren.old) (length pending.old) }
    ensures work { (dparents.new ≡ cleared (length dparents.old))
        × (dchildren.new ≡ cleared (length dchildren.old))
        × (pending.new ≡ cleared (length pending.old)) }
{
    let derived = build_indices(bones, n, dparents, dchildren, pending);
    let r = indices_judged(derived, n, parents, p, children, c, dparents, dchildren);
    dparents.fill(0);
    dchildren.fill(0);
    r
}

// ---- matrices

// 24, then 25, behind what deriving gave.
#[tactic(auto, unfolding(crate::specs::Agreement::matrices_judged))]
fn matrices_judged(
    derived: Result<(), Refusal>,
    n: usize,
    inverse: &[u32],
    i: usize,
    local: &[u32],
    l: usize,
    dinverse: &[u32],
    dlocal: &[u32],
) -> Result<(), Refusal>
    requires { outcome derived ≡ done tt → n ≤ 65535 }
    ensures answer { outcome result
        ≡ matrices_judged (outcome derived) n inverse.now i local.now l dinverse.now
        dlocal.now }
{
    derived?;
    let words = MATRIX_WORDS * n;
    if !same_words(inverse, i, dinverse, words) {
        return Err(Refusal::Inverse);
    }
    if !same_words(local, l, dlocal, words) {
        return Err(Refusal::Local);
    }
    Ok(())
}

// Compares the first i words of the inverse matrices and then the first l of the local ones read with those of the first n bones of a
// table: 24, then 25. Deriving's 2, then 1, go first.
pub fn matrices_stage(
    bones: &[u32],
    n: usize,
    inverse: &[u32],
    i: usize,
    local: &[u32],
    l: usize,
    dinverse: &mut [u32],
    dlocal: &mut [u32],
) -> Result<(), Refusal>
    ensures answer { outcome result
        ≡ matrices_stage n bones.now i inverse.now l local.now
        (length dinverse.old) (length dlocal.old) }
    ensures work { (dinverse.new ≡ cleared (length dinverse.old))
        × (dlocal.new ≡ cleared (length dlocal.old)) }
{
    let derived = build_transformations(bones, n, dinverse, dlocal);
    let r = matrices_judged(derived, n, inverse, i, local, l, dinverse, dlocal);
    dinverse.fill(0);
    dlocal.fill(0);
    r
}
