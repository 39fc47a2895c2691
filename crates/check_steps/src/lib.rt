// The answer of the check, and the steps to it behind the reading (docs/FORMAT.md, "Lookup and check"): the room, chains, indices,
// matrices, each behind the answer so far, and the clearing where it is no acceptance.
#![tactic(auto)]

ghost use Rattle.std.specs.Prelude.{◌≡◌, length};
ghost use Rattle.format.specs.Deriving.{derives};
ghost use Rattle.format.specs.Refusal.{outcome};
ghost use Rattle.format.specs.Rows.{cleared};
ghost use Rattle.check_stages.specs.Agreement.{chains_stage, indices_stage, matrices_stage};
ghost use Rattle.tables.specs.Working.{derive_room};
ghost use Rattle.read.specs.Lent.{lists, SameTables};
ghost use Rattle.read.specs.Reads.{meant_read};
ghost use Rattle.check_steps.specs.Steps.{counts_of, begun, behind, kept_by};

use check_stages::{chains_stage, indices_stage, matrices_stage, room};
use format::Refusal;
use read::{Skeleton, Tables};

// How long each part is that was read: in rows, and in words of a list of matrices. What is absent counts 0.
#[derive(Clone, Copy, Debug, Default, PartialEq, Eq)]
pub struct Counts {
    pub bones: usize,
    pub buckets: usize,
    pub inverse: usize,
    pub local: usize,
    pub parents: usize,
    pub children: usize,
}

// How much of each part was read; nothing of a part that does not stand, and of a refusal.
pub fn count_parts(r: Result<Option<Skeleton>, Refusal>) -> Counts
    ensures answer { result ≡ counts_of r }
{
    let Ok(Some(s)) = r else {
        return Counts::default();
    };
    Counts {
        bones: s.bones.unwrap_or(0),
        buckets: s.buckets.unwrap_or(0),
        inverse: s.inverse.unwrap_or(0),
        local: s.local.unwrap_or(0),
        parents: s.parents.unwrap_or(0),
        children: s.children.unwrap_or(0),
    }
}

// Reading's answer, then 1 where working tables of so many words lack the rows for n bones.
pub fn begin(
    r: Result<Option<Skeleton>, Refusal>,
    n: usize,
    buckets: usize,
    entries: usize,
    inverse: usize,
    local: usize,
    parents: usize,
    children: usize,
    pending: usize,
) -> Result<Option<usize>, Refusal>
    ensures answer { outcome result
        ≡ begun (meant_read r) n (derives (derive_room buckets entries inverse local parents children pending) n) }
{
    let Some(_) = r? else {
        return Ok(None);
    };
    if room(
        n, buckets, entries, inverse, local, parents, children, pending,
    ) {
        Ok(Some(n))
    } else {
        Err(Refusal::TableTooShort)
    }
}

// ---- The three steps: each is a stage, where nothing was refused so far, and else clears its own working tables. (No one step takes
// its stage as a closure: the clearing would stand behind the call of it, and clear once more what the stage has cleared. Each is lent the
// lists that it compares, and not the struct of all: who has shared slices can call it too.)

// 21: the chains. The working tables are zero after it.
pub fn chains_step(
    v: Result<Option<usize>, Refusal>,
    bones: &[u32],
    buckets: &[u32],
    count: usize,
    entries: &[u32],
    derived_buckets: &mut [u32],
    derived_entries: &mut [u32],
) -> Result<Option<usize>, Refusal>
    ensures answer { outcome result ≡ behind (outcome v) (λ n.
        chains_stage n bones.now count buckets.now entries.now
        (length derived_buckets.old) (length derived_entries.old)) }
    ensures work { (derived_buckets.new ≡ cleared (length derived_buckets.old))
        × (derived_entries.new ≡ cleared (length derived_entries.old)) }
{
    if let Ok(Some(n)) = v {
        chains_stage(
            bones,
            n,
            buckets,
            count,
            entries,
            derived_buckets,
            derived_entries,
        )?;
        return Ok(Some(n));
    }
    derived_buckets.fill(0);
    derived_entries.fill(0);
    v
}

// 22, then 23: parents and children. The working tables are zero after it.
pub fn indices_step(
    v: Result<Option<usize>, Refusal>,
    bones: &[u32],
    parents: &[u16],
    p: usize,
    children: &[u16],
    c: usize,
    derived_parents: &mut [u16],
    derived_children: &mut [u16],
    pending: &mut [u32],
) -> Result<Option<usize>, Refusal>
    ensures answer { outcome result ≡ behind (outcome v) (λ n.
        indices_stage n bones.now p parents.now c children.now
        (length derived_parents.old) (length derived_children.old) (length pending.old)) }
    ensures work { (derived_parents.new ≡ cleared (length derived_parents.old))
        × (derived_children.new ≡ cleared (length derived_children.old))
        × (pending.new ≡ cleared (length pending.old)) }
{
    if let Ok(Some(n)) = v {
        indices_stage(
            bones,
            n,
            parents,
            p,
            children,
            c,
            derived_parents,
            derived_children,
            pending,
        )?;
        return Ok(Some(n));
    }
    derived_parents.fill(0);
    derived_children.fill(0);
    pending.fill(0);
    v
}

// 24, then 25: the matrices. The working tables are zero after it.
pub fn matrices_step(
    v: Result<Option<usize>, Refusal>,
    bones: &[u32],
    inverse: &[u32],
    i: usize,
    local: &[u32],
    l: usize,
    derived_inverse: &mut [u32],
    derived_local: &mut [u32],
) -> Result<Option<usize>, Refusal>
    ensures answer { outcome result ≡ behind (outcome v) (λ n.
        matrices_stage n bones.now i inverse.now l local.now
        (length derived_inverse.old) (length derived_local.old)) }
    ensures work { (derived_inverse.new ≡ cleared (length derived_inverse.old))
        × (derived_local.new ≡ cleared (length derived_local.old)) }
{
    if let Ok(Some(n)) = v {
        matrices_stage(
            bones,
            n,
            inverse,
            i,
            local,
            l,
            derived_inverse,
            derived_local,
        )?;
        return Ok(Some(n));
    }
    derived_inverse.fill(0);
    derived_local.fill(0);
    v
}

// The answer, with the reading's tables cleared unless it is an acceptance.
pub fn settle(
    v: Result<Option<usize>, Refusal>,
    tables: &mut Tables,
) -> Result<Option<usize>, Refusal>
    ensures answer { result ≡ v }
    ensures tables { lists tables.new ≡ kept_by v (lists tables.old) }
    ensures same { SameTables tables.old tables.new }
{
    if let Ok(Some(_)) = v {
        return v;
    }
    tables.clear();
    v
}
