// The steps of the check over the struct of tables: who holds it to change it cannot lend several of its tables to one call.
ghost use Rattle.std.specs.Prelude.{◌≡◌, length};
ghost use Rattle.format.specs.Refusal.{outcome};
ghost use Rattle.format.specs.Rows.{cleared};
ghost use Rattle.check_stages.specs.Agreement.{chains_stage, indices_stage, matrices_stage};
ghost use Rattle.check_steps.specs.Steps.{behind};

use check_steps::Counts;
use format::Refusal;
use read::Tables;

// 21: the chains. The working tables are zero after it.
pub(crate) fn chains_step(
    v: Result<Option<usize>, Refusal>,
    tables: &Tables,
    counts: Counts,
    derived_buckets: &mut [u32],
    derived_entries: &mut [u32],
) -> Result<Option<usize>, Refusal>
    ensures answer { outcome result ≡ behind (outcome v) (λ n.
        chains_stage n tables.now.bones.now counts.buckets tables.now.buckets.now tables.now.entries.now
        (length derived_buckets.old) (length derived_entries.old)) }
    ensures work { (derived_buckets.new ≡ cleared (length derived_buckets.old))
        × (derived_entries.new ≡ cleared (length derived_entries.old)) }
{
    check_steps::chains_step(
        v,
        tables.bones,
        tables.buckets,
        counts.buckets,
        tables.entries,
        derived_buckets,
        derived_entries,
    )
}

// 22, then 23: parents and children. The working tables are zero after it.
pub(crate) fn indices_step(
    v: Result<Option<usize>, Refusal>,
    tables: &Tables,
    counts: Counts,
    derived_parents: &mut [u16],
    derived_children: &mut [u16],
    pending: &mut [u32],
) -> Result<Option<usize>, Refusal>
    ensures answer { outcome result ≡ behind (outcome v) (λ n.
        indices_stage n tables.now.bones.now counts.parents tables.now.parents.now counts.children tables.now.children.now
        (length derived_parents.old) (length derived_children.old) (length pending.old)) }
    ensures work { (derived_parents.new ≡ cleared (length derived_parents.old))
        × (derived_children.new ≡ cleared (length derived_children.old))
        × (pending.new ≡ cleared (length pending.old)) }
{
    check_steps::indices_step(
        v,
        tables.bones,
        tables.parents,
        counts.parents,
        tables.children,
        counts.children,
        derived_parents,
        derived_children,
        pending,
    )
}

// 24, then 25: the matrices. The working tables are zero after it.
pub(crate) fn matrices_step(
    v: Result<Option<usize>, Refusal>,
    tables: &Tables,
    counts: Counts,
    derived_inverse: &mut [u32],
    derived_local: &mut [u32],
) -> Result<Option<usize>, Refusal>
    ensures answer { outcome result ≡ behind (outcome v) (λ n.
        matrices_stage n tables.now.bones.now counts.inverse tables.now.inverse.now counts.local tables.now.local.now
        (length derived_inverse.old) (length derived_local.old)) }
    ensures work { (derived_inverse.new ≡ cleared (length derived_inverse.old))
        × (derived_local.new ≡ cleared (length derived_local.old)) }
{
    check_steps::matrices_step(
        v,
        tables.bones,
        tables.inverse,
        counts.inverse,
        tables.local,
        counts.local,
        derived_inverse,
        derived_local,
    )
}
