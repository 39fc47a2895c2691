// What C and Rust call to derive a skeleton's tables (docs/FORMAT.md, "Deriving"). Each export is thin, and states its outcome by the
// definitions that the function it calls states it by; a status is 0, or the number of the refusal.
ghost use Rattle.std.specs.Prelude.{◌≡◌, length};
ghost use mathlib.Core.List.{flat_map};
ghost use Rattle.format.specs.Result.{status};
ghost use Rattle.format.specs.Chains.{num_hash_buckets};
ghost use Rattle.format.specs.Deriving.{tags};
ghost use Rattle.derive_chains.specs.ChainRows.{bucket_rows, entry_rows};
ghost use Rattle.format.specs.Rows.{entry_words, bones_of, cleared};
ghost use Rattle.tables.specs.Outcome.{leaves};
ghost use Rattle.derive_chains.specs.Tagging.{tags_result};
ghost use Rattle.derive_children.specs.Indexing.{indices_result, parents_of, children_of};
ghost use Rattle.derive_matrices.specs.Transforming.{matrices_result, MatrixRows};
ghost use Rattle.rig_answers.specs.Answer.{counted};

#[unsafe(no_mangle)]
pub extern "C" fn rig_num_hash_buckets(n: usize) -> usize
    ensures answer { result ≡ num_hash_buckets n }
{
    derive_chains::buckets::num_hash_buckets(n)
}

// The chains of n bones. `count` is the number of buckets, 0 after a refusal.
#[unsafe(no_mangle)]
pub extern "C" fn rig_build_bone_tags(
    bones: &[u32],
    n: usize,
    buckets: &mut [u32],
    entries: &mut [u32],
    count: &mut usize,
) -> u32
    ensures answer { result
        ≡ status (tags_result n (length bones.now) (length buckets.old) (length entries.old)) }
    ensures count { count.new
        ≡ counted (tags_result n (length bones.now) (length buckets.old) (length entries.old)) }
    ensures buckets { buckets.new
        ≡ leaves (tags_result n (length bones.now) (length buckets.old) (length entries.old))
        (bucket_rows (tags (bones_of n bones.now))) (length buckets.old) }
    ensures entries { entries.new
        ≡ leaves (tags_result n (length bones.now) (length buckets.old) (length entries.old))
        (flat_map entry_words (entry_rows (tags (bones_of n bones.now)))) (length entries.old) }
{
    let chains = derive_chains::tags::build_bone_tags(bones, n, buckets, entries);
    *count = rig_answers::written_count(chains);
    rig_answers::written_status(chains)
}

// The parents and the child list of n bones. `count` is the number of child entries, 0 after a refusal.
#[unsafe(no_mangle)]
pub extern "C" fn rig_build_indices(
    bones: &[u32],
    n: usize,
    parents: &mut [u16],
    children: &mut [u16],
    pending: &mut [u32],
    count: &mut usize,
) -> u32
    ensures answer { result
        ≡ status (indices_result n bones.now (length parents.old) (length children.old)
        (length pending.old)) }
    ensures count { count.new
        ≡ counted (indices_result n bones.now (length parents.old) (length children.old)
        (length pending.old)) }
    ensures parents { parents.new
        ≡ leaves (indices_result n bones.now (length parents.old) (length children.old)
        (length pending.old)) (parents_of n bones.now) (length parents.old) }
    ensures children { children.new
        ≡ leaves (indices_result n bones.now (length parents.old) (length children.old)
        (length pending.old)) (children_of n bones.now) (length children.old) }
    ensures pending { pending.new ≡ cleared (length pending.old) }
{
    let lists = derive_children::indices::build_indices(bones, n, parents, children, pending);
    *count = rig_answers::written_count(lists);
    rig_answers::written_status(lists)
}

// The inverse and the local matrices of n bones.
#[unsafe(no_mangle)]
pub extern "C" fn rig_build_transformations(
    bones: &[u32],
    n: usize,
    inverse: &mut [u32],
    local: &mut [u32],
) -> u32
    ensures answer { result
        ≡ status (matrices_result n (length bones.now) (length inverse.old) (length local.old)) }
    ensures rows { MatrixRows
        (matrices_result n (length bones.now) (length inverse.old) (length local.old))
        (bones_of n bones.now)
        inverse.old inverse.new local.old local.new }
{
    let matrices = derive_matrices::matrices::build_transformations(bones, n, inverse, local);
    rig_answers::written_status(matrices)
}
