// `build_indices`: the parents list and the child list (docs/FORMAT.md, "Deriving"), in time that grows with the number of bones
// alone.
ghost use Rattle.std.specs.Prelude.{◌≡◌, ◌+◌, ◌*◌, ◌≤◌, ◌<◌, length, map};
ghost use Rattle.format.specs.Children.{children};
ghost use Rattle.format.specs.Deriving.{parents};
ghost use Rattle.format.specs.Refusal.{outcome, outcome_by};
ghost use Rattle.format.specs.Rows.{laid, cleared, bone_of, bones_of};
ghost use Rattle.tables.specs.Outcome.{leaves, derived};
ghost use Rattle.derive_children.specs.Pile.{Listing};
ghost use Rattle.derive_children.specs.Indexing.{indices_hold, indices_result, parents_of, children_of, indices_of};
ghost use Rattle.derive_children.specs.Indexing.{Indexing, ListRoom};

use crate::bones::Bones;
use crate::index::index_children;
use crate::pile::{push_roots, put_layers};
use format::{BONE_WORDS, Refusal};
use rows::{parent_at, rows_of};

// The rows of the first n bones of a table, where they are few enough, and the table holds them and the others the lists and the work. 2 goes
// before 1.
#[tactic(auto, using(rows::proofs::Rows::got_bones), unfolding(tables::specs::Outcome::derived, crate::specs::Indexing::indices_hold))]
fn indices_room(
    bones: &[u32],
    n: usize,
    parents: usize,
    children: usize,
    pending: usize,
) -> Result<&[[u32; BONE_WORDS]], Refusal>
    ensures answer { outcome_by (λ rows. map bone_of rows.now) result
        ≡ derived n (indices_hold n (length bones.now) parents children pending) (bones_of n bones.now) }
{
    let rows = rows_of(bones, n)?;
    if parents < n || children < 8 * (n + 1) || pending < 8 * (n + 1) {
        return Err(Refusal::TableTooShort);
    }
    Ok(rows)
}

// The parents list; the table is zero. (By index: of what is stored through `iter_mut().zip(..)` a proof knows the length alone.)
fn put_parents(rows: &[[u32; BONE_WORDS]], out: &mut [u16])
    requires { (length rows.now ≤ length out.old) × (out.old ≡ cleared (length out.old)) }
    ensures rows { out.new ≡ laid (parents (map bone_of rows.now)) (length out.old) }
{
    for (p, row) in rows.iter().enumerate() {
        out[p] = parent_at(row, 0);
    }
}

// The child list, in a table that is zero. Gives the number of entries.
#[tactic(auto, unfolding(format::specs::Children::children, crate::specs::Pile::entries))]
fn put_children(bones: Bones, pending: &mut [u32], out: &mut [u16]) -> usize
    requires { ListRoom bones.parents.now pending.old out.old }
    ensures answer { Listing (children (indices_of bones.entry.rows.now) bones.entry.parents.now) result out.old out.new }
{
    pending.fill(0);
    index_children(bones, pending);
    let start = push_roots(bones, pending);
    put_layers(bones, pending, out, start)
}

// The two lists, or a refusal; the working table is left as it may be.
#[tactic(auto, using(tables::proofs::Outcome::refuses, tables::proofs::Outcome::enough), unfolding(tables::specs::Outcome::derived, crate::specs::Indexing::indices_hold))]
fn attempt(
    bones: &[u32],
    n: usize,
    parents: &mut [u16],
    children: &mut [u16],
    pending: &mut [u32],
) -> Result<usize, Refusal>
    ensures answer { Indexing n bones.now parents.old children.old pending.old
        result parents.new children.new }
{
    let room = indices_room(bones, n, parents.len(), children.len(), pending.len());
    parents.fill(0);
    children.fill(0);
    let rows = room?;
    put_parents(rows, parents);
    let bones = Bones {
        rows,
        parents: &parents[..n],
    };
    let count = put_children(bones, pending, children);
    Ok(count)
}

// Derives the parents list and the child list of the first n bones of a table. Gives the number of child entries. Refuses 2,
// then 1 where `bones` has fewer than n rows, `parents` fewer than n, `children` fewer than 8 * (n + 1) entries or `pending`, the
// working table, fewer than 4 * (n + 1) rows of two words. Behind the lists, and after a refusal, both tables are zero; `pending`
// is zero after every call.
pub fn build_indices(
    bones: &[u32],
    n: usize,
    parents: &mut [u16],
    children: &mut [u16],
    pending: &mut [u32],
) -> Result<usize, Refusal>
    ensures answer { outcome result
        ≡ indices_result n bones.now (length parents.old) (length children.old)
        (length pending.old) }
    ensures parents { parents.new
        ≡ leaves (indices_result n bones.now (length parents.old) (length children.old)
        (length pending.old)) (parents_of n bones.now) (length parents.old) }
    ensures children { children.new
        ≡ leaves (indices_result n bones.now (length parents.old) (length children.old)
        (length pending.old)) (children_of n bones.now) (length children.old) }
    ensures pending { pending.new ≡ cleared (length pending.old) }
{
    let r = attempt(bones, n, parents, children, pending);
    pending.fill(0);
    r
}
