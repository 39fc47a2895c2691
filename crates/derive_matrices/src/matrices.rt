// `build_transformations`: each bone's inverse and local matrix, as rows of sixteen words in two tables.
ghost use Rattle.std.specs.Prelude.{◌≡◌, true, ◌++◌, ◌+◌, ◌-◌, ◌*◌, ◌≤◌, length, drop, map};
ghost use Rattle.std.proofs.lemmas.List.Edits.{sets};
ghost use Rattle.format.specs.Refusal.{outcome, outcome_by};
ghost use Rattle.format.specs.Rows.{bone_of, bones_of};
ghost use Rattle.format.specs.Matrices.{local_of, inverse_of, inverses, locals};
ghost use Rattle.tables.specs.Outcome.{derived};
ghost use Rattle.derive_matrices.specs.Walking.{joint_of, meant_pose, walk_from, Walkable};
ghost use Rattle.derive_matrices.specs.Transforming.{matrices_hold, matrices_result, inverse_from};
ghost use Rattle.derive_matrices.specs.Transforming.{MatrixRoom, MatricesFirst, MatrixRows, Continues};

use crate::walk::{Climber, Joint, Pose, before, joint_in, plain_rows, side_by_side, walked};
use format::{BONE_WORDS, MATRIX_WORDS, Refusal};
use math::{Mat4, Vec3};
use rows::{kept_at, rows_of, scale_at};

// The rows of the first n bones of a table, where they are few enough, and the table holds them and the others their matrices. 2 goes
// before 1.
#[tactic(auto, using(rows::proofs::Rows::got_bones), unfolding(tables::specs::Outcome::derived, crate::specs::Transforming::matrices_hold))]
fn matrices_room(
    bones: &[u32],
    n: usize,
    inverse: usize,
    local: usize,
) -> Result<&[[u32; BONE_WORDS]], Refusal>
    ensures answer { outcome_by (λ rows. map bone_of rows.now) result
        ≡ derived n (matrices_hold n (length bones.now) inverse local) (bones_of n bones.now) }
{
    let rows = rows_of(bones, n)?;
    if inverse < MATRIX_WORDS * n || local < MATRIX_WORDS * n {
        return Err(Refusal::TableTooShort);
    }
    Ok(rows)
}

// The inverse matrix of a bone whose walk ends there. Column 4 is four +0. (Inlined: a call for each bone was measured a tenth slower,
// and one of `local_words` too.)
#[inline(always)]
fn inverse_words(end: Pose) -> [u32; 16]
    ensures answer { result ≡ inverse_from (meant_pose end) }
{
    let mut w = Mat4::from_quat_pos(end.rotation, end.position)
        .inverse()
        .words();
    w[format::COLUMN4_X] = 0;
    w[format::COLUMN4_Y] = 0;
    w[format::COLUMN4_Z] = 0;
    w[format::COLUMN4_W] = 0;
    w
}

// The local matrix of the bone in a row, from which the walk takes `own`. Column 4 is the kept words, bit for bit.
#[inline(always)]
fn local_words(row: &[u32; BONE_WORDS], own: Joint) -> [u32; 16]
    requires { own ≡ joint_of (bone_of row.now) }
    ensures answer { result ≡ local_of (bone_of row.now) }
{
    let m = Mat4::from_quat_pos(own.rotation, own.translation);
    let s = m.scale_vector();
    let scale = scale_at(row, 0);
    let scaled = Vec3 {
        x: s.x * scale.x,
        y: s.y * scale.y,
        z: s.z * scale.z,
    };
    let kept = kept_at(row, 0);
    let mut w = m.with_scale_vector(scaled).words();
    w[format::COLUMN4_X] = kept.x;
    w[format::COLUMN4_Y] = kept.y;
    w[format::COLUMN4_Z] = kept.z;
    w[format::COLUMN4_W] = kept.w;
    w
}

// Stores a matrix from word `at` on.
fn put_matrix(t: &mut [u32], at: usize, w: [u32; 16])
    requires { at + 16 ≤ length t.old }
    ensures rows { t.new ≡ sets t.old at w }
{
    t[at..at + MATRIX_WORDS].copy_from_slice(&w);
}

// Stores in row p the inverse matrix of a bone whose walk stands there with so many steps done.
fn put_inverse<const PLAIN: bool>(
    bones: &[[u32; BONE_WORDS]],
    p: usize,
    from: Climber,
    done: usize,
    inverse: &mut [u32],
)
    requires { Walkable PLAIN bones.now × (16 * p + 16 ≤ length inverse.old) }
    ensures rows { inverse.new ≡
        sets inverse.old (16 * p) (inverse_from (walk_from (map bone_of bones.now) (length bones.now - done) from)) }
{
    let end = walked::<PLAIN>(bones, from, done);
    put_matrix(inverse, MATRIX_WORDS * p, inverse_words(end));
}

// Stores the inverse matrices of the bones in rows p to p + 3. No row has a NaN.
fn put_four(bones: &[[u32; BONE_WORDS]], p: usize, inverse: &mut [u32])
    requires { Walkable true bones.now × (p + 4 ≤ length bones.now) × (16 * length bones.now ≤ length inverse.old) }
    ensures rows { Continues (inverse_of (map bone_of bones.now)) bones.now p (p + 4) inverse.old inverse.new }
{
    let a = joint_in::<true>(&bones[p]);
    let b = joint_in::<true>(&bones[p + 1]);
    let c = joint_in::<true>(&bones[p + 2]);
    let d = joint_in::<true>(&bones[p + 3]);
    let f = side_by_side(bones, a, b, c, d);
    put_inverse::<true>(bones, p, f.a, f.steps, inverse);
    put_inverse::<true>(bones, p + 1, f.b, f.steps, inverse);
    put_inverse::<true>(bones, p + 2, f.c, f.steps, inverse);
    put_inverse::<true>(bones, p + 3, f.d, f.steps, inverse);
}

// Stores the inverse matrices of the first bones, four at a time, and gives their number: fewer than four are left.
fn put_fours(bones: &[[u32; BONE_WORDS]], inverse: &mut [u32]) -> usize
    requires { Walkable true bones.now × (16 * length bones.now ≤ length inverse.old) }
    ensures number { result ≤ length bones.now }
    ensures rows { Continues (inverse_of (map bone_of bones.now)) bones.now 0 result inverse.old inverse.new }
{
    let n = bones.len();
    for four in 0..n / 4 {
        put_four(bones, 4 * four, inverse);
    }
    n - n % 4
}

// Stores the inverse matrices of the bones from row `from` on, those below being stored; the words behind the last row stay.
fn put_rest<const PLAIN: bool>(bones: &[[u32; BONE_WORDS]], from: usize, inverse: &mut [u32])
    requires { Walkable PLAIN bones.now × (from ≤ length bones.now) × (16 * length bones.now ≤ length inverse.old) }
    ensures rows { Continues (inverse_of (map bone_of bones.now)) bones.now from (length bones.now) inverse.old inverse.new }
{
    for p in from..bones.len() {
        let own = joint_in::<PLAIN>(&bones[p]);
        put_inverse::<PLAIN>(bones, p, before(own), 0, inverse);
    }
}

// Stores the local matrices of the bones; the words behind them stay. (By index: of what is stored through an adapter over the table's
// rows a proof knows the length alone.)
fn put_locals<const PLAIN: bool>(bones: &[[u32; BONE_WORDS]], local: &mut [u32])
    requires { Walkable PLAIN bones.now × (16 * length bones.now ≤ length local.old) }
    ensures rows { local.new ≡ locals (map bone_of bones.now) ++ drop (16 * length bones.now) local.old }
{
    for (p, row) in bones.iter().enumerate() {
        let own = joint_in::<PLAIN>(row);
        put_matrix(local, MATRIX_WORDS * p, local_words(row, own));
    }
}

// Stores the matrices of the bones; the words behind them stay. Where no row has a NaN, four walks go side by side.
fn put_matrices(bones: &[[u32; BONE_WORDS]], inverse: &mut [u32], local: &mut [u32])
    requires { MatrixRoom (length bones.now) inverse.old local.old }
    ensures rows { MatricesFirst (length bones.now) (map bone_of bones.now) inverse.old inverse.new local.old local.new }
{
    if plain_rows(bones) {
        put_locals::<true>(bones, local);
        let from = put_fours(bones, inverse);
        put_rest::<true>(bones, from, inverse);
    } else {
        put_locals::<false>(bones, local);
        put_rest::<false>(bones, 0, inverse);
    }
}

// The inverse and the local matrices of the first n bones of a table, sixteen words each, zeros behind them. Refuses 2 above
// 65,535 bones, then 1 where a table lacks its n rows; a refusal leaves both tables zero.
#[tactic(auto, using(tables::proofs::Outcome::enough), unfolding(tables::specs::Outcome::derived, crate::specs::Transforming::matrices_hold))]
pub fn build_transformations(
    bones: &[u32],
    n: usize,
    inverse: &mut [u32],
    local: &mut [u32],
) -> Result<(), Refusal>
    ensures answer { outcome result ≡
        matrices_result n (length bones.now) (length inverse.old) (length local.old) }
    ensures rows { MatrixRows
        (matrices_result n (length bones.now) (length inverse.old) (length local.old))
        (bones_of n bones.now)
        inverse.old inverse.new local.old local.new }
{
    let rows = match matrices_room(bones, n, inverse.len(), local.len()) {
        Ok(rows) => rows,
        Err(refusal) => {
            inverse.fill(0);
            local.fill(0);
            return Err(refusal);
        }
    };
    put_matrices(rows, inverse, local);
    inverse[MATRIX_WORDS * n..].fill(0);
    local[MATRIX_WORDS * n..].fill(0);
    Ok(())
}
