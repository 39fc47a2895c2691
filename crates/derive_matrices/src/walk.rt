// The parent walk: what it takes from a bone's row, and where it ends, for one bone or for four side by side (docs/FORMAT.md,
// "Deriving": `build_transformations`).
ghost use Rattle.std.specs.Prelude.{◌≡◌, true, IsTrue, EachIndex, ◌↔◌, ◌+◌, ◌-◌, ◌*◌, ◌≤◌, ◌<◌, length, get_or, map};
ghost use Rattle.format.specs.Rows.{bone_of};
ghost use Rattle.math.specs.Word.{float_of};
ghost use Rattle.derive_matrices.specs.Walking.{joint_of, own_pose, meant_pose, climber_pose, walk_from};
ghost use Rattle.derive_matrices.specs.Walking.{plain_word, PlainRow, Readable, Walkable, Climb};
ghost use Rattle.derive_matrices.specs.Lanes.{lanes_of, lane_of, raised, LanePut, LanesRaised, SideBySide};

use format::{
    BONE_WORDS, ROTATION_W, ROTATION_X, ROTATION_Y, ROTATION_Z, SIBLING_AND_PARENT, TRANSLATION_X,
    TRANSLATION_Y, TRANSLATION_Z,
};
use math::{INFINITY_WORD, SIGN_BIT, Vec3, Vec4, float_of};

// What the parent walk takes from a bone.
#[derive(Clone, Copy)]
pub struct Joint {
    pub rotation: Vec4,
    pub translation: Vec3,
    // a pattern, negative from 32768 on
    pub parent: u16,
}

// Where the parent walk stands.
#[derive(Clone, Copy)]
pub struct Pose {
    pub position: Vec3,
    pub rotation: Vec4,
}

// A bone on its walk: where it stands, and the parent to go to next.
#[derive(Clone, Copy)]
pub struct Climber {
    pub pose: Pose,
    // a pattern, negative from 32768 on
    pub parent: u16,
}

// Four bones on their walks, each so many steps up. (By name: a clause that reads an array of structs by index names a default for each.)
#[derive(Clone, Copy)]
pub struct Four {
    pub a: Climber,
    pub b: Climber,
    pub c: Climber,
    pub d: Climber,
    pub steps: usize,
}

// the words of a row that the walk reads as floats, from the row's first on
const JOINT_FLOATS: usize = 7;

// the first pattern of a negative parent
const NEGATIVE: u16 = 32768;

// the poses that stand side by side, and the numbers of all of them
const LANES: usize = 4;

const LANE_FLOATS: usize = 28;

// Whether a word is no NaN's.
fn plain(w: u32) -> bool
    ensures answer { result ≡ plain_word w }
{
    w % SIGN_BIT <= INFINITY_WORD
}

// Whether none of the words that the walk reads as floats from a row is a NaN's.
fn plain_row(row: &[u32; BONE_WORDS]) -> bool
    ensures answer { IsTrue result → PlainRow row.now }
{
    row[..JOINT_FLOATS].iter().all(|word| plain(*word))
}

// Whether that holds of each row. One pass, so that no step of a walk looks for a NaN where there is none.
pub(crate) fn plain_rows(bones: &[[u32; BONE_WORDS]]) -> bool
    ensures answer { Walkable result bones.now }
{
    bones.iter().all(plain_row)
}

// The float at word i of a row. `PLAIN` says here and below that no row has a NaN: its words are then taken as they stand.
// (The fact is in the contracts, and in no ghost field of a struct of the rows: such a struct takes no `const` parameter of type `bool`,
// and by a number, 0 or 1, or a type for each it would be no plainer.)
fn float_in<const PLAIN: bool>(row: &[u32; BONE_WORDS], i: usize) -> f32
    requires { Readable PLAIN row.now × (i < 7) }
    ensures answer { result ≡ float_of (get_or row.now i 0) }
{
    let word = row[i];
    if PLAIN {
        f32::from_bits(word)
    } else {
        float_of(word)
    }
}

// What the walk takes from the bone in a row.
pub(crate) fn joint_in<const PLAIN: bool>(row: &[u32; BONE_WORDS]) -> Joint
    requires { Readable PLAIN row.now }
    ensures answer { result ≡ joint_of (bone_of row.now) }
{
    Joint {
        rotation: Vec4 {
            x: float_in::<PLAIN>(row, ROTATION_X),
            y: float_in::<PLAIN>(row, ROTATION_Y),
            z: float_in::<PLAIN>(row, ROTATION_Z),
            w: float_in::<PLAIN>(row, ROTATION_W),
        },
        translation: Vec3 {
            x: float_in::<PLAIN>(row, TRANSLATION_X),
            y: float_in::<PLAIN>(row, TRANSLATION_Y),
            z: float_in::<PLAIN>(row, TRANSLATION_Z),
        },
        parent: (row[SIBLING_AND_PARENT] / 65536) as u16,
    }
}

// A bone before its first step. (No From: the name tells that no step is done; at a later one a joint is no climber.)
pub(crate) fn before(own: Joint) -> Climber
    ensures answer { climber_pose result ≡ own_pose own }
    ensures parent { result.parent ≡ own.parent }
{
    Climber {
        pose: Pose {
            position: own.translation,
            rotation: own.rotation,
        },
        parent: own.parent,
    }
}

// Whether a walk goes on to this parent: it is the position of one of n bones.
fn climbs(p: u16, n: usize) -> bool
    ensures answer { IsTrue result ↔ Climb n p }
{
    p < NEGATIVE && usize::from(p) < n
}

// Where the walk ends of a bone that stands there with so many steps done. It climbs while the parent is the position of a bone and
// fewer steps are done than there are bones.
pub(crate) fn walked<const PLAIN: bool>(
    bones: &[[u32; BONE_WORDS]],
    from: Climber,
    done: usize,
) -> Pose
    requires { Walkable PLAIN bones.now }
    ensures answer { meant_pose result ≡ walk_from (map bone_of bones.now) (length bones.now - done) from }
{
    let Pose {
        mut position,
        mut rotation,
    } = from.pose;
    let mut p = from.parent;
    for _step in done..bones.len() {
        if !climbs(p, bones.len()) {
            break;
        }
        let parent = joint_in::<PLAIN>(&bones[usize::from(p)]);
        rotation = parent.rotation.quat_mul(rotation);
        position = parent.rotation.quat_rotate(position) + parent.translation;
        p = parent.parent;
    }
    Pose { position, rotation }
}

// ---- four bones side by side

// The seven numbers of four poses: the x of all four, their y, and so on, the position before the rotation. Number k of pose i
// stands at i + 4 × k.
fn lanes_of(a: Joint, b: Joint, c: Joint, d: Joint) -> [f32; LANE_FLOATS]
    ensures answer { result ≡ lanes_of (own_pose a) (own_pose b) (own_pose c) (own_pose d) }
{
    [
        a.translation.x,
        b.translation.x,
        c.translation.x,
        d.translation.x,
        a.translation.y,
        b.translation.y,
        c.translation.y,
        d.translation.y,
        a.translation.z,
        b.translation.z,
        c.translation.z,
        d.translation.z,
        a.rotation.x,
        b.rotation.x,
        c.rotation.x,
        d.rotation.x,
        a.rotation.y,
        b.rotation.y,
        c.rotation.y,
        d.rotation.y,
        a.rotation.z,
        b.rotation.z,
        c.rotation.z,
        d.rotation.z,
        a.rotation.w,
        b.rotation.w,
        c.rotation.w,
        d.rotation.w,
    ]
}

// The pose in lane i.
fn pose_in(s: &[f32], i: usize) -> Pose
    requires { (i < 4) × (length s.now ≡ 28) }
    ensures answer { meant_pose result ≡ lane_of s.now i }
{
    Pose {
        position: Vec3 {
            x: s[i],
            y: s[i + 4],
            z: s[i + 8],
        },
        rotation: Vec4 {
            x: s[i + 12],
            y: s[i + 16],
            z: s[i + 20],
            w: s[i + 24],
        },
    }
}

// Puts a pose into lane i; the other lanes stay.
fn put_pose(s: &mut [f32], i: usize, v: Pose)
    requires { (i < 4) × (length s.old ≡ 28) }
    ensures lanes { LanePut i (meant_pose v) s.old s.new }
{
    s[i] = v.position.x;
    s[i + 4] = v.position.y;
    s[i + 8] = v.position.z;
    s[i + 12] = v.rotation.x;
    s[i + 16] = v.rotation.y;
    s[i + 20] = v.rotation.z;
    s[i + 24] = v.rotation.w;
}

// A pose one step up, by its parent's own.
fn raised(s: Pose, parent: Pose) -> Pose
    ensures answer { meant_pose result ≡ raised (meant_pose parent) (meant_pose s) }
{
    let turn = parent.rotation;
    let position = turn.quat_rotate(s.position) + parent.position;
    let rotation = turn.quat_mul(s.rotation);
    Pose { position, rotation }
}

// One step of each pose, by the parent in the same lane. The compiler takes all four lanes at a time.
fn raise_lanes(s: &mut [f32], parents: &[f32])
    requires { (length s.old ≡ 28) × (length parents.now ≡ 28) }
    ensures lanes { LanesRaised parents.now s.old s.new }
{
    for i in 0..LANES {
        let up = raised(pose_in(s, i), pose_in(parents, i));
        put_pose(s, i, up);
    }
}

// Whether all four walks go on.
fn all_climb(parents: &[u16], n: usize) -> bool
    ensures answer { IsTrue result → EachIndex parents.now (λ k. Climb n (get_or parents.now k 0)) }
{
    parents.iter().all(|p| climbs(*p, n))
}

// Four bones climb side by side while all four can: a step of one waits for no step of another. No row has a NaN.
// (A `while`: it ends by two conditions, and the number of its steps is part of the answer.)
pub(crate) fn side_by_side(
    bones: &[[u32; BONE_WORDS]],
    a: Joint,
    b: Joint,
    c: Joint,
    d: Joint,
) -> Four
    requires { Walkable true bones.now }
    ensures answer { SideBySide bones.now a b c d result }
{
    let n = bones.len();
    let mut poses = lanes_of(a, b, c, d);
    let mut parents = [a.parent, b.parent, c.parent, d.parent];
    let mut steps = 0;
    while steps < n && all_climb(&parents, n) {
        let j = joint_in::<true>(&bones[usize::from(parents[0])]);
        let k = joint_in::<true>(&bones[usize::from(parents[1])]);
        let l = joint_in::<true>(&bones[usize::from(parents[2])]);
        let m = joint_in::<true>(&bones[usize::from(parents[3])]);
        raise_lanes(&mut poses, &lanes_of(j, k, l, m));
        parents = [j.parent, k.parent, l.parent, m.parent];
        steps += 1;
    }
    Four {
        a: Climber {
            pose: pose_in(&poses, 0),
            parent: parents[0],
        },
        b: Climber {
            pose: pose_in(&poses, 1),
            parent: parents[1],
        },
        c: Climber {
            pose: pose_in(&poses, 2),
            parent: parents[2],
        },
        d: Climber {
            pose: pose_in(&poses, 3),
            parent: parents[3],
        },
        steps,
    }
}
