// The setters of a matrix: `Mat4::set_scale_vector` and `Mat4::set_column4` of `src/math.rs`. A matrix is a pointer to its sixteen floats, a
// vector one to its three or four. A contract here is one of floats, all NaN being one: that NaN keep their bits is seen in runs and not proved.
ghost use Rattle.std.specs.Prelude.{◌≡◌};
ghost use Rattle.math.specs.Matrix.{set_diagonal, set_column4};

use math::{Mat4, Vec3, Vec4};

// Words 0, 5, 10 of m are s, and every other is as it was.
#[unsafe(no_mangle)]
pub extern "C" fn rig_set_scale_vector(m: &mut Mat4, s: &Vec3)
    ensures matrix { m.new.0 ≡ set_diagonal s.now.x s.now.y s.now.z m.old.0 }
{
    m.set_scale_vector(*s);
}

// Words 3, 7, 11, 15 of m are v, and every other is as it was.
#[unsafe(no_mangle)]
pub extern "C" fn rig_set_column4(m: &mut Mat4, v: &Vec4)
    ensures matrix { m.new.0
        ≡ set_column4 v.now.x v.now.y v.now.z v.now.w m.old.0 }
{
    m.set_column4(*v);
}
