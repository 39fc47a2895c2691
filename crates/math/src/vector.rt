// Vectors, and quaternions x, y, z, w: `Vec3` and `Vec4` of `src/math.rs`, operation for operation.
ghost use Rattle.std.specs.Prelude.{◌≡◌};
ghost use Rattle.math.specs.Vector.{add_vec3, quat_mul, quat_rotate};

use crate::{Vec3, Vec4};
use std::ops::Add;

impl Add for Vec3 {
    type Output = Vec3;

    ghost add_gives = { λ l r sum. sum ≡ add_vec3 l r };

    // The sum, component by component.
    #[tactic(auto, unfolding(crate::specs::Vector::add_vec3))]
    fn add(self, rhs: Vec3) -> Vec3 {
        Vec3 {
            x: self.x + rhs.x,
            y: self.y + rhs.y,
            z: self.z + rhs.z,
        }
    }
}

impl Vec4 {
    // The Hamilton product of two quaternions, `self` on the left: it applies the rotation of rhs first.
    #[tactic(auto, unfolding(crate::specs::Vector::quat_mul))]
    pub fn quat_mul(self, rhs: Vec4) -> Vec4
        ensures answer { result ≡ quat_mul self rhs }
    {
        let l = self;
        let r = rhs;
        Vec4 {
            x: l.x * r.w + r.x * l.w + (l.y * r.z - l.z * r.y),
            y: l.y * r.w + r.y * l.w + (l.z * r.x - l.x * r.z),
            z: l.z * r.w + r.z * l.w + (l.x * r.y - l.y * r.x),
            w: l.w * r.w - (l.x * r.x + l.y * r.y + l.z * r.z),
        }
    }

    // v rotated by the quaternion `self`.
    #[tactic(auto, unfolding(crate::specs::Vector::quat_rotate))]
    pub fn quat_rotate(self, v: Vec3) -> Vec3
        ensures answer { result ≡ quat_rotate self v }
    {
        let xx = self.x * 2.0 * self.x;
        let yy = self.y * 2.0 * self.y;
        let zz = self.z * 2.0 * self.z;
        let wx = self.w * 2.0 * self.x;
        let wy = self.w * 2.0 * self.y;
        let wz = self.w * 2.0 * self.z;
        let xy = self.x * 2.0 * self.y;
        let xz = self.x * 2.0 * self.z;
        let yz = self.y * 2.0 * self.z;
        Vec3 {
            x: v.x * ((1.0 - yy) - zz) + v.y * (xy - wz) + v.z * (xz + wy),
            y: v.x * (xy + wz) + v.y * ((1.0 - xx) - zz) + v.z * (yz - wx),
            z: v.x * (xz - wy) + v.y * (yz + wx) + v.z * ((1.0 - xx) - yy),
        }
    }
}
