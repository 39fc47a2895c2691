// The general 4x4 inverse of `src/math.rs`, line for line.
ghost use Rattle.std.specs.Prelude.{◌≡◌};
ghost use Rattle.math.specs.Inverse.{inverse};

use crate::Mat4;

impl Mat4 {
    // The inverse; sixteen +0 exactly where the computed determinant compares equal to 0, which NaN does not.
    #[tactic(auto, unfolding(crate::specs::Inverse::inverse, crate::specs::Inverse::pick_mat))]
    pub fn inverse(self) -> Mat4
        ensures answer { result ≡ inverse self }
    {
        let m11 = self.0[0];
        let m12 = self.0[1];
        let m13 = self.0[2];
        let m14 = self.0[3];
        let m21 = self.0[4];
        let m22 = self.0[5];
        let m23 = self.0[6];
        let m24 = self.0[7];
        let m31 = self.0[8];
        let m32 = self.0[9];
        let m33 = self.0[10];
        let m34 = self.0[11];
        let m41 = self.0[12];
        let m42 = self.0[13];
        let m43 = self.0[14];
        let m44 = self.0[15];
        let b0 = m31 * m42 - m32 * m41;
        let b1 = m31 * m43 - m33 * m41;
        let b2 = m34 * m41 - m31 * m44;
        let b3 = m32 * m43 - m33 * m42;
        let b4 = m34 * m42 - m32 * m44;
        let b5 = m33 * m44 - m34 * m43;
        let d11 = m22 * b5 + m23 * b4 + m24 * b3;
        let d12 = m21 * b5 + m23 * b2 + m24 * b1;
        let d13 = m21 * -b4 + m22 * b2 + m24 * b0;
        let d14 = m21 * b3 + m22 * -b1 + m23 * b0;
        let det = m11 * d11 - m12 * d12 + m13 * d13 - m14 * d14;
        if det == 0.0 {
            return Mat4([0.0; 16]);
        }
        let det = 1.0 / det;
        let a0 = m11 * m22 - m12 * m21;
        let a1 = m11 * m23 - m13 * m21;
        let a2 = m14 * m21 - m11 * m24;
        let a3 = m12 * m23 - m13 * m22;
        let a4 = m14 * m22 - m12 * m24;
        let a5 = m13 * m24 - m14 * m23;
        let d21 = m12 * b5 + m13 * b4 + m14 * b3;
        let d22 = m11 * b5 + m13 * b2 + m14 * b1;
        let d23 = m11 * -b4 + m12 * b2 + m14 * b0;
        let d24 = m11 * b3 + m12 * -b1 + m13 * b0;
        let d31 = m42 * a5 + m43 * a4 + m44 * a3;
        let d32 = m41 * a5 + m43 * a2 + m44 * a1;
        let d33 = m41 * -a4 + m42 * a2 + m44 * a0;
        let d34 = m41 * a3 + m42 * -a1 + m43 * a0;
        let d41 = m32 * a5 + m33 * a4 + m34 * a3;
        let d42 = m31 * a5 + m33 * a2 + m34 * a1;
        let d43 = m31 * -a4 + m32 * a2 + m34 * a0;
        let d44 = m31 * a3 + m32 * -a1 + m33 * a0;
        Mat4([
            d11 * det,
            -d21 * det,
            d31 * det,
            -d41 * det,
            -d12 * det,
            d22 * det,
            -d32 * det,
            d42 * det,
            d13 * det,
            -d23 * det,
            d33 * det,
            -d43 * det,
            -d14 * det,
            d24 * det,
            -d34 * det,
            d44 * det,
        ])
    }
}
