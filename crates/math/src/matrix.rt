// Matrices of sixteen floats, row by row: `Mat4` of `src/math.rs`, but for its inverse, and a matrix's sixteen words.
ghost use Rattle.std.specs.Prelude.{◌≡◌};
ghost use Rattle.math.specs.Matrix.{from_quat_pos, scale_vector, column4, set_diagonal, set_column4, matrix_words};

use crate::{Mat4, Vec3, Vec4, word_of};

impl Mat4 {
    // The rotation matrix of the quaternion q, with t in the fourth row.
    #[tactic(auto, unfolding(crate::specs::Matrix::from_quat_pos))]
    pub fn from_quat_pos(q: Vec4, t: Vec3) -> Mat4
        ensures answer { result ≡ from_quat_pos q t }
    {
        let xx = q.x * q.x;
        let yy = q.y * q.y;
        let zz = q.z * q.z;
        let xy = q.x * q.y;
        let zw = q.z * q.w;
        let zx = q.z * q.x;
        let yw = q.y * q.w;
        let yz = q.y * q.z;
        let xw = q.x * q.w;
        Mat4([
            1.0 - 2.0 * (yy + zz),
            2.0 * (xy + zw),
            2.0 * (zx - yw),
            0.0,
            2.0 * (xy - zw),
            1.0 - 2.0 * (zz + xx),
            2.0 * (yz + xw),
            0.0,
            2.0 * (zx + yw),
            2.0 * (yz - xw),
            1.0 - 2.0 * (yy + xx),
            0.0,
            t.x,
            t.y,
            t.z,
            1.0,
        ])
    }

    // The diagonal: words 0, 5, 10.
    pub fn scale_vector(self) -> Vec3
        ensures answer { result ≡ scale_vector self }
    {
        Vec3 {
            x: self.0[0],
            y: self.0[5],
            z: self.0[10],
        }
    }

    // Column 4: words 3, 7, 11, 15.
    pub fn column4(self) -> Vec4
        ensures answer { result ≡ column4 self }
    {
        Vec4 {
            x: self.0[3],
            y: self.0[7],
            z: self.0[11],
            w: self.0[15],
        }
    }

    // The matrix with the diagonal s, and all else as it was.
    pub fn with_scale_vector(self, s: Vec3) -> Mat4
        ensures answer { result.0 ≡ set_diagonal s.x s.y s.z self.0 }
    {
        let mut m = self;
        m.0[0] = s.x;
        m.0[5] = s.y;
        m.0[10] = s.z;
        m
    }

    // The matrix with column 4 v, and all else as it was.
    pub fn with_column4(self, v: Vec4) -> Mat4
        ensures answer { result.0 ≡ set_column4 v.x v.y v.z v.w self.0 }
    {
        let mut m = self;
        m.0[3] = v.x;
        m.0[7] = v.y;
        m.0[11] = v.z;
        m.0[15] = v.w;
        m
    }

    // Sets the diagonal: words 0, 5, 10 of the matrix are s, and every other is as it was.
    pub fn set_scale_vector(&mut self, s: Vec3)
        ensures matrix { self.new.0 ≡ set_diagonal s.x s.y s.z self.old.0 }
    {
        let m = *self;
        *self = m.with_scale_vector(s);
    }

    // Sets column 4: words 3, 7, 11, 15 of the matrix are v, and every other is as it was.
    pub fn set_column4(&mut self, v: Vec4)
        ensures matrix { self.new.0 ≡ set_column4 v.x v.y v.z v.w self.old.0 }
    {
        let m = *self;
        *self = m.with_column4(v);
    }

    // The sixteen words of the matrix, 7FC00000 hex for each NaN.
    pub fn words(self) -> [u32; 16]
        ensures answer { result ≡ matrix_words self }
    {
        // `self.0.map(word_of)` takes two to four times as long: the floats wait in an iterator of their own.
        let mut words = [0u32; 16];
        for (i, &float) in self.0.iter().enumerate() {
            words[i] = word_of(float);
        }
        words
    }
}
