// Runs of numbers in lent slices: from bytes into a table, from a table into bytes, and from one table into another. A run that does not lie
// wholly in both slices is not stored: every item is as it was. (From an offset on, and not cut slices: whether so much stands is what they
// answer.)
ghost use Rattle.std.specs.Prelude.{◌≡◌, ◌+◌, ◌*◌, ◌≤◌, ◌<◌, length, take, drop, is_ok};
ghost use Rattle.format.specs.Field as Field;
ghost use Rattle.format.specs.Field.{words, word_bytes};
ghost use Rattle.fields.specs.Runs.{loads, loaded, stores, stored, copies, copied};

use crate::{Outside, Pod, stands};

// Whether n numbers of `size` bytes each stand from `at` on. What is left is divided: no product or sum wraps.
fn run_stands(s: &[u8], at: usize, size: usize, n: usize) -> bool
    requires { 0 < size }
    ensures answer { result ≡ Field.stands (size * n) s.now at }
{
    at <= s.len() && n <= (s.len() - at) / size
}

// The n numbers that stand in `s` from `from` on, stored in the table from `to` on.
pub fn load<T: Pod>(s: &[u8], from: usize, n: usize, t: &mut [T], to: usize) -> Result<(), Outside>
    ensures answer { is_ok result ≡ loads T.SIZE n s.now from t.old to }
    ensures table { t.new ≡ loaded T.values T.SIZE n s.now from t.old to }
{
    if !run_stands(s, from, T::SIZE, n) || !stands(t, to, n) {
        return Err(Outside);
    }
    load_all(&s[from..from + T::SIZE * n], &mut t[to..to + n]);
    Ok(())
}

// The numbers of `w`, one behind the other, from `at` on.
pub fn put<T: Pod>(d: &mut [u8], at: usize, w: &[T]) -> Result<(), Outside>
    ensures answer { is_ok result ≡ stores T.SIZE w.now d.old at }
    ensures bytes { d.new ≡ stored T.numbers T.SIZE w.now d.old at }
{
    if !run_stands(d, at, T::SIZE, w.len()) {
        return Err(Outside);
    }
    put_all(&mut d[at..at + T::SIZE * w.len()], w);
    Ok(())
}

// n items of `s` from `from` on, stored in the table from `to` on.
pub fn copy<T: Copy>(s: &[T], from: usize, n: usize, t: &mut [T], to: usize) -> Result<(), Outside>
    ensures answer { is_ok result ≡ copies n s.now from t.old to }
    ensures table { t.new ≡ copied n s.now from t.old to }
{
    if !stands(s, from, n) || !stands(t, to, n) {
        return Err(Outside);
    }
    copy_each(&s[from..from + n], &mut t[to..to + n]);
    Ok(())
}

// One by one: by `copy_from_slice`, of a length that is not known, the static library would want memmove of whom it is linked to.
fn copy_each<T: Copy>(s: &[T], t: &mut [T])
    requires { length s.now ≡ length t.old }
    ensures { t.new ≡ s.now }
{
    for i in 0..t.len() {
        t[i] = s[i];
    }
}

// ---- all numbers of some bytes

// So many numbers are loaded at once.
const BLOCK: usize = 16;

// In blocks, and then the few that are left.
fn load_all<T: Pod>(s: &[u8], t: &mut [T])
    requires { length s.now ≡ T.SIZE * length t.old }
    ensures { t.new ≡ T.values (words T.SIZE (length t.old) s.now) }
{
    let blocks = t.len() / BLOCK;
    for i in 0..blocks {
        let at = BLOCK * i;
        load_block(
            &s[T::SIZE * at..T::SIZE * (at + BLOCK)],
            &mut t[at..at + BLOCK],
        );
    }
    let at = BLOCK * blocks;
    load_each(&s[T::SIZE * at..], &mut t[at..]);
}

// A block of 16, by a copy from an array, which cannot overlap the table: its numbers are loaded and stored at once. (Rows of 49 words are not
// stored so: `joints`.)
fn load_block<T: Pod>(s: &[u8], t: &mut [T])
    requires { (length s.now ≡ T.SIZE * 16) × (length t.old ≡ 16) }
    ensures { t.new ≡ T.values (words T.SIZE 16 s.now) }
{
    let mut block = [T::ZERO; BLOCK];
    load_each(s, &mut block);
    t.copy_from_slice(&block);
}

// One by one.
fn load_each<T: Pod>(s: &[u8], t: &mut [T])
    requires { length s.now ≡ T.SIZE * length t.old }
    ensures { t.new ≡ T.values (words T.SIZE (length t.old) s.now) }
{
    for i in 0..t.len() {
        t[i] = T::load(&s[T::SIZE * i..T::SIZE * (i + 1)]);
    }
}

fn put_all<T: Pod>(d: &mut [u8], w: &[T])
    requires { length d.old ≡ T.SIZE * length w.now }
    ensures { d.new ≡ word_bytes T.SIZE (T.numbers w.now) }
{
    for i in 0..w.len() {
        w[i].store(&mut d[T::SIZE * i..T::SIZE * (i + 1)]);
    }
}
