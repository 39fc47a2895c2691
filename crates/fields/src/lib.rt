// Little-endian fields of 16, 32 and 64 bits in a lent slice (docs/FORMAT.md, "Finding bytes"), read as the Rust's `Cursor` reads them.
// The bounds are tested here, once for each call.
#![tactic(auto)]

ghost use Rattle.std.specs.Prelude.{◌≡◌, ℕ, ◌+◌, ◌≤◌, List, length, is_ok};
ghost use Rattle.format.specs.Field as Field;
ghost use Rattle.format.specs.Field.{field_at, put_at, value_of, bytes};

pub mod pod; // the numbers that are stored
pub mod runs; // runs of them

pub use pod::Pod;

// A field or a run that does not lie wholly in its slice.
#[derive(Clone, Copy, Debug, PartialEq, Eq)]
pub struct Outside;

// Whether all k cells from `at` on stand in the slice.
pub fn stands<T>(s: &[T], at: usize, k: usize) -> bool
    ensures answer { result ≡ Field.stands k s.now at }
{
    at <= s.len() && k <= s.len() - at
}

// The number at an offset, or 0 where the field does not lie wholly in the slice.
pub fn read<T: Pod>(s: &[u8], at: usize) -> T
    ensures answer { result ≡ T.value (field_at T.SIZE s.now at) }
{
    if stands(s, at, T::SIZE) {
        return T::load(&s[at..at + T::SIZE]);
    }
    T::ZERO
}

// Stores the bytes of the number, or nothing where the field does not lie wholly in the slice.
pub fn put<T: Pod>(d: &mut [u8], at: usize, v: T) -> Result<(), Outside>
    ensures answer { is_ok result ≡ Field.stands T.SIZE d.old at }
    ensures slice { d.new ≡ put_at T.SIZE d.old at (T.number v) }
{
    if !stands(d, at, T::SIZE) {
        return Err(Outside);
    }
    v.store(&mut d[at..at + T::SIZE]);
    Ok(())
}
