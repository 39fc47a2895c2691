// The numbers that are stored, as the Rust's `Pod`.
ghost use Rattle.std.specs.Prelude.{◌≡◌, ℕ, ◌<◌, List, length, map, refl};
ghost use Rattle.format.specs.Field.{value_of, bytes};
ghost use Rattle.std.proofs.Common.{rules};
ghost use Rattle.std.proofs.lemmas.List.{map-id};

// A number that is stored in SIZE bytes, the lowest first.
pub trait Pod: Copy {
    ghost SIZE: { ℕ };

    // The value of a number and the number of a value, for one and for each of a list. At the unsigned numbers each is the identity.
    ghost value: { ℕ → Self };

    ghost number: { Self → ℕ };

    ghost values: { List ℕ → List Self };

    ghost numbers: { List Self → List ℕ };

    ghost ZERO: { Self };

    const SIZE: usize;

    const ZERO: Self;

    // The number that its bytes stand for.
    fn load(s: &[u8]) -> Self
        requires { length s.now ≡ SIZE }
        ensures { result ≡ value (value_of s.now) };

    // Its bytes.
    fn store(self, d: &mut [u8])
        requires { length d.old ≡ SIZE }
        ensures { d.new ≡ bytes SIZE (number self) };

    ghost some_bytes: { 0 < SIZE };

    ghost no_value: { ZERO ≡ value 0 };

    ghost value_of_number: { (x : Self) → value (number x) ≡ x };

    ghost each_value: { (l : List ℕ) → map value l ≡ values l };

    ghost each_number: { (l : List Self) → map number l ≡ numbers l };
}

impl Pod for u16 {
    ghost SIZE = { 2 };

    ghost value = { λ n. n };

    ghost number = { λ n. n };

    ghost values = { λ l. l };

    ghost numbers = { λ l. l };

    ghost ZERO = { 0 };

    const SIZE: usize = 2;

    const ZERO: u16 = 0;

    fn load(s: &[u8]) -> u16 {
        u16::from_le_bytes([s[0], s[1]])
    }

    fn store(self, d: &mut [u8]) {
        d.copy_from_slice(&self.to_le_bytes());
    }

    ghost some_bytes = { Prim.search rules };

    ghost no_value = { refl };

    ghost value_of_number = { λ x. refl };

    ghost each_value = { map-id };

    ghost each_number = { map-id };
}

impl Pod for u32 {
    ghost SIZE = { 4 };

    ghost value = { λ n. n };

    ghost number = { λ n. n };

    ghost values = { λ l. l };

    ghost numbers = { λ l. l };

    ghost ZERO = { 0 };

    const SIZE: usize = 4;

    const ZERO: u32 = 0;

    fn load(s: &[u8]) -> u32 {
        u32::from_le_bytes([s[0], s[1], s[2], s[3]])
    }

    fn store(self, d: &mut [u8]) {
        d.copy_from_slice(&self.to_le_bytes());
    }

    ghost some_bytes = { Prim.search rules };

    ghost no_value = { refl };

    ghost value_of_number = { λ x. refl };

    ghost each_value = { map-id };

    ghost each_number = { map-id };
}

impl Pod for u64 {
    ghost SIZE = { 8 };

    ghost value = { λ n. n };

    ghost number = { λ n. n };

    ghost values = { λ l. l };

    ghost numbers = { λ l. l };

    ghost ZERO = { 0 };

    const SIZE: usize = 8;

    const ZERO: u64 = 0;

    fn load(s: &[u8]) -> u64 {
        u64::from_le_bytes([s[0], s[1], s[2], s[3], s[4], s[5], s[6], s[7]])
    }

    fn store(self, d: &mut [u8]) {
        d.copy_from_slice(&self.to_le_bytes());
    }

    ghost some_bytes = { Prim.search rules };

    ghost no_value = { refl };

    ghost value_of_number = { λ x. refl };

    ghost each_value = { map-id };

    ghost each_number = { map-id };
}
