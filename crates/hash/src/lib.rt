// The hash of names (docs/FORMAT.md, "Joints and names"; `src/hash.rs`): Jenkins one-at-a-time, over the bytes as they are given.
#![tactic(auto)]

ghost use Rattle.std.specs.Prelude.{◌≡◌};
ghost use Rattle.format.specs.Hash.{rage_joaat};

// The hash of the bytes of `s`. The sums lose their carry at 32 bits; so does what a shift moves past the top.
pub fn rage_joaat(s: &[u8]) -> u32
    ensures answer { result ≡ rage_joaat s.now }
{
    let mut hash: u32 = 0;
    for &b in s {
        hash = hash.wrapping_add(u32::from(b));
        hash = hash.wrapping_add(hash << 10);
        hash ^= hash >> 6;
    }
    hash = hash.wrapping_add(hash << 3);
    hash ^= hash >> 11;
    hash.wrapping_add(hash << 15)
}
