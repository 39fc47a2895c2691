// Hashes replayed (docs/FORMAT.md, "Joints and names").

// the parts
const NAME: u16 = 2;

const HASH: u16 = 3;

pub(crate) fn hash_agrees(case: &[u8]) -> bool {
    let have = hash::rage_joaat(replay_sample::part(case, NAME));
    let want = replay_sample::number::<u32>(replay_sample::part(case, HASH), 0);
    have == want
}
