// Deriving replayed (docs/FORMAT.md, "Deriving").
use crate::buffers;

// the parts
const BONES: u16 = 2;

const BUCKETS: u16 = 3;

const ENTRIES: u16 = 4;

const PARENTS: u16 = 5;

const CHILDREN: u16 = 6;

const INVERSE: u16 = 7;

const LOCAL: u16 = 8;

// no case has it but one that is wrong on purpose: the pending list is zero after every call
const PENDING: u16 = 9;

// ---- chains

pub(crate) fn tags_agree(case: &[u8], n: usize, answer: u32) -> bool {
    let bones = replay_sample::loaded(replay_sample::part(case, BONES));
    let mut buckets = buffers::DIRTY32;
    let mut entries = buffers::DIRTY32;
    let r = derive_chains::tags::build_bone_tags(&bones, n, &mut buckets, &mut entries);
    let want = replay_sample::part(case, BUCKETS);
    buffers::all(
        buffers::counted(r, answer, want.len() / 4),
        replay_sample::same(&buckets, want),
        replay_sample::same(&entries, replay_sample::part(case, ENTRIES)),
        true,
    )
}

// ---- parents and children

pub(crate) fn indices_agree(case: &[u8], n: usize, answer: u32) -> bool {
    let bones = replay_sample::loaded(replay_sample::part(case, BONES));
    let mut parents = buffers::DIRTY16;
    let mut children = buffers::DIRTY16;
    let mut pending = buffers::DIRTY32;
    let r = derive_children::indices::build_indices(
        &bones,
        n,
        &mut parents,
        &mut children,
        &mut pending,
    );
    let want = replay_sample::part(case, CHILDREN);
    buffers::all(
        buffers::counted(r, answer, want.len() / 2),
        replay_sample::same(&parents, replay_sample::part(case, PARENTS)),
        replay_sample::same(&children, want),
        replay_sample::same(&pending, replay_sample::part(case, PENDING)),
    )
}

// ---- matrices

pub(crate) fn matrices_agree(case: &[u8], n: usize, answer: u32) -> bool {
    let bones = replay_sample::loaded(replay_sample::part(case, BONES));
    let mut inverse = buffers::DIRTY32;
    let mut local = buffers::DIRTY32;
    let r = derive_matrices::matrices::build_transformations(&bones, n, &mut inverse, &mut local);
    buffers::all(
        buffers::answered(r, answer),
        replay_sample::same(&inverse, replay_sample::part(case, INVERSE)),
        replay_sample::same(&local, replay_sample::part(case, LOCAL)),
        true,
    )
}
