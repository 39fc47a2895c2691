// Reading a skeleton and looking up a tag replayed (docs/FORMAT.md, "Reading and writing a skeleton", "Lookup and check").
use crate::buffers;
use blocks::places::Section;
use format::Refusal;
use read::{Skeleton, Tables};
use replay_sample::run::Run;

// the parts
const OTHERS: u16 = 3;

const SYSTEM: u16 = 4;

const GRAPHICS: u16 = 5;

const FIELDS: u16 = 6;

const BONES: u16 = 7;

const BUCKETS: u16 = 8;

const ENTRIES: u16 = 9;

const INVERSE: u16 = 10;

const LOCAL: u16 = 11;

const PARENTS: u16 = 12;

const CHILDREN: u16 = 13;

// no case has it but one that is wrong on purpose: the pool is zero after every call
const POOL: u16 = 14;

// ---- the answer

fn answer_agrees(r: Result<Option<Skeleton>, Refusal>, want: &[u8], answer: u32) -> bool {
    let fields = rig_answers::read_fields(r);
    let same = replay_sample::same(&fields.map(|n| n as u64), replay_sample::part(want, FIELDS));
    buffers::all(rig_answers::status(r) == answer, same, true, true)
}

// ---- the tables: they hold the rows of their parts; `want` is the case, or no bytes where a table is short

fn rows_agree(want: &[u8], bones: &[u32], buckets: &[u32], entries: &[u32], pool: &[u64]) -> bool {
    buffers::all(
        replay_sample::same(bones, replay_sample::part(want, BONES)),
        replay_sample::same(buckets, replay_sample::part(want, BUCKETS)),
        replay_sample::same(entries, replay_sample::part(want, ENTRIES)),
        replay_sample::same(pool, replay_sample::part(want, POOL)),
    )
}

fn lists_agree(
    want: &[u8],
    inverse: &[u32],
    local: &[u32],
    parents: &[u16],
    children: &[u16],
) -> bool {
    buffers::all(
        replay_sample::same(inverse, replay_sample::part(want, INVERSE)),
        replay_sample::same(local, replay_sample::part(want, LOCAL)),
        replay_sample::same(parents, replay_sample::part(want, PARENTS)),
        replay_sample::same(children, replay_sample::part(want, CHILDREN)),
    )
}

// ---- the call

// Lends the four lists, as long as the run has them, beside the other tables, and compares the answer and the lists. (The tables by themselves: a
// test's buffers, of which `rows_into` compares four.)
fn lists_into(
    case: &[u8],
    root: u64,
    run: Run,
    want: &[u8],
    answer: u32,
    bones: &mut [u32],
    buckets: &mut [u32],
    entries: &mut [u32],
    pool: &mut [u64],
) -> bool {
    let mut inverse_table = buffers::DIRTY32;
    let mut local_table = buffers::DIRTY32;
    let mut parents_table = buffers::DIRTY16;
    let mut children_table = buffers::DIRTY16;
    let i = replay_sample::run::lent(case, run, 3, &inverse_table);
    let l = replay_sample::run::lent(case, run, 4, &local_table);
    let p = replay_sample::run::lent(case, run, 5, &parents_table);
    let c = replay_sample::run::lent(case, run, 6, &children_table);
    let inverse = &mut inverse_table[..i];
    let local = &mut local_table[..l];
    let parents = &mut parents_table[..p];
    let children = &mut children_table[..c];
    let section = Section {
        system: replay_sample::part(case, SYSTEM),
        graphics: replay_sample::part(case, GRAPHICS),
    };
    let mut tables = Tables {
        bones,
        buckets,
        entries,
        inverse,
        local,
        parents,
        children,
        pool,
    };
    let r = read::read(section, root, &mut tables);
    let lists = lists_agree(want, inverse, local, parents, children);
    buffers::all(answer_agrees(r, want, answer), lists, true, true)
}

// Lends the bones, the chains and the pool likewise, and compares them behind the rest.
fn rows_into(case: &[u8], root: u64, run: Run, want: &[u8], answer: u32) -> bool {
    let mut bones_table = buffers::DIRTY32;
    let mut buckets_table = buffers::DIRTY32;
    let mut entries_table = buffers::DIRTY32;
    let mut pool_table = buffers::DIRTY64;
    let n = replay_sample::run::lent(case, run, 0, &bones_table);
    let b = replay_sample::run::lent(case, run, 1, &buckets_table);
    let e = replay_sample::run::lent(case, run, 2, &entries_table);
    let p = replay_sample::run::lent(case, run, 7, &pool_table);
    let bones = &mut bones_table[..n];
    let buckets = &mut buckets_table[..b];
    let entries = &mut entries_table[..e];
    let pool = &mut pool_table[..p];
    let lists = lists_into(case, root, run, want, answer, bones, buckets, entries, pool);
    buffers::all(
        lists,
        rows_agree(want, bones, buckets, entries, pool),
        true,
        true,
    )
}

pub(crate) fn read_agrees(case: &[u8], root: u64, run: Run, answer: u32) -> bool {
    let want = match run {
        Run::Short(table) if table < replay_sample::run::FULL => &case[..0],
        _ => case,
    };
    rows_into(case, root, run, want, answer)
}

// ---- the lookup: its tag and the position that it finds stand behind the two numbers of the check, which is not replayed

const TAG: usize = 2;

const POSITION: usize = 4;

fn looked_as(r: Result<Option<u32>, Refusal>, answer: u32, position: u32) -> bool {
    match r {
        Ok(Some(p)) => answer == buffers::DONE && p == position,
        Ok(None) => answer == rig_answers::NOTHING,
        Err(e) => answer == u32::from(e),
    }
}

pub(crate) fn lookup_agrees(case: &[u8], root: u64, answer: u32) -> bool {
    let others = replay_sample::part(case, OTHERS);
    let tag = fields::read::<u16>(others, 4 * TAG);
    let section = Section {
        system: replay_sample::part(case, SYSTEM),
        graphics: replay_sample::part(case, GRAPHICS),
    };
    let r = lookup::lookup(section, root, tag);
    looked_as(r, answer, replay_sample::number::<u32>(others, POSITION))
}
