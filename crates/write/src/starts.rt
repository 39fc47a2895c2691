// Where the parts of a section start (docs/FORMAT.md, "Reading and writing a skeleton": "each on a multiple of 16").
ghost use Rattle.std.specs.Prelude.{◌≡◌, ◌+◌, ◌≤◌, ◌<◌};
ghost use Rattle.format.specs.Layout as Layout;
ghost use Rattle.format.specs.Layout.{base, block_size};
ghost use Rattle.write.specs.Placing.{Counts, meant_starts};
ghost use Rattle.format.specs.Section.{window};

// How far into the section each part starts.
#[derive(Clone, Copy)]
pub struct Starts {
    pub buckets: usize,
    pub entries: usize,
    // the bones block
    pub bones: usize,
    pub names: usize,
    pub inverse: usize,
    pub local: usize,
    pub parents: usize,
    pub children: usize,
}

// The address of a part of n bytes, rows or words: 0 for an empty part.
#[tactic(auto, unfolding(format::specs::Layout::pointer))]
pub(crate) fn pointer(at: usize, n: usize) -> u32
    requires { at ≤ window }
    ensures answer { result ≡ Layout.pointer (base + at) n }
{
    if n == 0 {
        return 0;
    }
    (format::SYSTEM_BASE + at as u64) as u32
}

// The zero bytes behind n bytes, up to the next multiple of 16.
pub(crate) fn fill(n: usize) -> usize
    ensures answer { result ≡ Layout.fill n }
{
    (16 - n % 16) % 16
}

// Where the part behind one of n bytes starts.
pub(crate) fn after(at: usize, n: usize) -> usize
    requires { at + n ≤ window }
    ensures answer { result ≡ Layout.after at n }
{
    at + n + fill(n)
}

// The length of the bones block.
#[tactic(auto, unfolding(format::specs::Layout::block_size))]
fn block_size(n: usize) -> usize
    requires { n ≤ 65535 }
    ensures answer { result ≡ block_size n }
{
    if n == 0 {
        return 0;
    }
    format::BLOCK_HEADER_SIZE + format::BONE_SIZE * n
}

// From the numbers of buckets, entries, bones and name bytes.
pub(crate) fn place(buckets: usize, entries: usize, n: usize, names: usize) -> Starts
    requires { Counts buckets entries n names }
    ensures answer { meant_starts result ≡ Layout.starts buckets entries n names }
{
    let b1 = format::SKELETON_SIZE;
    let b2 = after(b1, format::POINTER * buckets);
    let b3 = after(b2, format::ENTRY_SIZE * entries);
    let b4 = after(b3, block_size(n));
    let b5 = after(b4, names);
    let b6 = after(b5, format::MATRIX_SIZE * n);
    let b7 = after(b6, format::MATRIX_SIZE * n);
    let b8 = after(b7, 2 * n);
    Starts {
        buckets: b1,
        entries: b2,
        bones: b3,
        names: b4,
        inverse: b5,
        local: b6,
        parents: b7,
        children: b8,
    }
}
