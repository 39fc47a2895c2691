// The kept words of the bones (docs/FORMAT.md: "If bones and local matrices stand, each bone takes column 4 of its matrix, else
// zeros"; the end of `Skeleton::read`).
ghost use Rattle.std.specs.Prelude.{◌≡◌, ◌+◌, ◌*◌, ◌<◌, ◌≤◌, [], ◌∷◌, length, slice_index};
ghost use Rattle.std.proofs.lemmas.List.Edits.{sets};
ghost use Rattle.read_bones.specs.Columns.{KeepsColumns};

// Word i; 0 behind the last.
fn word_in(words: &[u32], i: usize) -> u32
    ensures { result ≡ slice_index words.now i }
{
    words.get(i).copied().unwrap_or(0)
}

// Stores the kept words of a row.
fn put_kept(bones: &mut [u32], row: usize, x: u32, y: u32, z: u32, w: u32)
    requires { 21 * row + 21 ≤ length bones.old }
    ensures { bones.new ≡ sets bones.old (21 * row + 13) (x ∷ y ∷ z ∷ w ∷ []) }
{
    let at = format::BONE_WORDS * row + format::KEPT_X;
    bones[at..at + 4].copy_from_slice(&[x, y, z, w]);
}

// Each of the first n bones takes column 4 (words 3, 7, 11 and 15) of its matrix as its kept words, while there are matrices. The
// matrices are the first `words` words of `local`. Only rows that the table has are changed. (Both counts as a reading leaves them,
// which may tell more than the tables have.)
pub fn keep_columns(bones: &mut [u32], n: usize, local: &[u32], words: usize)
    ensures table { KeepsColumns n words local.now bones.old bones.new }
{
    let rows = bones.len() / format::BONE_WORDS;
    let matrices = &local[..words.min(local.len())];
    for row in 0..n.min(rows) {
        let at = format::MATRIX_WORDS * row;
        if matrices.len() <= at {
            return;
        }
        let x = word_in(matrices, at + format::COLUMN4_X);
        let y = word_in(matrices, at + format::COLUMN4_Y);
        let z = word_in(matrices, at + format::COLUMN4_Z);
        let w = word_in(matrices, at + format::COLUMN4_W);
        put_kept(bones, row, x, y, z, w);
    }
}
