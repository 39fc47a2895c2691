// The limits of a list: records one behind the other, and rows one behind the other (docs/FORMAT.md, "Rows of the lent tables").
ghost use mathlib.Core.List.{flat_map};
ghost use Rattle.std.specs.Prelude.{◌≡◌, ◌+◌, ◌*◌, ◌≤◌, length};
ghost use Rattle.std.proofs.lemmas.List.Edits.{sets};
ghost use Rattle.format.specs.Field.{words, word_bytes};

use crate::limits::Limit;

// Word by word: from an array of its own, which cannot overlap the table, the compiler stores a row at once; by `copy_from_slice` it keeps the
// array in memory first, and reading takes 1.2 to 1.5 times as long.
fn put<const WORDS: usize>(row: &[u32; WORDS], rows: &mut [u32], at: usize)
    requires { at + WORDS ≤ length rows.old }
    ensures { rows.new ≡ sets rows.old at row.now }
{
    for i in 0..WORDS {
        rows[at + i] = row[i];
    }
}

// Records as rows, in a part of a table that has just their words.
pub(crate) fn load<L: Limit<BYTES, WORDS>, const BYTES: usize, const WORDS: usize>(
    records: &[[u8; BYTES]],
    rows: &mut [u32],
)
    requires { length rows.old ≡ WORDS * length records.now }
    ensures { rows.new ≡ flat_map (λ r. L.row_of (words 4 L.slots r)) records.now }
{
    let mut at = 0;
    for record in records {
        put(&L::from_record(record), rows, at);
        at += WORDS;
    }
}

// Rows as records, in a part of a buffer that has just their bytes.
pub(crate) fn store<L: Limit<BYTES, WORDS>, const BYTES: usize, const WORDS: usize>(
    rows: &[[u32; WORDS]],
    records: &mut [u8],
)
    requires { length records.old ≡ BYTES * length rows.now }
    ensures { records.new ≡ word_bytes 4 (flat_map L.slots_in rows.now) }
{
    let mut at = 0;
    for row in rows {
        records[at..at + BYTES].copy_from_slice(&L::to_record(row));
        at += BYTES;
    }
}
