// `build_bone_tags`: the chains of tags, as rows of two tables (docs/FORMAT.md, "Deriving").
ghost use Rattle.std.specs.Prelude.{◌≡◌, ◌+◌, ◌*◌, ◌%◌, ◌≤◌, ◌<◌, length, map};
ghost use mathlib.Core.List.{flat_map};
ghost use Rattle.std.proofs.lemmas.List.Edits.{sets};
ghost use Rattle.format.specs.Chains.{bucket_count};
ghost use Rattle.format.specs.Deriving.{tags};
ghost use Rattle.derive_chains.specs.ChainRows.{bucket_rows, entry_rows};
ghost use Rattle.format.specs.Rows.{entry_words, bone_of, bones_of};
ghost use Rattle.tables.specs.Outcome.{derived, leaves};
ghost use Rattle.format.specs.Refusal.{outcome, outcome_by};
ghost use Rattle.derive_chains.specs.Tagging.{tags_hold, tags_result, meant_entry, TagEntered, TagsRoom, Linked};

use crate::buckets::{bucket_count, entry_count};
use format::{BONE_WORDS, ENTRY_LINK, ENTRY_POSITION, ENTRY_TAG, ENTRY_WORDS, Refusal};
use rows::{rows_of, tag_at};

// A row of the entries table. `link` is 0 at a chain's end, and otherwise one more than the next entry's row.
#[derive(Clone, Copy)]
pub struct TagEntry {
    pub tag: u32,
    pub position: u32,
    pub link: u32,
}

// The rows of the first n bones of a table, where they are few enough, and the table holds them and the others their chains. 2 goes before 1.
#[tactic(auto, using(rows::proofs::Rows::got_bones, crate::proofs::Counts::entries_le), unfolding(tables::specs::Outcome::derived, crate::specs::Tagging::tags_hold))]
fn tags_room(
    bones: &[u32],
    n: usize,
    buckets: usize,
    entries: usize,
) -> Result<&[[u32; BONE_WORDS]], Refusal>
    ensures answer { outcome_by (λ rows. map bone_of rows.now) result
        ≡ derived n (tags_hold n (length bones.now) buckets entries) (bones_of n bones.now) }
{
    let rows = rows_of(bones, n)?;
    if buckets < bucket_count(n) || entries < ENTRY_WORDS * entry_count(n) {
        return Err(Refusal::TableTooShort);
    }
    Ok(rows)
}

// Stores an entry as row p.
fn put_entry(entries: &mut [u32], p: usize, e: TagEntry)
    requires { 3 * p + 3 ≤ length entries.old }
    ensures rows { entries.new ≡ sets entries.old (3 * p) (entry_words (meant_entry e)) }
{
    let at = ENTRY_WORDS * p;
    entries[at + ENTRY_TAG] = e.tag;
    entries[at + ENTRY_POSITION] = e.position;
    entries[at + ENTRY_LINK] = e.link;
}

// The bucket of a tag. Of many bones most tags are below the number of buckets, and the test takes less time than a division.
fn bucket_of(tag: u16, count: usize) -> usize
    requires { 0 < count }
    ensures answer { (result ≡ tag % count) × (result < count) }
{
    let t = usize::from(tag);
    if t < count { t } else { t % count }
}

// Enters position p, whose bone has this row: its entry goes in front of its bucket's chain.
fn enter_tag(row: &[u32; BONE_WORDS], p: usize, buckets: &mut [u32], entries: &mut [u32])
    requires { (p < 65535) × (0 < length buckets.old) × (3 * p + 3 ≤ length entries.old) }
    ensures rows { TagEntered (bone_of row.now).tag p buckets.old entries.old buckets.new entries.new }
{
    let tag = tag_at(row, 0);
    let b = bucket_of(tag, buckets.len());
    let entry = TagEntry {
        tag: u32::from(tag),
        position: p as u32,
        link: buckets[b],
    };
    put_entry(entries, p, entry);
    buckets[b] = p as u32 + 1;
}

// Enters all positions that have an entry, rising; the tables are zero.
fn enter_tags(bones: &[[u32; BONE_WORDS]], buckets: &mut [u32], entries: &mut [u32])
    requires { TagsRoom (length bones.now) buckets.old entries.old }
    ensures rows { Linked (tags (map bone_of bones.now)) buckets.old entries.old buckets.new entries.new }
{
    let entered = &bones[..entry_count(bones.len())];
    for (p, row) in entered.iter().enumerate() {
        enter_tag(row, p, buckets, entries);
    }
}

// Derives the chains of the first n bones of a table: a word for each bucket, 0 or one more than its first entry's row, and an
// entry's row for each position. Gives the number of buckets. Refuses 2, then 1 where `bones` has fewer than n rows, `buckets`
// fewer words than buckets or `entries` fewer rows than entries. Behind the rows, and after a refusal, both tables are zero.
#[tactic(auto, using(tables::proofs::Outcome::refuses, tables::proofs::Outcome::enough), unfolding(tables::specs::Outcome::derived, crate::specs::Tagging::tags_hold))]
pub fn build_bone_tags(
    bones: &[u32],
    n: usize,
    buckets: &mut [u32],
    entries: &mut [u32],
) -> Result<usize, Refusal>
    ensures answer { outcome result
        ≡ tags_result n (length bones.now) (length buckets.old) (length entries.old) }
    ensures buckets { buckets.new
        ≡ leaves (tags_result n (length bones.now) (length buckets.old) (length entries.old))
        (bucket_rows (tags (bones_of n bones.now))) (length buckets.old) }
    ensures entries { entries.new
        ≡ leaves (tags_result n (length bones.now) (length buckets.old) (length entries.old))
        (flat_map entry_words (entry_rows (tags (bones_of n bones.now)))) (length entries.old) }
{
    let room = tags_room(bones, n, buckets.len(), entries.len());
    buckets.fill(0);
    entries.fill(0);
    let rows = room?;
    let count = bucket_count(n);
    enter_tags(rows, &mut buckets[..count], entries);
    Ok(count)
}
