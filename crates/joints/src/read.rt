// Reading joints (docs/FORMAT.md, "Joints and names"; `Joints::read` of `src/blocks/skeleton.rs`). Each kind of list is read once,
// so that the pool never gives anything again and none is lent.
ghost use Rattle.std.specs.Prelude.{◌≡◌, ◌+◌, ◌*◌, ◌/◌, ◌≤◌, length, take, drop};
ghost use Rattle.format.specs.Refusal.{outcome, outcome_by};
ghost use Rattle.format.specs.Rows.{laid, cleared};
ghost use Rattle.format.specs.Joints as Definitions;
ghost use Rattle.blocks.specs.Places.{section_of};
ghost use Rattle.joints.specs.Reading.{record_of, table_of, counted, lists_read, table_read, joints_in, joints_if, rotation_table, translation_table};

use crate::limits::{Limit, Rotation, Translation};
use crate::rows;
use blocks::places::Section;
use format::Refusal;

// Joints that were read: the words that stay, and of each list how many limits it has, if it stands.
#[derive(Clone, Copy, Debug, PartialEq, Eq)]
pub struct Joints {
    // the kind word and the two counts, as they are stored
    pub kind: u32,
    pub rotation_count: u16,
    pub translation_count: u16,
    // how many limits a list has, the first rows of its table; none where its pointer is 0
    pub rotation: Option<u16>,
    pub translation: Option<u16>,
}

// The fields read of the record: the kind word at 0, the pointers at 16 and 24, the counts at 48 and 50.
#[derive(Clone, Copy)]
struct Record {
    kind: u32,
    rotation: u64,
    translation: u64,
    rotation_count: u16,
    translation_count: u16,
}

fn load_record(bytes: &[u8]) -> Record
    requires { length bytes.now ≡ 52 }
    ensures { result ≡ record_of bytes.now }
{
    Record {
        kind: fields::read::<u32>(bytes, 0),
        rotation: fields::read::<u64>(bytes, 16),
        translation: fields::read::<u64>(bytes, 24),
        rotation_count: fields::read::<u16>(bytes, 48),
        translation_count: fields::read::<u16>(bytes, 50),
    }
}

// The limits at a pointer, as the first rows of a table that is zero: pointer 0 is no list, and a count of 0 an empty one, whatever its
// pointer. 10, 11, 1.
fn read_limits<L: Limit<BYTES, WORDS>, const BYTES: usize, const WORDS: usize>(
    section: Section,
    va: u64,
    count: u16,
    table: &mut [u32],
) -> Result<Option<u16>, Refusal>
    requires { table.old ≡ cleared (length table.old) }
    ensures answer { outcome result ≡ counted
        (Definitions.limits (section_of section.entry) (length table.old / WORDS) L.slots va count) }
    ensures table { table.new ≡ laid
        (table_of L.row_of
        (Definitions.limits (section_of section.entry) (length table.old / WORDS) L.slots va count))
        (length table.old) }
{
    if va == 0 {
        return Ok(None);
    }
    let bytes = section.array(va, BYTES * count as usize)?;
    let (records, _) = bytes.as_chunks::<BYTES>();
    if table.len() / WORDS < records.len() {
        return Err(Refusal::TableTooShort);
    }
    rows::load::<L, BYTES, WORDS>(records, &mut table[..WORDS * records.len()]);
    Ok(Some(count))
}

fn read_lists(
    section: Section,
    fields: Record,
    rotation: &mut [u32],
    translation: &mut [u32],
) -> Result<Joints, Refusal>
    requires rotation { rotation.old ≡ cleared (length rotation.old) }
    requires translation { translation.old ≡ cleared (length translation.old) }
    ensures answer { outcome_by (λ j. Some (joints_in rotation.new translation.new j)) result ≡ lists_read
        (section_of section.entry) (length rotation.old / 49) (length translation.old / 16) fields }
    ensures rotation { rotation.new ≡ laid
        (rotation_table
        (lists_read (section_of section.entry) (length rotation.old / 49) (length translation.old / 16) fields))
        (length rotation.old) }
    ensures translation { translation.new ≡ laid
        (translation_table
        (lists_read (section_of section.entry) (length rotation.old / 49) (length translation.old / 16) fields))
        (length translation.old) }
{
    let rotations = read_limits::<Rotation, 192, 49>(
        section,
        fields.rotation,
        fields.rotation_count,
        rotation,
    )?;
    match read_limits::<Translation, 64, 16>(
        section,
        fields.translation,
        fields.translation_count,
        translation,
    ) {
        Ok(translations) => Ok(Joints {
            kind: fields.kind,
            rotation_count: fields.rotation_count,
            translation_count: fields.translation_count,
            rotation: rotations,
            translation: translations,
        }),
        Err(refusal) => {
            rotation.fill(0);
            Err(refusal)
        }
    }
}

// The joints at a root address, none at root 0, their limits as the first rows of the two tables, which are zero behind them; after a
// refusal, and for root 0, the tables are zero. The refusals in reading order: 10 or 11 of the record, then of each list 10 or 11 and
// behind it 1.
pub fn read(
    section: Section,
    root: u64,
    rotation: &mut [u32],
    translation: &mut [u32],
) -> Result<Option<Joints>, Refusal>
    ensures answer { outcome_by (joints_if rotation.new translation.new) result ≡ table_read
        section.entry.system.now section.entry.graphics.now root rotation.old translation.old }
    ensures rotation { rotation.new ≡ laid
        (rotation_table
        (table_read section.entry.system.now section.entry.graphics.now root rotation.old translation.old))
        (length rotation.old) }
    ensures translation { translation.new ≡ laid
        (translation_table
        (table_read section.entry.system.now section.entry.graphics.now root rotation.old translation.old))
        (length translation.old) }
{
    rotation.fill(0);
    translation.fill(0);
    if root == 0 {
        return Ok(None);
    }
    let fields = load_record(section.slice(root, format::JOINTS_READ)?);
    read_lists(section, fields, rotation, translation).map(Some)
}
