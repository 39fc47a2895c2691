// What C and Rust call to read and write joints (docs/FORMAT.md, "Joints and names"). A status is 0, 100 for none, or the number of
// the refusal.
ghost use Rattle.std.specs.Prelude.{◌≡◌, List, ℕ, length};
ghost use Rattle.format.specs.Refusal.{outcome, outcome_by};
ghost use Rattle.format.specs.Result.{done, status};
ghost use Rattle.format.specs.Field.{words};
ghost use Rattle.format.specs.Joints.{rotation_limit, rotation_words, rotation_row, rotation_written, fresh_rotation_limit};
ghost use Rattle.format.specs.Joints.{translation_limit, translation_words, translation_row, translation_written};
ghost use Rattle.format.specs.Rows.{laid};
ghost use Rattle.joints.specs.Reading.{joints_if, table_read, rotation_table, translation_table};
ghost use Rattle.joints.specs.Written.{table_written, left_in};
ghost use Rattle.tables.specs.Outcome.{size_of};
ghost use Rattle.rig_answers.specs.Answer.{counted, read_status, given, number_if, present};
ghost use Rattle.rig.specs.Answer.{joints_fields};

use blocks::places::Section;
use format::Refusal;
use joints::limits::{Limit, Rotation, Translation};
use joints::read::Joints;
use joints::write::Rows;

// 1 where a list stands, else 0.
fn stands(list: Option<u16>) -> u32
    ensures { result ≡ number_if (present list) }
{
    u32::from(list.is_some())
}

// How many limits a list has, 0 where it is absent.
fn limit_count(list: Option<u16>) -> u32
    ensures { result ≡ given (done list) }
{
    u32::from(list.unwrap_or(0))
}

// The kind word, the two stored counts, and of each list whether it stands and how many limits it has; zeros where nothing is read.
fn fields_of(read: Result<Option<Joints>, Refusal>) -> [u32; 7]
    ensures { (rotation translation : List ℕ) → result ≡ joints_fields (outcome_by (joints_if rotation translation) read) }
{
    match read {
        Ok(Some(j)) => [
            j.kind,
            j.rotation_count as u32,
            j.translation_count as u32,
            stands(j.rotation),
            limit_count(j.rotation),
            stands(j.translation),
            limit_count(j.translation),
        ],
        _ => [0; 7],
    }
}

// The joints at a root address. `fields` are the kind word, the two stored counts, and of each list whether it stands and how many
// limits it has.
#[unsafe(no_mangle)]
pub extern "C" fn rig_joints_read(
    sys: &[u8],
    gfx: &[u8],
    root: u64,
    rotation: &mut [u32],
    translation: &mut [u32],
    fields: &mut [u32; 7],
) -> u32
    ensures answer { result
        ≡ read_status (table_read sys.now gfx.now root rotation.old translation.old) }
    ensures fields { fields.new
        ≡ joints_fields (table_read sys.now gfx.now root rotation.old translation.old) }
    ensures rotation { rotation.new ≡ laid
        (rotation_table (table_read sys.now gfx.now root rotation.old translation.old))
        (length rotation.old) }
    ensures translation { translation.new ≡ laid
        (translation_table (table_read sys.now gfx.now root rotation.old translation.old))
        (length translation.old) }
{
    let section = Section {
        system: sys,
        graphics: gfx,
    };
    let read = joints::read::read(section, root, rotation, translation);
    *fields = fields_of(read);
    rig_answers::status(read)
}

// The section of the limits in the first r and t rows of two tables. `count` is the number of its bytes, 0 after a refusal.
#[unsafe(no_mangle)]
pub extern "C" fn rig_joints_write(
    rotation: &[u32],
    r: usize,
    translation: &[u32],
    t: usize,
    out: &mut [u8],
    count: &mut usize,
) -> u32
    ensures answer { result
        ≡ status (size_of (table_written (length out.old) rotation.now r translation.now t)) }
    ensures count { count.new
        ≡ counted (size_of (table_written (length out.old) rotation.now r translation.now t)) }
    ensures buffer { out.new
        ≡ left_in (table_written (length out.old) rotation.now r translation.now t)
        out.old }
{
    let rotations = Rows {
        table: rotation,
        count: r,
    };
    let translations = Rows {
        table: translation,
        count: t,
    };
    let written = joints::write::write(rotations, translations, out);
    *count = rig_answers::written_count(written);
    rig_answers::written_status(written)
}

// ---- one record

// The row of the record of a rotation limit.
#[unsafe(no_mangle)]
pub extern "C" fn rig_rotation_limit_read(bytes: &[u8; 192], row: &mut [u32; 49])
    ensures row { row.new ≡ rotation_words (rotation_limit (words 4 48 bytes.now)) }
{
    *row = Rotation::from_record(bytes);
}

// The record of the row of a rotation limit, at the front of `out`.
#[unsafe(no_mangle)]
pub extern "C" fn rig_rotation_limit_write(row: &[u32; 49], out: &mut [u8]) -> u32
    ensures answer { result ≡ status (rotation_written (length out.old) (rotation_row row.now)) }
    ensures buffer { out.new
        ≡ left_in (rotation_written (length out.old) (rotation_row row.now)) out.old }
{
    rig_answers::written_status(Rotation::write(row, out))
}

// The same of translation limits.
#[unsafe(no_mangle)]
pub extern "C" fn rig_translation_limit_read(bytes: &[u8; 64], row: &mut [u32; 16])
    ensures row { row.new ≡ translation_words (translation_limit (words 4 16 bytes.now)) }
{
    *row = Translation::from_record(bytes);
}

#[unsafe(no_mangle)]
pub extern "C" fn rig_translation_limit_write(row: &[u32; 16], out: &mut [u8]) -> u32
    ensures answer { result ≡ status (translation_written (length out.old) (translation_row row.now)) }
    ensures buffer { out.new
        ≡ left_in (translation_written (length out.old) (translation_row row.now)) out.old }
{
    rig_answers::written_status(Translation::write(row, out))
}

// The row of a fresh rotation limit.
#[unsafe(no_mangle)]
pub extern "C" fn rig_fresh_rotation_limit(row: &mut [u32; 49])
    ensures row { row.new ≡ rotation_words fresh_rotation_limit }
{
    *row = joints::limits::fresh_rotation_limit();
}
