// Our writer of a joints section (docs/FORMAT.md, "Joints and names"; `Block for Joints` of `src/blocks/skeleton.rs`): the record,
// the rotation limits and the translation limits, one behind the other, from 50000000 hex.
ghost use Rattle.std.specs.Prelude.{◌≡◌, ◌+◌, ◌*◌, ◌≤◌, ◌<◌, length, map};
ghost use Rattle.format.specs.Field.{word_bytes, lay};
ghost use Rattle.format.specs.Joints.{rotation_row, translation_row, ids_fit, joints_items, joints_layout};
ghost use Rattle.format.specs.Layout as Layout;
ghost use Rattle.format.specs.Refusal.{outcome, outcome_by};
ghost use Rattle.joints.specs.Written.{rows_got, table_written, left_in};
ghost use Rattle.tables.specs.Outcome.{size_of};

use crate::limits::{Limit, Rotation, Translation};
use crate::{rows, words};
use format::Refusal;

// The limits in the first `count` rows of a table. (Both, since C lends a table and how many of its rows count.)
#[derive(Clone, Copy)]
pub struct Rows<'a, const WORDS: usize> {
    pub table: &'a [u32],
    pub count: usize,
}

impl<'a, const WORDS: usize> Rows<'a, WORDS> {
    // The rows themselves. 1 for a table that has fewer.
    fn get(self) -> Result<&'a [[u32; WORDS]], Refusal>
        requires { 0 < WORDS }
        ensures { outcome_by (λ rows. rows.now) result ≡ rows_got WORDS self.entry.count self.entry.table.now }
    {
        let (rows, _) = self.table.as_chunks::<WORDS>();
        if rows.len() < self.count {
            return Err(Refusal::TableTooShort);
        }
        Ok(&rows[..self.count])
    }
}

// The address of the first limit.
const FIRST_LIMIT: u32 = 0x5000_0040;

// The pointer to n limits: 0 for an empty list.
#[tactic(auto, unfolding(format::specs::Layout::pointer))]
fn pointer(at: u32, n: usize) -> u32
    ensures { result ≡ Layout.pointer at n }
{
    if n == 0 { 0 } else { at }
}

// The words of the record for r rotation and t translation limits.
fn header(r: usize, t: usize) -> [u32; 16]
    requires { (r ≤ 65535) × (t ≤ 65535) }
    ensures { word_bytes 4 result ≡ lay (joints_items r t) }
{
    let rotation = pointer(FIRST_LIMIT, r);
    let translation = pointer(FIRST_LIMIT + 192 * (r as u32), t);
    let counts = (r as u32) + 65536 * (t as u32);
    [
        format::JOINTS_KIND,
        1,
        0,
        0,
        rotation,
        0,
        translation,
        0,
        0,
        0,
        0,
        0,
        counts,
        65536,
        0,
        0,
    ]
}

// Whether each id fits its record.
fn ids_fit(rotation: &[[u32; 49]]) -> bool
    ensures { result ≡ ids_fit (map rotation_row rotation.now) }
{
    rotation.iter().all(|row| Rotation::fits(row))
}

// The section of these limits, in a part of a buffer that has just its bytes.
fn lay_section(rotation: &[[u32; 49]], translation: &[[u32; 16]], out: &mut [u8])
    requires few { (length rotation.now ≤ 65535) × (length translation.now ≤ 65535) }
    requires room { length out.old ≡ 64 + 192 * length rotation.now + 64 * length translation.now }
    ensures { out.new ≡ joints_layout (map rotation_row rotation.now) (map translation_row translation.now) }
{
    let head = words::store::<64>(&header(rotation.len(), translation.len()));
    let (front, limits) = out.split_at_mut(format::JOINTS_SIZE);
    let (rotations, translations) = limits.split_at_mut(
        format::ROTATION_LIMIT_SIZE * rotation.len(),
    );
    front.copy_from_slice(&head);
    rows::store::<Rotation, 192, 49>(rotation, rotations);
    rows::store::<Translation, 64, 16>(translation, translations);
}

// The section of the limits in the first rows of two tables, at the front of `out`, and how many bytes it has. The refusals, in this
// order: 6 for more than 65,535 of either, 1 for a table with fewer rows than asked for, 35 for a rotation limit whose id is above 65,535, 5
// for a buffer that is too short. A refusal changes nothing, and what lies behind the section stays as it was.
pub fn write(rotation: Rows<49>, translation: Rows<16>, out: &mut [u8]) -> Result<usize, Refusal>
    ensures answer { outcome result ≡ size_of
        (table_written (length out.old) rotation.entry.table.now rotation.entry.count
        translation.entry.table.now translation.entry.count) }
    ensures buffer { out.new ≡ left_in
        (table_written (length out.old) rotation.entry.table.now rotation.entry.count
        translation.entry.table.now translation.entry.count)
        out.old }
{
    if format::MOST < rotation.count || format::MOST < translation.count {
        return Err(Refusal::TooManyLimits);
    }
    let rotation = rotation.get()?;
    let translation = translation.get()?;
    if !ids_fit(rotation) {
        return Err(Refusal::BadLimitId);
    }
    let size = format::JOINTS_SIZE
        + format::ROTATION_LIMIT_SIZE * rotation.len()
        + format::TRANSLATION_LIMIT_SIZE * translation.len();
    if out.len() < size {
        return Err(Refusal::BufferTooShort);
    }
    lay_section(rotation, translation, &mut out[..size]);
    Ok(size)
}
