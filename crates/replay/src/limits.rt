// Joints replayed (docs/FORMAT.md, "Joints and names").
ghost use Rattle.std.specs.Prelude.{◌≤◌};

use crate::buffers;
use blocks::places::Section;
use fields::runs;
use format::Refusal;
use joints::limits::Limit;
use joints::read::Joints;
use joints::write::Rows;

// ---- reading

// the parts
const SYSTEM: u16 = 2;

const GRAPHICS: u16 = 3;

const FIELDS: u16 = 4;

const ROTATION: u16 = 5;

const TRANSLATION: u16 = 6;

fn answer_alone(answer: u32) -> [usize; 8] {
    let mut fields = [0usize; 8];
    fields[0] = answer as usize;
    fields
}

// The answer, and behind it the kind word, the stored counts, and of each list whether it stands and how many limits it has; zeros
// where nothing is read.
fn fields_of(read: Result<Option<Joints>, Refusal>) -> [usize; 8] {
    match read {
        Ok(None) => answer_alone(rig_answers::NOTHING),
        Ok(Some(j)) => [
            buffers::DONE as usize,
            j.kind as usize,
            j.rotation_count as usize,
            j.translation_count as usize,
            usize::from(j.rotation.is_some()),
            usize::from(j.rotation.unwrap_or(0)),
            usize::from(j.translation.is_some()),
            usize::from(j.translation.unwrap_or(0)),
        ],
        Err(refusal) => answer_alone(u32::from(refusal)),
    }
}

pub(crate) fn read_agrees(case: &[u8], root: u64) -> bool {
    let mut rotation = buffers::DIRTY32;
    let mut translation = buffers::DIRTY32;
    let section = Section {
        system: replay_sample::part(case, SYSTEM),
        graphics: replay_sample::part(case, GRAPHICS),
    };
    let r = joints::read::read(section, root, &mut rotation, &mut translation);
    let fields = fields_of(r);
    buffers::all(
        replay_sample::same(&fields.map(|n| n as u64), replay_sample::part(case, FIELDS)),
        replay_sample::same(&rotation, replay_sample::part(case, ROTATION)),
        replay_sample::same(&translation, replay_sample::part(case, TRANSLATION)),
        true,
    )
}

// ---- writing

// the parts
const ROTATION_LIMITS: u16 = 2;

const TRANSLATION_LIMITS: u16 = 3;

const SECTION: u16 = 4;

pub(crate) fn write_agrees(case: &[u8], r: usize, t: usize, answer: u32) -> bool {
    let rotation = replay_sample::loaded(replay_sample::part(case, ROTATION_LIMITS));
    let translation = replay_sample::loaded(replay_sample::part(case, TRANSLATION_LIMITS));
    let mut out = buffers::DIRTY8;
    let rotations = Rows {
        table: &rotation,
        count: r,
    };
    let translations = Rows {
        table: &translation,
        count: t,
    };
    let w = joints::write::write(rotations, translations, &mut out);
    let want = replay_sample::part(case, SECTION);
    buffers::all(
        buffers::counted(w, answer, want.len()),
        replay_sample::same_bytes(&out, want, buffers::DIRT8),
        true,
        true,
    )
}

// ---- one record

// the parts of a reading
const RECORD: u16 = 2;

const ROW: u16 = 3;

pub(crate) fn row_read_agrees<L: Limit<BYTES, WORDS>, const BYTES: usize, const WORDS: usize>(
    case: &[u8],
) -> bool
    requires { (BYTES ≤ 192) × (WORDS ≤ 49) }
{
    let words = replay_sample::loaded(replay_sample::part(case, RECORD));
    let mut bytes = [0u8; BYTES];
    let slots = words.len().min(BYTES / 4);
    let _ = runs::put(&mut bytes, 0, &words[..slots]);
    let row = L::from_record(&bytes);
    replay_sample::same(&row, replay_sample::part(case, ROW))
}

// the parts of a writing
const WRITTEN_ROW: u16 = 2;

const BYTES_WRITTEN: u16 = 3;

// Lent the first n bytes of a buffer; all of it is compared, also what is not lent.
pub(crate) fn row_write_agrees<L: Limit<BYTES, WORDS>, const BYTES: usize, const WORDS: usize>(
    case: &[u8],
    n: usize,
    answer: u32,
) -> bool
    requires { (BYTES ≤ 192) × (WORDS ≤ 49) }
{
    let words = replay_sample::loaded(replay_sample::part(case, WRITTEN_ROW));
    let mut row = [0u32; WORDS];
    let _ = runs::copy(&words, 0, WORDS, &mut row, 0);
    let mut out = buffers::DIRTY8;
    let lent = replay_sample::within(n, &out);
    let written = L::write(&row, &mut out[..lent]);
    buffers::all(
        buffers::answered(written, answer),
        replay_sample::same_bytes(
            &out,
            replay_sample::part(case, BYTES_WRITTEN),
            buffers::DIRT8,
        ),
        true,
        true,
    )
}

// ---- the fresh rotation limit

// the part with its row
const FRESH: u16 = 2;

pub(crate) fn fresh_agrees(case: &[u8]) -> bool {
    let row = joints::limits::fresh_rotation_limit();
    replay_sample::same(&row, replay_sample::part(case, FRESH))
}
