// The two kinds of limits (docs/FORMAT.md, "Joints and names", "Records", "Rows of the lent tables"): one record as a row and back, and the
// fresh limit. A row holds the named fields, words 0, 1 to 3 and 4 to 6 in both kinds, and behind them the slots that no field names; the last
// word of a rotation limit's row is the second 16-bit number, which shares slot 2 with the id.
ghost use Rattle.std.specs.Prelude.{◌≡◌, ◌*◌, ◌≤◌, ℕ, List, Bool, true, length, get_or, leb};
ghost use Rattle.format.specs.Field.{words, word_bytes};
ghost use Rattle.format.specs.Joints.{rotation_limit, rotation_words, rotation_row, rotation_slots, rotation_written};
ghost use Rattle.format.specs.Joints.{fresh_rotation_limit};
ghost use Rattle.format.specs.Joints.{translation_limit, translation_words, translation_row, translation_slots, translation_written};
ghost use Rattle.format.specs.Refusal.{outcome};
ghost use Rattle.format.specs.Result.{Res};
ghost use Rattle.joints.specs.Limit.{Sizes, limit_written};
ghost use Rattle.joints.specs.Reading.{whether};
ghost use Rattle.joints.specs.Written.{left_in};
ghost use Rattle.joints.specs.Laws.{rotation_sizes, translation_sizes, rotation_written_law, translation_written_law};

use crate::words;
use format::Refusal;

// A kind of limit, whose records have BYTES bytes, and whose rows have WORDS words.
pub trait Limit<const BYTES: usize, const WORDS: usize> {
    // how many slots a record has
    ghost slots: { ℕ };

    // the row of a record with these slots
    ghost row_of: { List ℕ → List ℕ };

    // the slots of the record of a row
    ghost slots_in: { List ℕ → List ℕ };

    // whether a record has room for the id of a row
    ghost fits: { List ℕ → Bool };

    // what is written of a row into a buffer of so many bytes
    ghost written: { ℕ → List ℕ → Res (List ℕ) };

    fn from_record(bytes: &[u8; BYTES]) -> [u32; WORDS]
        ensures { result ≡ row_of (words 4 slots bytes.now) };

    fn to_record(row: &[u32; WORDS]) -> [u8; BYTES]
        ensures { result ≡ word_bytes 4 (slots_in row.now) };

    fn fits(row: &[u32; WORDS]) -> bool
        ensures { result ≡ fits row.now };

    // The record of a row at the front of `out`. The refusals, in this order: 35 for an id that does not fit, 5 for a buffer of fewer bytes
    // than a record has. A refusal changes nothing, and what lies behind the record stays as it was.
    fn write(row: &[u32; WORDS], out: &mut [u8]) -> Result<(), Refusal>
        ensures answer { outcome result ≡ whether (written (length out.old) row.now) }
        ensures buffer { out.new ≡ left_in (written (length out.old) row.now) out.old }
    {
        if !Self::fits(row) {
            return Err(Refusal::BadLimitId);
        }
        if out.len() < BYTES {
            return Err(Refusal::BufferTooShort);
        }
        out[..BYTES].copy_from_slice(&Self::to_record(row));
        Ok(())
    }

    ghost sizes: { Sizes BYTES WORDS slots };

    ghost written_so: { (size : ℕ) (row : List ℕ) → written size row ≡ limit_written (fits row) BYTES size (slots_in row) };
}

// Its record has 16 bits for an id.
pub struct Rotation;

impl Limit<192, 49> for Rotation {
    ghost slots = { 48 };

    ghost row_of = { λ w. rotation_words (rotation_limit w) };

    ghost slots_in = { λ w. rotation_slots (rotation_row w) };

    ghost fits = { λ w. leb (get_or w 0 0) 65535 };

    ghost written = { λ size w. rotation_written size (rotation_row w) };

    fn from_record(bytes: &[u8; 192]) -> [u32; 49] {
        let s = words::load::<48>(bytes);
        let id = s[2] % 65536;
        let second = s[2] / 65536;
        [
            id, s[23], s[24], s[25], s[26], s[27], s[28], s[0], s[1], s[3], s[4], s[5], s[6], s[7],
            s[8], s[9], s[10], s[11], s[12], s[13], s[14], s[15], s[16], s[17], s[18], s[19],
            s[20], s[21], s[22], s[29], s[30], s[31], s[32], s[33], s[34], s[35], s[36], s[37],
            s[38], s[39], s[40], s[41], s[42], s[43], s[44], s[45], s[46], s[47], second,
        ]
    }

    fn to_record(t: &[u32; 49]) -> [u8; 192] {
        let id = t[format::LIMIT_ID] % 65536;
        let second = t[format::ROTATION_SECOND] % 65536;
        let both = id + 65536 * second;
        words::store(&[
            t[7], t[8], both, t[9], t[10], t[11], t[12], t[13], t[14], t[15], t[16], t[17], t[18],
            t[19], t[20], t[21], t[22], t[23], t[24], t[25], t[26], t[27], t[28], t[1], t[2], t[3],
            t[4], t[5], t[6], t[29], t[30], t[31], t[32], t[33], t[34], t[35], t[36], t[37], t[38],
            t[39], t[40], t[41], t[42], t[43], t[44], t[45], t[46], t[47],
        ])
    }

    fn fits(row: &[u32; 49]) -> bool {
        row[format::LIMIT_ID] <= format::GREATEST_ROTATION_ID
    }

    ghost sizes = { rotation_sizes };

    ghost written_so = { rotation_written_law };
}

// Its record has room for every id.
pub struct Translation;

impl Limit<64, 16> for Translation {
    ghost slots = { 16 };

    ghost row_of = { λ w. translation_words (translation_limit w) };

    ghost slots_in = { λ w. translation_slots (translation_row w) };

    ghost fits = { λ w. true };

    ghost written = { λ size w. translation_written size (translation_row w) };

    fn from_record(bytes: &[u8; 64]) -> [u32; 16] {
        let s = words::load::<16>(bytes);
        [
            s[2], s[8], s[9], s[10], s[12], s[13], s[14], s[0], s[1], s[3], s[4], s[5], s[6], s[7],
            s[11], s[15],
        ]
    }

    fn to_record(t: &[u32; 16]) -> [u8; 64] {
        words::store(&[
            t[7], t[8], t[0], t[9], t[10], t[11], t[12], t[13], t[1], t[2], t[3], t[14], t[4],
            t[5], t[6], t[15],
        ])
    }

    fn fits(_row: &[u32; 16]) -> bool {
        true
    }

    ghost sizes = { translation_sizes };

    ghost written_so = { translation_written_law };
}

// ---- the fresh rotation limit

// 1.0, and pi and -pi as the nearest 32-bit floats.
const ONE: u32 = 0x3F80_0000;

const PI: u32 = 0x4049_0FDB;

const MINUS_PI: u32 = 0xC049_0FDB;

// The slots of the default record.
const FRESH: [u32; 48] = [
    0, 0, 0, 1, 3, 0, 0, 0, 0, 0, 0, ONE, 0, 0, 0, 0, ONE, 0, 0, 0, MINUS_PI, PI, ONE, 0, 0, 0, 0,
    0, 0, PI, MINUS_PI, PI, PI, MINUS_PI, PI, PI, MINUS_PI, PI, PI, MINUS_PI, PI, PI, MINUS_PI, PI,
    PI, MINUS_PI, PI, 256,
];

// Its row, as the Rust's `Default` gives it.
pub fn fresh_rotation_limit() -> [u32; 49]
    ensures answer { result ≡ rotation_words fresh_rotation_limit }
{
    Rotation::from_record(&words::store(&FRESH))
}
