// A cursor: a reader that holds its bytes and its position (docs/FORMAT.md, "Finding bytes"; `Cursor` of `src/blocks/mod.rs`). A read
// that runs past the end yields zero and marks the overrun, and `check` then refuses.
ghost use Rattle.std.specs.Prelude.{◌≡◌};
ghost use Rattle.format.specs.Refusal.{outcome};
ghost use Rattle.format.specs.Field.{field_at};
ghost use Rattle.blocks.specs.Cursor.{words3_at, words4_at, cursor_at, standing_bytes, read_by, taken, skipped, unmarked, va_of};

use format::{Refusal, Words3, Words4};

#[derive(Clone, Copy)]
pub struct Cursor<'a> {
    // the bytes of one half of a section
    data: &'a [u8],
    // the offset of the next byte
    pub pos: usize,
    // the address of the first of them
    base: u64,
    // whether a read ran past the end
    overrun: bool,
}

impl<'a> Cursor<'a> {
    // A cursor over a section whose first byte has the address `base`. Any position is one.
    pub fn new(data: &'a [u8], pos: usize, base: u64) -> Cursor<'a>
        ensures answer { result ≡ cursor_at «data».entry pos base }
    {
        Cursor {
            data,
            pos,
            base,
            overrun: false,
        }
    }

    // The next k bytes, or none where not all of them stand, which it marks. It leaves the cursor behind them, past the end too.
    #[tactic(auto, unfolding(format::specs::Field::which_list))]
    pub fn take(&mut self, k: usize) -> &'a [u8]
        ensures bytes { result.now ≡ read_by (standing_bytes k) self.old }
        ensures cursor { self.new ≡ taken k self.old }
    {
        let at = self.pos;
        self.pos = at.saturating_add(k);
        if !fields::stands(self.data, at, k) {
            self.overrun = true;
            return &[];
        }
        &self.data[at..at + k]
    }

    // ---- Each read gives what stands at the position, or zeros where not all its bytes stand, which it marks. It leaves the cursor
    // behind its bytes, past the end too. (Each by its name in the Rust, one line over `take`.)

    pub fn u8(&mut self) -> u8
        ensures answer { result ≡ read_by (field_at 1) self.old }
        ensures cursor { self.new ≡ taken 1 self.old }
    {
        self.take(1).first().copied().unwrap_or(0)
    }

    pub fn u16(&mut self) -> u16
        ensures answer { result ≡ read_by (field_at 2) self.old }
        ensures cursor { self.new ≡ taken 2 self.old }
    {
        fields::read::<u16>(self.take(2), 0)
    }

    // A signed number as its pattern, negative from 32768 on.
    pub fn i16(&mut self) -> u16
        ensures answer { result ≡ read_by (field_at 2) self.old }
        ensures cursor { self.new ≡ taken 2 self.old }
    {
        self.u16()
    }

    pub fn u32(&mut self) -> u32
        ensures answer { result ≡ read_by (field_at 4) self.old }
        ensures cursor { self.new ≡ taken 4 self.old }
    {
        fields::read::<u32>(self.take(4), 0)
    }

    pub fn u64(&mut self) -> u64
        ensures answer { result ≡ read_by (field_at 8) self.old }
        ensures cursor { self.new ≡ taken 8 self.old }
    {
        fields::read::<u64>(self.take(8), 0)
    }

    // A float as its word.
    pub fn f32(&mut self) -> u32
        ensures answer { result ≡ read_by (field_at 4) self.old }
        ensures cursor { self.new ≡ taken 4 self.old }
    {
        self.u32()
    }

    // Three floats as their words, all or none. (It and `vec4` are two: each gives a struct of named fields, as the Rust does.)
    pub fn vec3(&mut self) -> Words3
        ensures answer { result ≡ read_by words3_at self.old }
        ensures cursor { self.new ≡ taken 12 self.old }
    {
        let bytes = self.take(12);
        Words3 {
            x: fields::read::<u32>(bytes, 0),
            y: fields::read::<u32>(bytes, 4),
            z: fields::read::<u32>(bytes, 8),
        }
    }

    pub fn vec4(&mut self) -> Words4
        ensures answer { result ≡ read_by words4_at self.old }
        ensures cursor { self.new ≡ taken 16 self.old }
    {
        let bytes = self.take(16);
        Words4 {
            x: fields::read::<u32>(bytes, 0),
            y: fields::read::<u32>(bytes, 4),
            z: fields::read::<u32>(bytes, 8),
            w: fields::read::<u32>(bytes, 12),
        }
    }

    // Moves n bytes on and marks nothing. It stops at the greatest position, where the Rust's sum would overflow.
    pub fn skip(&mut self, n: usize)
        ensures cursor { self.new ≡ skipped n self.old }
    {
        self.pos = self.pos.saturating_add(n);
    }

    // 11 where a read so far ran past the end.
    pub fn check(self) -> Result<(), Refusal>
        ensures answer { outcome result ≡ unmarked self.entry }
    {
        if self.overrun {
            return Err(Refusal::PastTheEnd);
        }
        Ok(())
    }

    // The address that the cursor is at, or the greatest number where the Rust's sum would overflow.
    pub fn va(self) -> u64
        ensures answer { result ≡ va_of self.entry }
    {
        self.base.saturating_add(self.pos as u64)
    }
}
