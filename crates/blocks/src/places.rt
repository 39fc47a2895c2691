// Where an address leads (docs/FORMAT.md, "Finding bytes"; `section`, `slice` and `cursor` of `src/blocks/mod.rs`). A section is
// lent as its two halves, the system bytes and the graphics bytes.
ghost use Rattle.std.specs.Prelude.{◌≡◌, length, IfOk};
ghost use Rattle.format.specs.Refusal.{outcome_by};
ghost use Rattle.format.specs.Section.{part, array, or_none, spot};
ghost use Rattle.blocks.specs.Places.{section_of, lent, rest, spot_at};

use format::Refusal;

// The lower 28 bits of an address are the offset in its half.
const WINDOW: u64 = 0x1000_0000;

// An address divided by the window, in each half.
const SYSTEM: u64 = format::SYSTEM_BASE / WINDOW;

const GRAPHICS: u64 = format::GRAPHICS_BASE / WINDOW;

// The two lent halves of a section.
#[derive(Clone, Copy)]
pub struct Section<'a> {
    pub system: &'a [u8],
    pub graphics: &'a [u8],
}

impl<'a> Section<'a> {
    // The half that an address leads into, and the offset there, past the half's end too. 10 where it is in neither half.
    #[tactic(auto, unfolding(format::specs::Section::spot))]
    pub fn half(self, va: u64) -> Result<(&'a [u8], usize), Refusal>
        ensures answer { outcome_by spot_at result ≡ spot (section_of self.entry) va }
    {
        let offset = (va % WINDOW) as usize;
        match va / WINDOW {
            SYSTEM => Ok((self.system, offset)),
            GRAPHICS => Ok((self.graphics, offset)),
            _ => Err(Refusal::BadAddress),
        }
    }

    // The n bytes at an address, all of which must stand: refusals 10, then 11.
    #[tactic(auto, unfolding(format::specs::Section::spot, format::specs::Section::part))]
    pub fn slice(self, va: u64, n: usize) -> Result<&'a [u8], Refusal>
        ensures answer { outcome_by lent result ≡ part (section_of self.entry) va n }
        ensures size { IfOk result (λ bytes. length bytes.now ≡ n) }
    {
        let (half, offset) = self.half(va)?;
        if !fields::stands(half, offset, n) {
            return Err(Refusal::PastTheEnd);
        }
        Ok(&half[offset..offset + n])
    }

    // The same; none where they do not all stand.
    pub fn slice_or_none(self, va: u64, n: usize) -> &'a [u8]
        ensures answer { result.now ≡ or_none (part (section_of self.entry) va n) }
    {
        self.slice(va, n).unwrap_or(&[])
    }

    // The n bytes of an array, of which an empty one is not looked for.
    #[tactic(auto, unfolding(format::specs::Section::array))]
    pub fn array(self, va: u64, n: usize) -> Result<&'a [u8], Refusal>
        ensures answer { outcome_by lent result ≡ array (section_of self.entry) va n }
        ensures size { IfOk result (λ bytes. length bytes.now ≡ n) }
    {
        if n == 0 {
            return Ok(&[]);
        }
        self.slice(va, n)
    }

    // The bytes of the half from an address on, which must be a legal cursor: a half's end is one.
    #[tactic(auto, unfolding(format::specs::Section::spot, format::specs::Section::cursor, crate::specs::Places::rest))]
    pub fn rest(self, va: u64) -> Result<&'a [u8], Refusal>
        ensures answer { outcome_by lent result ≡ rest (section_of self.entry) va }
    {
        let (half, offset) = self.half(va)?;
        if half.len() < offset {
            return Err(Refusal::PastTheEnd);
        }
        Ok(&half[offset..])
    }
}
