// Names in a section (docs/FORMAT.md, "Finding bytes"; `string` of `src/blocks/mod.rs`, whose bytes stay as they are).
ghost use Rattle.std.specs.Prelude.{◌≡◌, length};
ghost use Rattle.format.specs.Section.{until_zero, name_at, name_bytes};
ghost use Rattle.format.specs.Refusal.{outcome_by};
ghost use Rattle.blocks.specs.Places.{section_of};
ghost use Rattle.blocks.specs.Names.{meant_place};

use crate::places::Section;
use format::{Place, Refusal};

impl<'a> Section<'a> {
    // Where the name at an address lies: up to a zero byte or the half's end. A half's end is an empty name.
    #[tactic(auto, unfolding(format::specs::Section::name_at, crate::specs::Places::rest))]
    pub fn name_at(self, va: u64) -> Result<Place, Refusal>
        ensures answer { outcome_by meant_place result ≡ name_at (section_of self.entry) va }
    {
        let bytes = self.rest(va)?;
        Ok(Place {
            address: va,
            size: ended(bytes) as u64,
        })
    }

    // The name at a place, as the part of the half that holds it; the empty part for a place outside both.
    #[tactic(auto, unfolding(format::specs::Section::name_bytes))]
    pub fn name(self, place: Place) -> &'a [u8]
        ensures answer { result.now ≡ name_bytes (section_of self.entry) (meant_place place) }
    {
        self.slice_or_none(place.address, place.size as usize)
    }
}

// How many bytes stand up to a zero byte or the end.
fn ended(bytes: &[u8]) -> usize
    ensures { result ≡ length (until_zero bytes.now) }
{
    bytes
        .iter()
        .position(|byte| *byte == 0)
        .unwrap_or(bytes.len())
}
