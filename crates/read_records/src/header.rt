// The header of a skeleton: the fields that reading takes from its record (docs/FORMAT.md, "Records").
ghost use Rattle.std.specs.Prelude.{◌≡◌};
ghost use Rattle.format.specs.Refusal.{outcome_by};
ghost use Rattle.format.specs.Records.{header};
ghost use Rattle.blocks.specs.Places.{section_of};
ghost use Rattle.read_records.specs.Header.{header_in, meant_header};

use blocks::places::Section;
use format::{Refusal, Words4};

// The fields, by their offsets.
#[derive(Clone, Copy, Debug, PartialEq, Eq)]
pub struct Header {
    // 0, as it is stored: it is not examined
    pub kind: u32,
    // 16 and 24
    pub buckets_at: u64,
    pub bucket_count: u16,
    // the four free words, 28, 80, 84 and 88
    pub free: Words4,
    // 32: the first bone, behind the block's header
    pub bones_at: u64,
    // 40, 48, 56 and 64
    pub inverse_at: u64,
    pub local_at: u64,
    pub parents_at: u64,
    pub children_at: u64,
    // 94 and 96
    pub bone_count: u16,
    pub child_count: u16,
}

// The header that 98 bytes hold.
#[tactic(auto, unfolding(crate::specs::Header::header_in))]
fn header_in(b: &[u8]) -> Header
    ensures { meant_header result ≡ header_in b.now }
{
    Header {
        kind: fields::read::<u32>(b, 0),
        buckets_at: fields::read::<u64>(b, 16),
        bucket_count: fields::read::<u16>(b, 24),
        free: Words4 {
            x: fields::read::<u32>(b, 28),
            y: fields::read::<u32>(b, 80),
            z: fields::read::<u32>(b, 84),
            w: fields::read::<u32>(b, 88),
        },
        bones_at: fields::read::<u64>(b, 32),
        inverse_at: fields::read::<u64>(b, 40),
        local_at: fields::read::<u64>(b, 48),
        parents_at: fields::read::<u64>(b, 56),
        children_at: fields::read::<u64>(b, 64),
        bone_count: fields::read::<u16>(b, 94),
        child_count: fields::read::<u16>(b, 96),
    }
}

// The header of the skeleton at an address. Its bytes up to the last field read must stand: 10, then 11.
#[tactic(auto, unfolding(format::specs::Records::header))]
pub fn header_at(section: Section, root: u64) -> Result<Header, Refusal>
    ensures answer { outcome_by meant_header result ≡ header (section_of section.entry) root }
{
    let bytes = section.slice(root, format::SKELETON_READ)?;
    Ok(header_in(bytes))
}
