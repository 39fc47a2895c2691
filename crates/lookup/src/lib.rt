// Lookup of a tag in the bytes of a section (docs/FORMAT.md, "Lookup and check"): no table is lent, and nothing but the bytes that the
// walk comes to is read.
#![tactic(auto)]

ghost use Rattle.std.specs.Prelude.{◌≡◌};
ghost use Rattle.format.specs.Refusal.{outcome};
ghost use Rattle.format.specs.Lookup as Definitions;
ghost use Rattle.blocks.specs.Places.{section_of};

use blocks::places::Section;
use format::{POINTER, Refusal};
use read_records::{entry, header};

// Along the links from an address, to the first entry with the tag or to a 0 link, which gives none. With n entries visited and
// another linked, 14, before its address is examined: 10, 11.
#[tactic(auto, using(crate::proofs::Walking::ends, crate::proofs::Walking::too_long, crate::proofs::Walking::visits))]
fn follow(section: Section, tag: u16, n: u16, va: u64) -> Result<Option<u32>, Refusal>
    ensures { outcome result ≡ Definitions.follow (section_of section.entry) tag n va }
{
    let key = u32::from(tag);
    let mut at = va;
    for _ in 0..n {
        if at == 0 {
            return Ok(None);
        }
        let entry = entry::entry_at(section, at)?;
        if entry.tag == key {
            return Ok(Some(entry.position));
        }
        at = entry.next;
    }
    if at == 0 {
        return Ok(None);
    }
    Err(Refusal::ChainTooLong)
}

// In c buckets whose pointers lie at an address: the whole array must stand (10, 11), and the tag's bucket is followed. Pointer 0
// or no buckets give none, and the pointer is not examined.
#[tactic(auto, unfolding(format::specs::Lookup::lookup_in))]
fn lookup_in(section: Section, tag: u16, n: u16, va: u64, c: u16) -> Result<Option<u32>, Refusal>
    ensures { outcome result ≡ Definitions.lookup_in (section_of section.entry) tag n va c }
{
    if va == 0 || c == 0 {
        return Ok(None);
    }
    let pointers = section.slice(va, POINTER * usize::from(c))?;
    let first = fields::read::<u64>(pointers, POINTER * usize::from(tag % c));
    follow(section, tag, n, first)
}

// The position that the skeleton at a root address stores for a tag. Root 0, bucket pointer 0 and bucket count 0 give none, and so
// does a bucket with no entry of the tag. The refusals in order: 10 and 11 for the 98 bytes of the record, then for the whole bucket
// array; of each entry met 14 where as many entries as the stored bone count were visited, then 10 and 11. All 32 bits of an entry's
// tag are compared.
#[tactic(auto, unfolding(format::specs::Lookup::lookup))]
pub fn lookup(section: Section, root: u64, tag: u16) -> Result<Option<u32>, Refusal>
    ensures answer { outcome result ≡ Definitions.lookup (section_of section.entry) root tag }
{
    if root == 0 {
        return Ok(None);
    }
    let header = header::header_at(section, root)?;
    lookup_in(
        section,
        tag,
        header.bone_count,
        header.buckets_at,
        header.bucket_count,
    )
}
