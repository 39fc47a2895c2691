// Lent tables and buffers (docs/FORMAT.md, "Who can cause a refusal"): the tables that deriving fills, and the written front of a buffer.
#![tactic(auto)]

pub mod working; // the tables that deriving fills

ghost use Rattle.std.specs.Prelude.{◌≡◌};
ghost use Rattle.tables.specs.Front.{front_of};

// The first n bytes of the caller's buffer, as a part of it that starts where the buffer does; the empty part if n is above its length.
// Nothing is stored, but of the bytes behind the part the contract cannot speak: a slice of which a part is handed back has no exit.
#[tactic(auto, unfolding(format::specs::Field::which_list))]
pub fn front<'a>(out: &'a mut [u8], n: usize) -> &'a mut [u8]
    ensures part { result.now ≡ front_of n out.old }
    ensures place { result.ref_ptr ≡ out.entry.ref_ptr }
{
    if n <= out.len() {
        return &mut out[..n];
    }
    &mut out[..0]
}
