// Numbers and bytes stored one behind the other in a lent buffer. The callers know that there is room. (From an offset on, here and in the parts
// of a section, and not into cut slices: where each part starts is settled first, and the clauses of all speak of one buffer.)
ghost use Rattle.std.specs.Prelude.{◌≡◌, ◌+◌, ◌*◌, ◌≤◌, length, take, replicate};
ghost use Rattle.std.proofs.lemmas.List.Edits.{sets};
ghost use Rattle.format.specs.Field.{word_bytes};
ghost use Rattle.write.specs.Names.{StoredTo};

use fields::{Pod, runs};

// Names are mostly shorter: so many bytes are tested or stored at once.
pub(crate) const CHUNK: usize = 32;

// Numbers, one behind the other.
pub(crate) fn put_run<T: Pod>(d: &mut [u8], at: usize, w: &[T])
    requires { at + T.SIZE * length w.now ≤ length d.old }
    ensures bytes { d.new ≡ sets d.old at (word_bytes T.SIZE (T.numbers w.now)) }
{
    let _ = runs::put(d, at, w);
}

// The first k bytes of s at least: the buffer may change up to its end. Where there are 32 on both sides, 32 are stored, whatever k is.
pub(crate) fn put_at_least(d: &mut [u8], at: usize, s: &[u8], k: usize)
    requires { (k ≤ length s.now) × (at + k ≤ length d.old) }
    ensures bytes { StoredTo (length d.old) d.old at (take k s.now) d.new }
{
    if k <= CHUNK && s.len() >= CHUNK && d.len() - at >= CHUNK {
        put_chunk(d, at, &s[..CHUNK]);
        return;
    }
    put_bytes(d, at, &s[..k]);
}

// The bytes of s, 32: a copy of a length that is known is two loads and two stores.
#[inline(always)]
fn put_chunk(d: &mut [u8], at: usize, s: &[u8])
    requires { (length s.now ≡ 32) × (at + 32 ≤ length d.old) }
    ensures bytes { d.new ≡ sets d.old at s.now }
{
    d[at..at + CHUNK].copy_from_slice(s);
}

// The bytes of s.
fn put_bytes(d: &mut [u8], at: usize, s: &[u8])
    requires { at + length s.now ≤ length d.old }
    ensures bytes { d.new ≡ sets d.old at s.now }
{
    let _ = runs::copy(s, 0, s.len(), d, at);
}

// n zero bytes.
pub(crate) fn put_zeros(d: &mut [u8], at: usize, n: usize)
    requires { at + n ≤ length d.old }
    ensures bytes { d.new ≡ sets d.old at (replicate n 0) }
{
    let end = at + n;
    d[at..end].fill(0);
}
