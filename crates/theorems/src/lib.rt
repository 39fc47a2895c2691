// Demands 1 and 3 of the calls, the exports and the program: statements in `specs/`, proved in `proofs/`. The one function here shows
// that what they ask of bytes and words is asked of every argument by its type.
#![tactic(auto)]

ghost use Rattle.promises.specs.Meaning.{Fits4};
ghost use Rattle.format.specs.Words.{meant_words4};
ghost use Rattle.read_laws.specs.Bytes.{Bytes8};
ghost use Rattle.theorems.specs.Typed.{Words32};

use format::Words4;

// A call: at the entry of a function that makes one, the proof is told of the elements of its slices.
fn nothing() {}

// Every lent slice of bytes holds bytes, every table of u32 words words below 2^32, and so do the four free words.
pub fn typed(bytes: &[u8], words: &[u32], free: Words4)
    ensures bytes { Bytes8 bytes.now }
    ensures words { Words32 words.now }
    ensures free { Fits4 (meant_words4 free) }
{
    nothing();
}
