// A record as its slots, words of 32 bits, and back.
ghost use Rattle.std.specs.Prelude.{◌≡◌, ◌*◌, ◌≤◌, length};
ghost use Rattle.format.specs.Field.{words, word_bytes};

use fields::runs;

// The N words of some bytes.
pub(crate) fn load<const N: usize>(bytes: &[u8]) -> [u32; N]
    requires { length bytes.now ≡ 4 * N }
    ensures { result ≡ words 4 N bytes.now }
{
    let mut words = [0; N];
    let _ = runs::load(bytes, 0, N, &mut words, 0);
    words
}

// The N bytes of some words.
pub(crate) fn store<const N: usize>(words: &[u32]) -> [u8; N]
    requires { N ≡ 4 * length words.now }
    ensures { result ≡ word_bytes 4 words.now }
{
    let mut bytes = [0; N];
    let _ = runs::put(&mut bytes, 0, words);
    bytes
}
