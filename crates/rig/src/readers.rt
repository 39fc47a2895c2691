// The methods of a cursor in turn (docs/FORMAT.md, "Finding bytes"): what the run against the Rust calls.
ghost use Rattle.std.specs.Prelude.{◌≡◌};
ghost use Rattle.cursors.specs.Turns.{in_turn, fit, told};

// The fifteen numbers of `cursors::in_turn` at the front of `out`, and true; where fewer fit, every word is as it was, and false.
#[unsafe(no_mangle)]
pub extern "C" fn rig_cursor(s: &[u8], pos: usize, base: u64, n: usize, out: &mut [u64]) -> bool
    ensures answer { result ≡ fit out.old }
    ensures slice { out.new ≡ told (in_turn s.entry pos base n) out.old }
{
    cursors::numbers(s, pos, base, n, out)
}
