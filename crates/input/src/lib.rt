// Filling lent bytes from a reader.
#![tactic(auto)]

ghost use Rattle.std.specs.Prelude.{ℕ, ◌<◌, ◌≤◌, length, take, IfOk, OnErr};
ghost use Rattle.std.specs.Io.{ReadsAtMost};
ghost use Rattle.std.specs.Io.KnownBytes.{Consumes, IsAtEnd};

use std::io;
use std::io::Read;

// Reads until the bytes are full or the input ends, and gives how many were read. They stand at the start, in the order of the input.
pub fn read_full<R: Read>(input: &mut R, bytes: &mut [u8]) -> io::Result<usize>
    ensures bound { ReadsAtMost result bytes.new }
    ensures read { IfOk result (λ n. Consumes (R.remaining input.old) (R.remaining input.new) (take n bytes.new)) }
    ensures err { OnErr result ((n : ℕ) × (n ≤ length bytes.new)
        × Consumes (R.remaining input.old) (R.remaining input.new) (take n bytes.new)) }
    ensures end { IfOk result (λ n. n < length bytes.old → IsAtEnd (R.remaining input.new)) }
{
    let mut done = 0;
    // Not `read_exact` or `read_to_end`: they promise nothing of what was read before an error. (A `while`: its step is what a read gave.)
    while done < bytes.len() {
        let n = input.read(&mut bytes[done..])?;
        if n == 0 {
            return Ok(done);
        }
        done += n;
    }
    Ok(done)
}

#[cfg(test)]
mod tests {
    use super::*;

    // A reader that gives two bytes a read at most, and fails behind the last where it is to.
    #[derive(Drop)]
    struct Slow<'a> {
        left: &'a [u8],
        fails: bool,
    }

    impl Read for Slow<'_> {
        fn read(&mut self, buf: &mut [u8]) -> io::Result<usize> {
            if self.left.is_empty() && self.fails {
                return Err(io::Error::from(io::ErrorKind::TimedOut));
            }
            let n = self.left.len().min(buf.len()).min(2);
            buf[..n].copy_from_slice(&self.left[..n]);
            self.left = &self.left[n..];
            Ok(n)
        }
    }

    #[test]
    fn goes_on_after_short_reads(rt: HostRuntime) -> io::Result<()> {
        let mut bytes = [0u8; 5];
        let mut short = Slow {
            left: b"abc",
            fails: false,
        };
        assert_eq!(rt; read_full(&mut short, &mut bytes)?, 3);
        assert_eq!(rt; bytes, *b"abc\0\0");
        let mut long = Slow {
            left: b"defghij",
            fails: true,
        };
        assert_eq!(rt; read_full(&mut long, &mut bytes)?, 5);
        assert_eq!(rt; bytes, *b"defgh");
        assert_eq!(rt; long.left, b"ij".as_slice());
        Ok(())
    }

    #[test]
    fn fails_where_a_read_fails(rt: HostRuntime) {
        let mut bytes = [0u8; 5];
        let mut broken = Slow {
            left: b"abc",
            fails: true,
        };
        assert!(rt; read_full(&mut broken, &mut bytes).is_err());
    }
}
