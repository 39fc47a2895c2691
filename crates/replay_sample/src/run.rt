// The runs of a case: which tables are lent, and how much of each.
ghost use Rattle.std.specs.Prelude.{◌≡◌, length};
ghost use Rattle.replay_sample.specs.Run.{run_of};
ghost use Rattle.replay_sample.specs.Lent.{lent_of, Front};

use crate::{number, part};

// The tables of a run: each exactly as long as it must be, each longer, or the one of this number a word shorter.
#[derive(Clone, Copy, Debug, PartialEq, Eq)]
pub enum Run {
    Full,
    Longer,
    Short(u32),
}

// A number below it is that of a table.
pub const FULL: u32 = 100;

const LONGER: u32 = 101;

impl From<u32> for Run {
    ghost from_gives = { λ n run. run ≡ run_of n };

    fn from(n: u32) -> Run {
        match n {
            FULL => Run::Full,
            LONGER => Run::Longer,
            table => Run::Short(table),
        }
    }
}

// the part with the lengths that the tables must have
const LENGTHS: u16 = 2;

// How much of a table, the one of number t, a run lends.
pub fn lent<T>(case: &[u8], run: Run, t: u32, table: &[T]) -> usize
    ensures answer { Front (lent_of case.now run t (length table.now)) table.now result }
{
    let length = number::<u32>(part(case, LENGTHS), t as usize) as usize;
    let wanted = match run {
        Run::Full => length.saturating_sub(usize::from(FULL == t)),
        Run::Longer => table.len(),
        Run::Short(short) => length.saturating_sub(usize::from(short == t)),
    };
    wanted.min(table.len())
}
