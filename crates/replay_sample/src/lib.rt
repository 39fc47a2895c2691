// The stored sample of the published Rust's answers (compare/vectors/README.md): a case's parts, tables compared with what a part
// holds, and counts of how the runs came out.
#![tactic(auto)]

ghost use Rattle.std.specs.Prelude.{◌≡◌, min, length, get_or};
ghost use Rattle.format.specs.Rows.{laid};
ghost use Rattle.format.specs.Check.{same_list, same_words};
ghost use Rattle.replay_sample.specs.Parts.{part_of, numbers, padded_to, part_loaded};
ghost use Rattle.replay_sample.specs.Lent.{lent_of, Front};
ghost use Rattle.replay_sample.specs.Counts.{counted_at};

use fields::Pod;

pub mod run; // how much of each table a run lends

// ---- parts

// Part k of a case, as a part of its bytes; the empty part where the case has none.
pub fn part<'a>(case: &'a [u8], k: u16) -> &'a [u8]
    ensures part { result.now ≡ part_of k case.now }
{
    let at = 4 * (k as usize);
    let from = fields::read::<u32>(case, at) as usize;
    let to = fields::read::<u32>(case, at + 4) as usize;
    if fields::read::<u32>(case, 0) as usize <= at + 4 || to < from || case.len() < to {
        return &case[..0];
    }
    &case[from..to]
}

// The number at a place of a part, 0 behind the last.
pub fn number<T: Pod>(part: &[u8], place: usize) -> T
    ensures answer { result ≡ T.value (get_or (numbers T.SIZE part.now) place 0) }
{
    if place < part.len() / T::SIZE {
        fields::read(part, T::SIZE * place)
    } else {
        T::ZERO
    }
}

// ---- tables compared

// Whether a table begins with the numbers of a part and is zero behind them.
pub fn same<T: Pod + PartialEq>(table: &[T], part: &[u8]) -> bool
    ensures answer { result ≡ same_list T.eq table.now (T.values (laid (numbers T.SIZE part.now) (length table.now))) }
{
    part.len() / T::SIZE <= table.len()
        && table
            .iter()
            .enumerate()
            .all(|(place, have)| *have == number(part, place))
}

// Whether a buffer begins with the bytes of a part and holds `rest` behind them.
pub fn same_bytes(buffer: &[u8], part: &[u8], rest: u8) -> bool
    ensures answer { result ≡ same_words buffer.now (padded_to part.now rest (length buffer.now)) }
{
    part.len() <= buffer.len()
        && buffer
            .iter()
            .enumerate()
            .all(|(place, have)| have == part.get(place).unwrap_or(&rest))
}

// ---- tables to lend

// A table with the words of a part, as many as it holds, and zeros behind them.
pub fn loaded(part: &[u8]) -> [u32; 672]
    ensures table { result ≡ part_loaded 672 part.now }
{
    let mut table = [0u32; 672];
    for (place, word) in table.iter_mut().enumerate() {
        *word = number(part, place);
    }
    table
}

// At most n, and at most as many as the table has. (A length: callers lend the front by `&mut`, and of a part handed back so no clause tells the
// rest.)
pub fn within<T>(n: usize, table: &[T]) -> usize
    ensures answer { Front (min n (length table.now)) table.now result }
{
    n.min(table.len())
}

// ---- counts

// One more at a place of the counts; nothing where there is no such place.
pub fn count(counts: &mut [u32], at: usize)
    ensures rows { counts.new ≡ counted_at at counts.old }
{
    if at < counts.len() {
        counts[at] = counts[at].saturating_add(1);
    }
}
