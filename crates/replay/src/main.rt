// Runs a stored sample of the published Rust's answers against our code, with no Rust at hand (compare/vectors/README.md). The cases
// come from standard input. Printed are, for each operation, how many runs agree and how many differ; how often each answer was met; and
// how many runs agree and differ in all. The first that differs is named where it is met.
#![tactic(auto)]

mod buffers; // what is lent
mod operation; // what is replayed
mod tally; // how the runs came out
mod sections; // reading a skeleton, and looking up a tag
mod rigs; // deriving
mod limits; // joints
mod names; // hashes

use joints::limits::{Rotation, Translation};
use operation::Operation;
use replay_sample::run::Run;
use replay_sample::{number, part, within};
use std::io;
use std::io::Read;
use tally::Tally;

// the bytes in front of a case: its number, and how many bytes it has
const HEAD: usize = 8;

// the most cases: no input is so long, and a loop must end
const MOST: u32 = 1000000;

// the parts that every case has: its runs, three words each, and the two numbers that its calls are given
const RUNS: u16 = 0;

const CALL: u16 = 1;

fn main(rt: HostRuntime) -> io::Result<()> {
    let mut bytes = [0u8; 8192];
    let mut tally = Tally::new();
    replay_all(&rt, &mut rt.stdin(), &mut bytes, &mut tally)?;
    tally.print(&rt)
}

// Replays cases, each through the buffer, until the input ends.
fn replay_all(
    rt: &impl Print,
    reader: &mut impl Read,
    bytes: &mut [u8],
    tally: &mut Tally,
) -> io::Result<()> {
    for _ in 0..MOST {
        if !replay_next(rt, reader, bytes, tally)? {
            break;
        }
    }
    Ok(())
}

// Replays the next case; false where there is none.
fn replay_next(
    rt: &impl Print,
    reader: &mut impl Read,
    bytes: &mut [u8],
    tally: &mut Tally,
) -> io::Result<bool> {
    let head = within(HEAD, bytes);
    if input::read_full(reader, &mut bytes[..head])? < HEAD {
        return Ok(false);
    }
    let case = fields::read::<u32>(bytes, 0);
    let size = fields::read::<u32>(bytes, 4) as usize;
    let room = within(size, bytes);
    if input::read_full(reader, &mut bytes[..room])? < size {
        return Ok(false);
    }
    replay_case(rt, case, bytes, tally)?;
    Ok(true)
}

// Makes all runs of a case: an operation, the tables of the run, and the answer that it must give.
fn replay_case(rt: &impl Print, name: u32, case: &[u8], tally: &mut Tally) -> io::Result<()> {
    let call = part(case, CALL);
    let a = fields::read::<u64>(call, 0);
    let b = fields::read::<u64>(call, 8);
    let runs = part(case, RUNS);
    for words in runs[..runs.len() / 4 * 4].chunks(12) {
        let operation = Operation::try_from(number::<u32>(words, 0));
        let run = number::<u32>(words, 1);
        let answer = number::<u32>(words, 2);
        let agrees = operation.is_ok_and(|operation| run_agrees(
            operation,
            case,
            a,
            b,
            Run::from(run),
            answer,
        ));
        tally.note(rt, operation, name, run, answer, agrees)?;
    }
    Ok(())
}

// Makes a run, and gives whether its answer and all that was lent are as expected.
fn run_agrees(operation: Operation, case: &[u8], a: u64, b: u64, run: Run, answer: u32) -> bool {
    match operation {
        Operation::Read | Operation::ReadFull | Operation::ReadShort => sections::read_agrees(
            case, a, run, answer,
        ),
        Operation::Lookup => sections::lookup_agrees(case, a, answer),
        Operation::Tags => rigs::tags_agree(case, a as usize, answer),
        Operation::Indices => rigs::indices_agree(case, a as usize, answer),
        Operation::Matrices => rigs::matrices_agree(case, a as usize, answer),
        Operation::JointsRead => limits::read_agrees(case, a),
        Operation::JointsWrite => limits::write_agrees(case, a as usize, b as usize, answer),
        Operation::FreshLimit => limits::fresh_agrees(case),
        Operation::Hash => names::hash_agrees(case),
        Operation::RotationRead => limits::row_read_agrees::<Rotation, 192, 49>(case),
        Operation::RotationWrite => limits::row_write_agrees::<Rotation, 192, 49>(
            case, a as usize, answer,
        ),
        Operation::TranslationRead => limits::row_read_agrees::<Translation, 64, 16>(case),
        Operation::TranslationWrite => limits::row_write_agrees::<Translation, 64, 16>(
            case, a as usize, answer,
        ),
    }
}
