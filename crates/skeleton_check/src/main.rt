// The program (docs/FORMAT.md, "Joints and names"): checks the system section on standard input, its root at 50000000 hex and its graphics
// section empty, and prints `ok` and the bone count, or `refused` and the number.
#![tactic(auto)]

mod line; // the line printed

ghost use Rattle.std.specs.Prelude.{◌≡◌, ◌≤◌, length, drop};
ghost use Rattle.format.specs.Refusal.{outcome};
ghost use Rattle.format.specs.Program.{printed, report};

use crate::line::put_report;
use format::Refusal;
use read::Tables;
use std::io;
use tables::working::Working;

// The longest section.
const LONGEST: usize = 65536;

// The bone count of a section that passes, none for root 0. The tables hold 800 bones, 8,192 buckets, 4,096 entries, 8,192 child entries and
// 8,192 pool rows.
fn check(sys: &[u8]) -> Result<Option<usize>, Refusal>
    ensures line { report (outcome result) ≡ printed sys.now }
{
    if sys.len() > LONGEST {
        return Err(Refusal::TableTooShort);
    }
    let mut tables = Tables {
        bones: &mut [0u32; 16800],
        buckets: &mut [0u32; 8192],
        entries: &mut [0u32; 12288],
        inverse: &mut [0u32; 12800],
        local: &mut [0u32; 12800],
        parents: &mut [0u16; 800],
        children: &mut [0u16; 8192],
        pool: &mut [0u64; 32768],
    };
    let mut working = Working {
        buckets: &mut [0u32; 8192],
        entries: &mut [0u32; 12288],
        inverse: &mut [0u32; 12800],
        local: &mut [0u32; 12800],
        parents: &mut [0u16; 800],
        children: &mut [0u16; 8192],
        pending: &mut [0u32; 6408],
    };
    verify::check(sys, &[], format::SYSTEM_BASE, &mut tables, &mut working)
}

// Puts the line for a section at the end of a buffer, and gives where it starts.
fn print_check(sys: &[u8], line: &mut [u8]) -> usize
    requires { 14 ≤ length line.old }
    ensures line { drop result line.new ≡ printed sys.now }
    ensures place { result ≤ length line.old }
{
    put_report(check(sys), line)
}

fn main(rt: HostRuntime) -> io::Result<()> {
    let mut section = [0u8; 65537];
    let n = input::read_full(&mut rt.stdin(), &mut section)?;
    let mut line = [0u8; 16];
    let at = print_check(&section[..n], &mut line);
    rt.write_all(&line[at..])
}
