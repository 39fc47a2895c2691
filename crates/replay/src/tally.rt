// How the runs came out: counts, and their print.
use crate::operation::{OPERATIONS, Operation, UnknownOperation};
use replay_sample::count;
use std::io;

// How many runs agree, and how many differ.
#[derive(Clone, Copy, Debug, PartialEq, Eq)]
struct Count {
    agree: u32,
    differ: u32,
}

impl Count {
    const NONE: Count = Count {
        agree: 0,
        differ: 0,
    };

    fn note(&mut self, agrees: bool) {
        if agrees {
            self.agree = self.agree.saturating_add(1);
        } else {
            self.differ = self.differ.saturating_add(1);
        }
    }
}

#[derive(Drop)]
pub(crate) struct Tally {
    // of each operation
    operations: [Count; 15],

    // in all
    all: Count,

    // how often each answer was met
    met: [u32; 101],
}

impl Tally {
    pub(crate) fn new() -> Tally {
        Tally {
            operations: [Count::NONE; 15],
            all: Count::NONE,
            met: [0; 101],
        }
    }

    // Notes a run of a case, which must give an answer, and names the first that differs.
    pub(crate) fn note(
        &mut self,
        rt: &impl Print,
        operation: Result<Operation, UnknownOperation>,
        number: u32,
        run: u32,
        answer: u32,
        agrees: bool,
    ) -> io::Result<()> {
        if !agrees && self.all.differ == 0 {
            if let Ok(operation) = operation {
                print!(rt; "{operation:<18}")?;
            }
            println!(rt; "differs first: case {number} tables {run}")?;
        }
        match operation {
            Ok(operation) => self.operations[operation as usize].note(agrees),
            Err(UnknownOperation(n)) => self.note_unknown(n),
        }
        self.all.note(agrees);
        if agrees {
            count(&mut self.met, answer as usize);
        }
        Ok(())
    }

    // A run of no operation differs, and its number may count once more: as if all counts stood in one list, two for each operation, at 30
    // and 31 those in all, and from 40 on the answers.
    fn note_unknown(&mut self, n: u32) {
        if n == 15 {
            self.all.note(false);
        } else if n >= 20 && n < 70 {
            count(&mut self.met, 2 * (n as usize) - 39);
        }
    }

    // Prints a line for each operation and each answer that was met, then how many runs agree and how many differ.
    pub(crate) fn print(&self, rt: &impl Print) -> io::Result<()> {
        for (operation, Count { agree, differ }) in OPERATIONS.iter().zip(&self.operations) {
            println!(rt; "{operation:<18}agree {agree} differ {differ}")?;
        }
        for (answer, &met) in self.met.iter().enumerate() {
            if met > 0 {
                println!(rt; "answer {answer} met {met}")?;
            }
        }
        let Count { agree, differ } = self.all;
        println!(rt; "in all agree {agree} differ {differ}")
    }
}
