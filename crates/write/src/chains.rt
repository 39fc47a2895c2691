// Bucket pointers and entries, in bucket and chain order, along the links of the derived rows.
ghost use Rattle.std.specs.Prelude.{◌≡◌, ◌+◌, ◌*◌, ◌≤◌, length};
ghost use Rattle.std.proofs.lemmas.List.Edits.{sets};
ghost use Rattle.format.specs.Field.{bytes, lay, word_bytes};
ghost use Rattle.format.specs.Layout as Layout;
ghost use Rattle.format.specs.Layout.{base, chain_bytes, pad16};
ghost use Rattle.format.specs.Section.{window};
ghost use Rattle.write.specs.Linked.{entry_items, linked, ChainRoom, ChainsRoom, ChainsLaid};

use crate::starts::{fill, pointer};
use crate::words::{put_run, put_zeros};
use format::{ENTRY_SIZE, ENTRY_WORDS, POINTER};

// Stores an entry in front of one that lies right behind it, or of none where `link` is 0.
fn put_entry(d: &mut [u8], at: usize, tag: u32, position: u32, link: u32)
    requires { (at + 16 ≤ length d.old) × (at + 16 ≤ window) }
    ensures bytes { d.new ≡ sets d.old at (lay (entry_items (base + (at + 16)) tag position link)) }
{
    let next = pointer(at + ENTRY_SIZE, link as usize);
    put_run(d, at, &[tag, position, next, 0]);
}

// Stores the chain from a link on, which is 0 for none as in the rows, and gives where it ends.
fn put_chain(d: &mut [u8], at: usize, entries: &[u32], link: u32) -> usize
    requires { ChainRoom entries.now link at (length d.old) }
    ensures end { result ≡ at + 16 * length (linked entries.now link) }
    ensures bytes { d.new ≡ sets d.old at (chain_bytes (base + at) (linked entries.now link)) }
{
    let (rows, _) = entries.as_chunks::<ENTRY_WORDS>();
    let mut to = at;
    let mut next = link;
    // Links lead from row to row: no iterator goes so.
    while next != 0 {
        let [tag, position, link] = rows[next as usize - 1];
        put_entry(d, to, tag, position, link);
        to += ENTRY_SIZE;
        next = link;
    }
    to
}

// Stores one bucket pointer: the address of the chain's head, or 0 where `link` is 0.
fn put_pointer(d: &mut [u8], at: usize, head: usize, link: u32)
    requires { (at + 8 ≤ length d.old) × (head ≤ window) }
    ensures bytes { d.new ≡ sets d.old at (bytes 8 (Layout.pointer (base + head) link)) }
{
    put_run(d, at, &[pointer(head, link as usize), 0]);
}

// Stores the pointers of some buckets from `at` on, their fill behind them, and the entries from `to` on.
pub(crate) fn put_chains(d: &mut [u8], at: usize, to: usize, buckets: &[u32], entries: &[u32])
    requires { ChainsRoom buckets.now entries.now at to (length d.old) }
    ensures bytes { ChainsLaid buckets.now entries.now at to d.old d.new }
{
    let mut end = to;
    for (b, head) in buckets.iter().enumerate() {
        put_pointer(d, at + POINTER * b, end, *head);
        end = put_chain(d, end, entries, *head);
    }
    let size = POINTER * buckets.len();
    put_zeros(d, at + size, fill(size));
}
