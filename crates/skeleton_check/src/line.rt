// The line that the program prints (docs/FORMAT.md, "Joints and names"), laid from a buffer's end towards its start.
ghost use Rattle.std.specs.Prelude.{◌≡◌, ◌++◌, ◌∷◌, [], ◌+◌, ◌≤◌, length, drop};
ghost use Rattle.format.specs.Refusal.{outcome};
ghost use Rattle.format.specs.Program.{digits_onto, report};

use format::Refusal;

// The most digits of a number.
const DIGITS: usize = 5;

// Puts the decimal digits of n, five at most, in front of the bytes from `end` on, and gives where they start.
fn put_digits(line: &mut [u8], end: usize, n: usize) -> usize
    requires { (5 ≤ end) × (end ≤ length line.old) }
    ensures digits { drop result line.new ≡ digits_onto 5 n (drop end line.old) }
    ensures place { (result ≤ end) × (end ≤ result + 5) }
{
    let mut at = end;
    let mut rest = n;
    for _ in 0..DIGITS {
        at -= 1;
        line[at] = b'0' + (rest % 10) as u8;
        if rest < 10 {
            return at;
        }
        rest /= 10;
    }
    at
}

// Puts a word in front of the bytes from `end` on, and gives where it starts.
fn put_word(line: &mut [u8], end: usize, word: &[u8]) -> usize
    requires { (length word.now ≤ end) × (end ≤ length line.old) }
    ensures word { drop result line.new ≡ word.now ++ drop end line.old }
    ensures place { result ≤ end }
{
    let at = end - word.len();
    line[at..end].copy_from_slice(word);
    at
}

// Puts a word, the number n and a newline at the end of a line, and gives where they start.
fn put_line(line: &mut [u8], word: &[u8], n: usize) -> usize
    requires { length word.now + 6 ≤ length line.old }
    ensures line { drop result line.new ≡ word.now ++ digits_onto 5 n (10 ∷ []) }
    ensures place { result ≤ length line.old }
{
    let end = line.len() - 1;
    line[end] = b'\n';
    let at = put_digits(line, end, n);
    put_word(line, at, word)
}

// Puts the line for an answer of the check at the end of a buffer, and gives where it starts: `ok` and the bone count, or `refused` and
// the number. Root 0 has no line. (By `Display` no proof would say that writing the line cannot fail.)
pub(crate) fn put_report(answer: Result<Option<usize>, Refusal>, line: &mut [u8]) -> usize
    requires { 14 ≤ length line.old }
    ensures line { drop result line.new ≡ report (outcome answer) }
    ensures place { result ≤ length line.old }
{
    match answer {
        Ok(None) => line.len(),
        Ok(Some(bones)) => put_line(line, b"ok ", bones),
        Err(refusal) => put_line(line, b"refused ", u32::from(refusal) as usize),
    }
}
