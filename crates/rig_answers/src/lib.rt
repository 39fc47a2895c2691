// Answers as numbers, for C and Rust: a status, 0, 100 for none or the number of the refusal, and what the call gives, fields,
// a count or a position.
#![tactic(auto)]

ghost use Rattle.std.specs.Prelude.{◌≡◌};
ghost use Rattle.std.specs.Prelude.{Some};
ghost use Rattle.format.specs.Refusal.{outcome};
ghost use Rattle.format.specs.Result.{done, status};
ghost use Rattle.format.specs.Tables.{part_length};
ghost use Rattle.read.specs.Parts.{meant_part};
ghost use Rattle.read.specs.Reads.{meant_skeleton, meant_read};
ghost use Rattle.rig_answers.specs.Answer.{counted, read_status, given, number_if, present};
ghost use Rattle.rig_answers.specs.Told.{skeleton_fields};

use format::Refusal;
use read::Skeleton;

// The status of "none".
pub const NOTHING: u32 = 100;

// ---- reading, lookup, search, check

// The status of a call that gives something or none.
pub fn status<T: Copy>(r: Result<Option<T>, Refusal>) -> u32
    ensures { result ≡ read_status (outcome r) }
{
    match r {
        Ok(Some(_)) => 0,
        Ok(None) => NOTHING,
        Err(e) => u32::from(e),
    }
}

// The position that a search gives, or the number of bones of a check; 0 for none and after a refusal.
pub fn given(r: Result<Option<usize>, Refusal>) -> usize
    ensures { result ≡ given (outcome r) }
{
    match r {
        Ok(Some(n)) => n,
        _ => 0,
    }
}

// The same of the position that a lookup gives. (Its own function: `given` behind two closures that cast the word would be no shorter.)
pub fn looked_position(r: Result<Option<u32>, Refusal>) -> usize
    ensures { result ≡ given (outcome r) }
{
    match r {
        Ok(Some(position)) => position as usize,
        Ok(None) | Err(_) => 0,
    }
}

// ---- the fields of a skeleton

// 1 where a part stands, else 0.
fn stands(part: Option<usize>) -> usize
    ensures { result ≡ number_if (present (meant_part part)) }
{
    usize::from(part.is_some())
}

// How long a part is, 0 where it is absent.
fn length(part: Option<usize>) -> usize
    ensures { result ≡ part_length (meant_part part) }
{
    part.unwrap_or(0)
}

fn skeleton_fields(s: Skeleton) -> [usize; 20]
    ensures { result ≡ skeleton_fields (done (Some (meant_skeleton s))) }
{
    [
        s.kind as usize,
        s.free.x as usize,
        s.free.y as usize,
        s.free.z as usize,
        s.free.w as usize,
        s.bucket_count as usize,
        s.bone_count as usize,
        s.child_count as usize,
        stands(s.buckets),
        length(s.buckets),
        stands(s.bones),
        length(s.bones),
        stands(s.inverse),
        length(s.inverse),
        stands(s.local),
        length(s.local),
        stands(s.parents),
        length(s.parents),
        stands(s.children),
        length(s.children),
    ]
}

// The kind word, the four free words, the stored counts of buckets, bones and children, and of buckets, bones, inverse, local, parents
// and children whether each stands and how long it is; all 0 unless a skeleton was read.
pub fn read_fields(r: Result<Option<Skeleton>, Refusal>) -> [usize; 20]
    ensures { result ≡ skeleton_fields (meant_read r) }
{
    match r {
        Ok(Some(s)) => skeleton_fields(s),
        _ => [0; 20],
    }
}

// ---- writing

// The status of a call that does what is asked, or refuses.
pub fn written_status<T: Copy>(answer: Result<T, Refusal>) -> u32
    ensures { result ≡ status (outcome answer) }
{
    match answer {
        Ok(_) => 0,
        Err(refusal) => u32::from(refusal),
    }
}

// How many bytes were written, 0 after a refusal.
pub fn written_count(answer: Result<usize, Refusal>) -> usize
    ensures { result ≡ counted (outcome answer) }
{
    answer.unwrap_or(0)
}
