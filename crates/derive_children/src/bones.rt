// The bones that the lists are derived of.
ghost use Rattle.std.specs.Prelude.{◌≡◌, length};

use format::BONE_WORDS;

// The rows of some bones and their parents, one for each. (The words of the index and of the pile are lent beside it: they change, and
// a struct that held them too would have each call promise that the rows and the parents stay.)
#[derive(Clone, Copy)]
pub(crate) struct Bones<'a> {
    pub rows: &'a [[u32; BONE_WORDS]],
    pub parents: &'a [u16],
    ghost each: { length rows.now ≡ length parents.now },
}
