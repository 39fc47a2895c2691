// What an address can be read as (docs/FORMAT.md, "Finding bytes": "Both matrix lists are one kind, parents and children another").
ghost use Rattle.std.specs.Prelude.{◌≡◌};
ghost use Rattle.format.specs.Tables.{same_kind};
ghost use Rattle.blocks.specs.Kinds.{meant_table, meant_kind, kind_code, kind_from, of_matrices};

// The four tables that a plain array is read into.
#[derive(Clone, Copy, Debug, PartialEq, Eq)]
pub enum ListTable {
    Inverse,
    Local,
    Parents,
    Children,
}

impl ListTable {
    // Whether it takes matrices; else it takes indices.
    fn of_matrices(self) -> bool
        ensures { result ≡ of_matrices (meant_table self) }
    {
        matches!(self, ListTable::Inverse | ListTable::Local)
    }
}

// What an address was read as.
#[derive(Clone, Copy, Debug, PartialEq, Eq)]
pub enum Kind {
    Skeleton,
    Buckets,
    Entry,
    // the bones block
    Block,
    Bone,
    // a name
    String,
    // a plain array, and the table that it was read into
    List(ListTable),
}

// The word that stands for the kind in a row of the pool, never 0. A list's tells its table too.
impl From<Kind> for u64 {
    ghost from_gives = { λ k n. n ≡ kind_code (meant_kind k) };

    fn from(k: Kind) -> u64 {
        match k {
            Kind::Skeleton => 1,
            Kind::Buckets => 2,
            Kind::Entry => 3,
            Kind::Block => 4,
            Kind::Bone => 5,
            Kind::String => 6,
            Kind::List(ListTable::Inverse) => 7,
            Kind::List(ListTable::Local) => 8,
            Kind::List(ListTable::Parents) => 9,
            Kind::List(ListTable::Children) => 10,
        }
    }
}

impl Kind {
    // The kind that a word stands for; one that is no kind's code stands for the last. (No TryFrom: a word of a lent pool is any number, and
    // none of them is an error.)
    #[tactic(auto, unfolding(crate::specs::Kinds::kind_from))]
    pub fn from_code(code: u64) -> Kind
        ensures answer { meant_kind result ≡ kind_from code }
    {
        match code {
            1 => Kind::Skeleton,
            2 => Kind::Buckets,
            3 => Kind::Entry,
            4 => Kind::Block,
            5 => Kind::Bone,
            6 => Kind::String,
            7 => Kind::List(ListTable::Inverse),
            8 => Kind::List(ListTable::Local),
            9 => Kind::List(ListTable::Parents),
            _ => Kind::List(ListTable::Children),
        }
    }

    // Whether two are one kind: lists are where both are of matrices, or both of indices. (Not `==`, which tells their tables apart.)
    pub fn same(self, other: Kind) -> bool
        ensures answer { result ≡ same_kind (meant_kind self) (meant_kind other) }
    {
        match (self, other) {
            (Kind::List(mine), Kind::List(its)) => mine.of_matrices() == its.of_matrices(),
            _ => self == other,
        }
    }
}
