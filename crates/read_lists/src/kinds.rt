// The two kinds of lists, and the two tables of each.
ghost use Rattle.std.specs.Prelude.{◌≡◌, ℕ, ◌/◌, ◌<◌, ◌≤◌, List, length, refl};
ghost use Rattle.std.proofs.Common.{rules, sym};
ghost use Rattle.std.proofs.Math.Nat.{div-one};
ghost use Rattle.format.specs.Tables as Format;
ghost use Rattle.format.specs.Tables.{width, words_per_row};
ghost use Rattle.blocks.specs.Kinds.{meant_table};
ghost use Rattle.read_lists.specs.Lists.{matrix_table, index_table, twin, rows_in};
ghost use Rattle.read_lists.specs.declared.kinds.Matrices.TheVariants.{Inverse, Local};
ghost use Rattle.read_lists.specs.declared.kinds.Indices.TheVariants.{Parents, Children};

use blocks::kinds::ListTable;
use fields::Pod;
use format::MATRIX_WORDS;

// A kind of list, which has two tables; a value names one of them. ROW words of a table are a row.
pub trait ListKind: Copy {
    type Word: Pod;

    // the table that is named
    ghost table: { Self → Format.ListTable };

    ghost ROW: { ℕ };

    const ROW: usize;

    fn table(self) -> ListTable
        ensures { meant_table result ≡ table self };

    // The other table of the kind.
    fn other(self) -> Self
        ensures { table result ≡ twin (table self) };

    // a row has words, but so few that a list's bytes can be counted
    ghost some_words: { 0 < ROW };

    ghost few_words: { ROW ≤ 16 };

    ghost few_bytes: { Self.Word.SIZE ≤ 4 };

    // the rows of a table are those of the format
    ghost width_of: { (k : Self) → width (table k) ≡ Self.Word.SIZE };

    ghost row_of: { (k : Self) → words_per_row (table k) ≡ ROW };

    ghost rows_of: { (k : Self) (t : List ℕ) → rows_in (table k) t ≡ length t / ROW };

    // the words stand as they were stored
    ghost plain_words: { (l : List ℕ) → Self.Word.numbers (Self.Word.values l) ≡ l };
}

// The two lists of matrices.
#[derive(Clone, Copy)]
pub enum Matrices {
    Inverse,
    Local,
}

impl ListKind for Matrices {
    type Word = u32;

    ghost table = { matrix_table };

    ghost ROW = { 16 };

    const ROW: usize = MATRIX_WORDS;

    fn table(self) -> ListTable {
        match self {
            Matrices::Inverse => ListTable::Inverse,
            Matrices::Local => ListTable::Local,
        }
    }

    fn other(self) -> Matrices {
        match self {
            Matrices::Inverse => Matrices::Local,
            Matrices::Local => Matrices::Inverse,
        }
    }

    ghost some_words = { Prim.search rules };

    ghost few_words = { Prim.search rules };

    ghost few_bytes = { Prim.search rules };

    ghost width_of = { elim [ Inverse ↦ refl | Local ↦ refl ] };

    ghost row_of = { elim [ Inverse ↦ refl | Local ↦ refl ] };

    ghost rows_of = { elim [ Inverse ↦ λ t. refl | Local ↦ λ t. refl ] };

    ghost plain_words = { λ l. refl };
}

// The two lists of indices.
#[derive(Clone, Copy)]
pub enum Indices {
    Parents,
    Children,
}

impl ListKind for Indices {
    type Word = u16;

    ghost table = { index_table };

    ghost ROW = { 1 };

    const ROW: usize = 1;

    fn table(self) -> ListTable {
        match self {
            Indices::Parents => ListTable::Parents,
            Indices::Children => ListTable::Children,
        }
    }

    fn other(self) -> Indices {
        match self {
            Indices::Parents => Indices::Children,
            Indices::Children => Indices::Parents,
        }
    }

    ghost some_words = { Prim.search rules };

    ghost few_words = { Prim.search rules };

    ghost few_bytes = { Prim.search rules };

    ghost width_of = { elim [ Parents ↦ refl | Children ↦ refl ] };

    ghost row_of = { elim [ Parents ↦ refl | Children ↦ refl ] };

    ghost rows_of = { elim [ Parents ↦ λ t. sym (div-one (length t)) | Children ↦ λ t. sym (div-one (length t)) ] };

    ghost plain_words = { λ l. refl };
}
