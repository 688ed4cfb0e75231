ghost use Rattle.std.specs.Prelude.{◌≡◌};

use crate::perm::{Kind, Perm, Rel};
use crate::report::Refusal;

/// One entry of the permission table, at a byte that the tag has not accessed: the permission
/// afterwards, or why the tag refuses.
#[derive(Clone, Copy, Debug, PartialEq, Eq)]
pub struct TableRow {
    pub perm: Perm,
    pub protected: bool,
    pub rel: Rel,
    pub kind: Kind,
    pub moved: Result<Perm, Refusal>,
}

/// Entries of the permission table, as many as `N` says.
#[derive(Clone, Copy, Debug)]
pub struct Table<const N: usize> {
    pub rows: [TableRow; N],
}

// The rows of the table: for each permission first unprotected and then protected, and there what
// follows a local read, a local write, a foreign read and a foreign write.
macro_rules! rows {
    ($($perm:ident $protected:literal: $lr:expr, $lw:expr, $fr:expr, $fw:expr;)*) => {
        [$(
            TableRow { perm: Perm::$perm, protected: $protected, rel: Rel::Local, kind: Kind::Read, moved: $lr },
            TableRow { perm: Perm::$perm, protected: $protected, rel: Rel::Local, kind: Kind::Write, moved: $lw },
            TableRow { perm: Perm::$perm, protected: $protected, rel: Rel::Foreign, kind: Kind::Read, moved: $fr },
            TableRow { perm: Perm::$perm, protected: $protected, rel: Rel::Foreign, kind: Kind::Write, moved: $fw },
        )*]
    };
}

impl Table<56> {
    ghost use Rattle.tb_perm.specs.Entries.{entries};

    /// The whole table.
    pub fn new() -> Table<56>
        ensures { result.rows ≡ entries }
    {
        Table {
            rows: rows! {
                Cell false: Ok(Perm::Cell), Ok(Perm::Cell), Ok(Perm::Cell), Ok(Perm::Cell);
                Cell true: Ok(Perm::Cell), Ok(Perm::Cell), Ok(Perm::Cell), Ok(Perm::Cell);
                Reserved false: Ok(Perm::Reserved), Ok(Perm::Active), Ok(Perm::Reserved), Ok(Perm::Disabled);
                Reserved true: Ok(Perm::Reserved), Ok(Perm::Active), Ok(Perm::Conflicted), Ok(Perm::Disabled);
                Conflicted false: Ok(Perm::Conflicted), Ok(Perm::Active), Ok(Perm::Conflicted), Ok(Perm::Disabled);
                Conflicted true: Ok(Perm::Conflicted), Err(Refusal::WriteForbidden), Ok(Perm::Conflicted), Ok(Perm::Disabled);
                ReservedIm false: Ok(Perm::ReservedIm), Ok(Perm::Active), Ok(Perm::ReservedIm), Ok(Perm::ReservedIm);
                ReservedIm true: Ok(Perm::ReservedIm), Ok(Perm::Active), Ok(Perm::ReservedIm), Ok(Perm::ReservedIm);
                Active false: Ok(Perm::Active), Ok(Perm::Active), Ok(Perm::Frozen), Ok(Perm::Disabled);
                Active true: Ok(Perm::Active), Ok(Perm::Active), Ok(Perm::Disabled), Ok(Perm::Disabled);
                Frozen false: Ok(Perm::Frozen), Err(Refusal::WriteForbidden), Ok(Perm::Frozen), Ok(Perm::Disabled);
                Frozen true: Ok(Perm::Frozen), Err(Refusal::WriteForbidden), Ok(Perm::Frozen), Ok(Perm::Disabled);
                Disabled false: Err(Refusal::ReadForbidden), Err(Refusal::WriteForbidden), Ok(Perm::Disabled), Ok(Perm::Disabled);
                Disabled true: Err(Refusal::ReadForbidden), Err(Refusal::WriteForbidden), Ok(Perm::Disabled), Ok(Perm::Disabled);
            },
        }
    }
}
