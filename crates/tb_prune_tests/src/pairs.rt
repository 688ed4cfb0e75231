ghost use Rattle.std.specs.Prelude.{◌≡◌, ◌≤◌, ◌<◌, []};
ghost use Rattle.tb_perm.specs.Rows.{HasTag};
ghost use Rattle.tb_stands.specs.Stands.{Stands};
ghost use Rattle.tb_prune_tests.specs.Alike.{AreAlike};

use std::alloc::Global;
use std::marker::Brand;
use std::process::Abort;
use std::sync::ledger::{Blank, Ledger};
use tb_perm::{BorrowTree, Kind, Span, Steps, Tag, TreeError};
use tb_plain::PlainTree;

/// One access on a tree of own tags and on a tree of all tags, of any two kinds. The answers are the same, and where
/// both succeed the own rows stand for all rows again.
fn access_both<T: BorrowTree, U: BorrowTree, L: Ledger>(
    own: &mut T,
    all: &mut U,
    tag: Tag,
    lo: u32,
    hi: u32,
    kind: Kind,
    steps: &mut Steps<L>,
) -> (Result<(), TreeError>, Result<(), TreeError>)
    requires stands { Stands (T.extent own.old) (T.rows own.old) (U.rows all.old) [] }
    requires extents { U.extent all.old ≡ T.extent own.old }
    requires tag { HasTag (T.rows own.old) tag.0 }
    requires range { lo ≤ hi }
    requires end { hi ≤ T.extent own.old }
    ensures { AreAlike result.0 result.1 (Stands (T.extent own.old) (T.rows own.new) (U.rows all.new) []) }
{
    let mine = own.access(tag, lo, hi, kind, steps);
    let theirs = all.access(tag, lo, hi, kind, steps);
    (mine, theirs)
}

/// A write to both bytes of two new trees.
fn written<L: Ledger>(blank: Blank, alloc: Global) -> Result<(), TreeError>
    requires name { blank.name ≡ L.name }
    requires parts { blank.parts ≡ L.parts }
    requires some { 0 < L.parts }
{
    let made = Span { lo: 3, hi: 5 };
    let mut steps: Steps<L> = Steps::new(blank);
    let Ok(mut own) = PlainTree::root(alloc, 2, Tag(1), made) else {
        return Err(TreeError::Memory);
    };
    let Ok(mut all) = PlainTree::root(alloc, 2, Tag(1), made) else {
        return Err(TreeError::Memory);
    };
    let (mine, theirs) = access_both(&mut own, &mut all, Tag(1), 0, 2, Kind::Write, &mut steps);
    mine?;
    theirs
}

#[test]
fn trees_answer_alike(rt: HostRuntime) {
    assert_eq!(rt; written::<Brand>(Blank::new(1), rt.alloc()), Ok(()));
}
