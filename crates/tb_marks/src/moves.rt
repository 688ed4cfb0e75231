ghost use Rattle.std.specs.Prelude.{◌≡◌, ◌≤◌, ◌<◌, true, IsTrue};
ghost use Rattle.tb_perm.specs.Marked.{level, leaves_alone};
ghost use Rattle.tb_marks.specs.Marks.{lowered, raised};

use tb_perm::{Kind, Mark};

/// What is left of the mark of a tag through which an access of the kind goes, whether it is the tag that is
/// accessed or one above it: all for a read, and nothing for a write.
pub fn lowered(kind: Kind, mark: Mark) -> Mark
    ensures value { result ≡ lowered kind mark }
    ensures never_more { level result ≤ level mark }
{
    match kind {
        Kind::Read => mark,
        Kind::Write => Mark::Nothing,
    }
}

/// The mark of a tag once a foreign access of the kind has met it and all tags below it, and none has refused: it
/// leaves such accesses alone from now on, and all that it left alone before.
pub fn raised(kind: Kind, mark: Mark) -> Mark
    ensures value { result ≡ raised kind mark }
    ensures leaves { leaves_alone result kind ≡ true }
    ensures never_less { level mark ≤ level result }
{
    match kind {
        Kind::Read => mark.greater(Mark::Read),
        Kind::Write => Mark::Write,
    }
}
