ghost use Rattle.std.specs.Prelude.{◌≡◌, ◌↔◌, IsTrue};
ghost use Rattle.tb_perm.specs.Table.{step_of, after_local, after_foreign, IsIdle};
ghost use Rattle.tb_perm.specs.Marked.{leaves_alone};

use crate::perm::{Kind, Mark, Perm, Rel, State};
use crate::report::Refusal;

/// The permission table: what an access makes of a tag's state at one of its bytes, or why the tag
/// refuses it. `protected` says that the tag is guarded, weakly or strongly.
///
/// | permission | local read | local write | foreign read | foreign write |
/// |---|---|---|---|---|
/// | Cell | stays | stays | stays | stays |
/// | Reserved | stays | Active | stays; protected: Conflicted | Disabled |
/// | Conflicted | stays | Active; protected: write forbidden | stays | Disabled |
/// | ReservedIm | stays | Active | stays | stays |
/// | Active | stays | stays | Frozen; protected: Disabled | Disabled |
/// | Frozen | stays | write forbidden | stays | Disabled |
/// | Disabled | read forbidden | write forbidden | stays | stays |
///
/// A local access leaves the byte accessed. A foreign one that would take an accessed byte from a
/// protected tag, which becomes Disabled there, is refused.
pub fn step(s: State, protected: bool, rel: Rel, kind: Kind) -> Result<State, Refusal>
    ensures { result ≡ step_of s protected rel kind }
{
    match rel {
        Rel::Local => step_local(s, protected, kind),
        Rel::Foreign => step_foreign(s, protected, kind),
    }
}

/// Which foreign accesses leave this state as it is and are not refused: reads and writes, reads
/// alone, or none.
pub fn strength(s: State, protected: bool) -> Mark
    ensures read { IsTrue (leaves_alone result Kind.Read) ↔ IsIdle s protected Kind.Read }
    ensures write { IsTrue (leaves_alone result Kind.Write) ↔ IsIdle s protected Kind.Write }
{
    match s.perm {
        Perm::Cell | Perm::ReservedIm | Perm::Disabled => Mark::Write,
        Perm::Conflicted | Perm::Frozen => Mark::Read,
        Perm::Reserved => { if protected { Mark::Nothing } else { Mark::Read } }
        Perm::Active => Mark::Nothing,
    }
}

fn step_local(s: State, protected: bool, kind: Kind) -> Result<State, Refusal>
    ensures { result ≡ step_of s protected Rel.Local kind }
{
    match local(s.perm, protected, kind) {
        Ok(perm) => Ok(State {
            perm,
            accessed: true,
        }),
        Err(refusal) => Err(refusal),
    }
}

fn step_foreign(s: State, protected: bool, kind: Kind) -> Result<State, Refusal>
    ensures { result ≡ step_of s protected Rel.Foreign kind }
{
    let perm = foreign(s.perm, protected, kind);
    if protected && s.accessed && perm == Perm::Disabled && s.perm != Perm::Disabled {
        return Err(Refusal::Protected);
    }
    Ok(State {
        perm,
        accessed: s.accessed,
    })
}

// A `match` on a permission, whether it is protected, and the kind of the access.
macro_rules! arms {
    ($at:expr; $($perm:ident $protected:pat, $kind:pat => $moved:expr;)*) => {
        match $at {
            $((Perm::$perm, $protected, $kind) => $moved,)*
        }
    };
}

/// The permission after a local access.
fn local(perm: Perm, protected: bool, kind: Kind) -> Result<Perm, Refusal>
    ensures { result ≡ after_local perm protected kind }
{
    arms! {
        (perm, protected, kind);
        Cell _, _ => Ok(Perm::Cell);
        Reserved _, Kind::Read => Ok(Perm::Reserved);
        Reserved _, Kind::Write => Ok(Perm::Active);
        Conflicted _, Kind::Read => Ok(Perm::Conflicted);
        Conflicted false, Kind::Write => Ok(Perm::Active);
        Conflicted true, Kind::Write => Err(Refusal::WriteForbidden);
        ReservedIm _, Kind::Read => Ok(Perm::ReservedIm);
        ReservedIm _, Kind::Write => Ok(Perm::Active);
        Active _, _ => Ok(Perm::Active);
        Frozen _, Kind::Read => Ok(Perm::Frozen);
        Frozen _, Kind::Write => Err(Refusal::WriteForbidden);
        Disabled _, Kind::Read => Err(Refusal::ReadForbidden);
        Disabled _, Kind::Write => Err(Refusal::WriteForbidden);
    }
}

/// The permission after a foreign access.
fn foreign(perm: Perm, protected: bool, kind: Kind) -> Perm
    ensures { result ≡ after_foreign perm protected kind }
{
    arms! {
        (perm, protected, kind);
        Cell _, _ => Perm::Cell;
        Reserved false, Kind::Read => Perm::Reserved;
        Reserved true, Kind::Read => Perm::Conflicted;
        Reserved _, Kind::Write => Perm::Disabled;
        Conflicted _, Kind::Read => Perm::Conflicted;
        Conflicted _, Kind::Write => Perm::Disabled;
        ReservedIm _, _ => Perm::ReservedIm;
        Active false, Kind::Read => Perm::Frozen;
        Active true, Kind::Read => Perm::Disabled;
        Active _, Kind::Write => Perm::Disabled;
        Frozen _, Kind::Read => Perm::Frozen;
        Frozen _, Kind::Write => Perm::Disabled;
        Disabled _, _ => Perm::Disabled;
    }
}
