use tb_marks::{lowered, raised};
use tb_perm::{Kind, Mark, Rel, State, step};

/// What an access of each kind makes of a value.
pub trait ByKind<V> {
    ghost use Rattle.std.specs.Prelude.{◌≡◌};
    ghost use Rattle.tb_perm.specs.declared.perm.Kind.{Kind};

    /// The value afterwards, by the kind of the access and the value before.
    ghost by: { Self → Kind → V → V };

    /// The value afterwards.
    fn after(&self, kind: Kind, value: V) -> V
        ensures { result ≡ by self.now kind value };
}

/// An access moves the states of a tag, which is protected or not and meets it as local or foreign. A state that
/// refuses stays.
#[derive(Clone, Copy, Debug)]
pub struct Moves {
    pub protected: bool,
    pub rel: Rel,
}

impl ByKind<State> for Moves {
    ghost use Rattle.std.specs.Prelude.{Some};
    ghost use Rattle.tb_perm.specs.Event.{moved_state};

    ghost by = { λ moves kind state. moved_state (Some kind) moves.protected moves.rel state };

    fn after(&self, kind: Kind, value: State) -> State {
        match step(value, self.protected, self.rel, kind) {
            Ok(moved) => moved,
            Err(_) => value,
        }
    }
}

/// An access lowers the marks of the tags on its way.
#[derive(Clone, Copy, Debug)]
pub struct Lowers;

impl ByKind<Mark> for Lowers {
    ghost use Rattle.tb_marks.specs.Marks.{lowered};

    ghost by = { λ lowers kind mark. lowered kind mark };

    fn after(&self, kind: Kind, value: Mark) -> Mark {
        lowered(kind, value)
    }
}

/// An access raises the marks of the tags that it visits off its way.
#[derive(Clone, Copy, Debug)]
pub struct Raises;

impl ByKind<Mark> for Raises {
    ghost use Rattle.tb_marks.specs.Marks.{raised};

    ghost by = { λ raises kind mark. raised kind mark };

    fn after(&self, kind: Kind, value: Mark) -> Mark {
        raised(kind, value)
    }
}
