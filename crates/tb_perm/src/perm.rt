/// What a tag may still do at a byte (Tree Borrows, section 3).
#[derive(Clone, Copy, Debug, PartialEq, Eq)]
pub enum Perm {
    /// A byte of a `Cell` or `UnsafeCell` behind a shared reference: everything is allowed.
    Cell,
    /// A mutable reference that was not written through yet.
    Reserved,
    /// A protected mutable reference, not written through yet, whose byte was read by others.
    Conflicted,
    /// A mutable reference with interior mutability that was not written through yet.
    ReservedIm,
    /// A mutable reference that was written through.
    Active,
    /// Reads only.
    Frozen,
    /// Nothing.
    Disabled,
}

/// The state of a tag at a byte: its permission, and whether the tag or a tag below it has accessed
/// the byte, or was made by an access there.
#[derive(Clone, Copy, Debug, PartialEq, Eq)]
pub struct State {
    pub perm: Perm,
    pub accessed: bool,
}

/// What an access does with its bytes.
#[derive(Clone, Copy, Debug, PartialEq, Eq)]
pub enum Kind {
    Read,
    Write,
}

/// How a tag meets an access: an access is local for the tag that it goes through and for the
/// ancestors of that tag, and foreign for every other tag.
#[derive(Clone, Copy, Debug, PartialEq, Eq)]
pub enum Rel {
    Local,
    Foreign,
}

/// How a tag is protected while the call that made it runs. Strong and weak guards differ at a
/// deallocation only, which a strong one may refuse.
#[derive(Clone, Copy, Debug, PartialEq, Eq)]
pub enum Guard {
    Free,
    Weak,
    Strong,
}

/// Which foreign accesses leave a state, or the states of all tags of a subtree, as they are: none,
/// reads, or reads and writes. A mark is greater where it promises more.
#[derive(Clone, Copy, Debug, PartialEq, Eq, PartialOrd, Ord)]
pub enum Mark {
    Nothing,
    Read,
    Write,
}

impl Mark {
    ghost use Rattle.std.specs.Prelude.{◌≡◌, min, max};
    ghost use Rattle.tb_perm.specs.Marked.{level, leaves_alone};

    /// The one of two marks that promises less.
    pub fn lesser(self, other: Mark) -> Mark
        ensures { level result ≡ min (level self) (level other) }
    {
        if self <= other { self } else { other }
    }

    /// The one of two marks that promises more.
    pub fn greater(self, other: Mark) -> Mark
        ensures { level result ≡ max (level self) (level other) }
    {
        if self <= other { other } else { self }
    }

    /// Whether foreign accesses of this kind leave alone what has the mark.
    pub fn leaves_alone(self, kind: Kind) -> bool
        ensures { result ≡ leaves_alone self kind }
    {
        match self {
            Mark::Nothing => false,
            Mark::Read => kind == Kind::Read,
            Mark::Write => true,
        }
    }
}
