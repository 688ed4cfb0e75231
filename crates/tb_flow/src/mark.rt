//! What the events of a way do to the answer of a question about a variable.

ghost use Rattle.std.specs.Prelude.{◌≡◌};
ghost use Rattle.tb_flow.specs.Summaries.{only, no_marks, some_way, joined, followed};

/// What is asked about a variable at a place.
#[derive(Clone, Copy, Debug, PartialEq, Eq)]
pub enum Question {
    /// Has it no value?
    NoValue,
    /// Is its last event a move?
    AfterMove,
}

/// What a way does to the answer.
#[derive(Clone, Copy, Debug, PartialEq, Eq)]
pub enum Mark {
    /// The answer is what it was before.
    Kept,
    Yes,
    No,
}

/// Which marks some way has.
#[derive(Clone, Copy, Debug, PartialEq, Eq)]
pub struct Marks {
    pub kept: bool,
    pub yes: bool,
    pub no: bool,
}

impl Marks {
    /// Those of no way.
    pub fn none() -> Marks
        ensures { result ≡ no_marks }
    {
        Marks {
            kept: false,
            yes: false,
            no: false,
        }
    }

    /// This one alone.
    pub fn only(mark: Mark) -> Marks
        ensures { result ≡ only mark }
    {
        match mark {
            Mark::Kept => Marks {
                kept: true,
                ..Marks::none()
            },
            Mark::Yes => Marks {
                yes: true,
                ..Marks::none()
            },
            Mark::No => Marks {
                no: true,
                ..Marks::none()
            },
        }
    }

    /// Whether there is a way.
    pub fn some_way(self) -> bool
        ensures { result ≡ some_way self }
    {
        self.kept || self.yes || self.no
    }

    /// Those of either.
    pub fn joined(self, other: Marks) -> Marks
        ensures { result ≡ joined self other }
    {
        Marks {
            kept: self.kept || other.kept,
            yes: self.yes || other.yes,
            no: self.no || other.no,
        }
    }

    /// Those of a way of the first and then a way of the second.
    pub fn followed(self, later: Marks) -> Marks
        ensures { result ≡ followed self later }
    {
        let some = self.some_way();
        Marks {
            kept: self.kept && later.kept,
            yes: (some && later.yes) || (self.yes && later.kept),
            no: (some && later.no) || (self.no && later.kept),
        }
    }
}
