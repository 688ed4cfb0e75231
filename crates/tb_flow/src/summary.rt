//! A summary of all ways through a piece of code.

ghost use Rattle.std.specs.Prelude.{◌≡◌, true, None};
ghost use Rattle.tb_flow.specs.declared.mark.Mark.TheVariants.{Kept};
ghost use Rattle.tb_flow.specs.Summaries.{marked, used, part_moved, breaking, continuing, stopping, is_before, earlier, where_true, either_of, after, then_of, at_head, in_body, loop_of};

use crate::mark::{Mark, Marks};
use tb_perm::Span;

/// For one question about one variable: the marks of the ways that leave a piece of code by its end, by a
/// `break` and by a `continue`, and where it is used first.
#[derive(Clone, Copy, Debug, PartialEq, Eq)]
pub struct Summary {
    pub next: Marks,
    pub broke: Marks,
    pub continued: Marks,
    /// The first use to which some way leads that keeps the answer.
    pub kept_use: Option<Span>,
    /// The first use to which some way leads that makes the answer yes.
    pub yes_use: Option<Span>,
    /// The first part, of whatever variable, out of which a value is moved.
    pub part: Option<Span>,
}

impl Summary {
    /// Of an event that does this to the answer, or of nothing, which keeps it.
    pub fn marked(mark: Mark) -> Summary
        ensures { result ≡ marked mark }
    {
        Summary {
            next: Marks::only(mark),
            ..Summary::stopping()
        }
    }

    /// Of a use of the variable.
    pub fn used(span: Span) -> Summary
        ensures { result ≡ used span }
    {
        Summary {
            kept_use: Some(span),
            ..Summary::marked(Mark::Kept)
        }
    }

    /// Of a move out of a part.
    pub fn part_moved(span: Span) -> Summary
        ensures { result ≡ part_moved span }
    {
        Summary {
            part: Some(span),
            ..Summary::marked(Mark::Kept)
        }
    }

    /// Of a `break`.
    pub fn breaking() -> Summary
        ensures { result ≡ breaking }
    {
        Summary {
            broke: Marks::only(Mark::Kept),
            ..Summary::stopping()
        }
    }

    /// Of a `continue`.
    pub fn continuing() -> Summary
        ensures { result ≡ continuing }
    {
        Summary {
            continued: Marks::only(Mark::Kept),
            ..Summary::stopping()
        }
    }

    /// Of what goes no further, as `return`.
    pub fn stopping() -> Summary
        ensures { result ≡ stopping }
    {
        Summary {
            next: Marks::none(),
            broke: Marks::none(),
            continued: Marks::none(),
            kept_use: None,
            yes_use: None,
            part: None,
        }
    }

    /// Of two pieces of which one is gone through.
    #[tactic(auto, unfolding(crate::specs::Summaries::either_of))]
    pub fn either(self, other: Summary) -> Summary
        ensures { result ≡ either_of self other }
    {
        Summary {
            next: self.next.joined(other.next),
            broke: self.broke.joined(other.broke),
            continued: self.continued.joined(other.continued),
            kept_use: earlier(self.kept_use, other.kept_use),
            yes_use: earlier(self.yes_use, other.yes_use),
            part: earlier(self.part, other.part),
        }
    }

    /// Of this piece where ways with these marks lead to it.
    pub fn after(self, marks: Marks) -> Summary
        ensures { result ≡ after marks self }
    {
        Summary {
            next: marks.followed(self.next),
            broke: marks.followed(self.broke),
            continued: marks.followed(self.continued),
            kept_use: where_true(marks.kept, self.kept_use),
            yes_use: earlier(
                where_true(marks.some_way(), self.yes_use),
                where_true(marks.yes, self.kept_use),
            ),
            part: self.part,
        }
    }

    /// Of this piece and then another.
    #[tactic(auto, using(crate::proofs::Idle::then_idle, crate::proofs::Idle::idle_then), unfolding(crate::specs::Summaries::then_of))]
    pub fn then(self, later: Summary) -> Summary
        ensures { result ≡ then_of self later }
    {
        if later.is_idle() {
            return self;
        }
        if self.is_idle() {
            return later;
        }
        let first = Summary {
            next: Marks::none(),
            ..self
        };
        first.either(later.after(self.next))
    }

    /// Whether it is that of a piece in which nothing happens.
    fn is_idle(self) -> bool
        ensures { result ≡ true → self ≡ marked Kept }
    {
        self == Summary::marked(Mark::Kept)
    }

    /// Of a loop: before each turn its head is gone through, where it may end if it `leaves`, and then
    /// its body. A `break` or `continue` in the body is the loop's own, one in the head is not.
    #[tactic(auto, unfolding(crate::specs::Summaries::loop_of))]
    pub fn looped(head: Summary, leaves: bool, body: Summary) -> Summary
        ensures { result ≡ loop_of head leaves body }
    {
        let head = Summary::at_head(head, body);
        let body = body.after(head.next);
        let ended = if leaves { head.next } else { Marks::none() };
        let first = Summary {
            next: ended,
            ..head
        };
        let second = Summary {
            next: body.broke,
            broke: Marks::none(),
            continued: Marks::none(),
            ..body
        };
        first.either(second)
    }

    /// Of the head of a loop, after any number of turns. The last event about a variable is that of the
    /// last turn that has one, so the marks of one turn and of none are those of any number of turns.
    fn at_head(head: Summary, body: Summary) -> Summary
        ensures { result ≡ at_head head body }
    {
        let turn = head.next.followed(body.next.joined(body.continued));
        head.after(Marks::only(Mark::Kept).joined(turn))
    }
}

/// The one that begins earlier.
fn earlier(one: Option<Span>, other: Option<Span>) -> Option<Span>
    ensures { result ≡ earlier one other }
{
    match (one, other) {
        (Some(first), Some(second)) => if is_before(second, first) { other } else { one },
        (Some(_), None) => one,
        (None, _) => other,
    }
}

/// Whether the first begins earlier, or begins with the second and ends earlier.
fn is_before(a: Span, b: Span) -> bool
    ensures { result ≡ is_before a b }
{
    a.lo < b.lo || (a.lo == b.lo && a.hi < b.hi)
}

/// The span where this holds, and none where not.
fn where_true(holds: bool, span: Option<Span>) -> Option<Span>
    ensures { result ≡ where_true holds span }
{
    if holds { span } else { None }
}
