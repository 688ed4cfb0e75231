//! What summaries say of ways.

ghost use Rattle.std.specs.Prelude.{ℕ, Bool};
ghost use Rattle.tb_flow.specs.declared.mark.Question.{Question};
ghost use Rattle.tb_flow.specs.Flows.{Flow, End, At, HasPart};
ghost use Rattle.tb_flow.specs.Questions.{IsYesAt};
ghost use Rattle.tb_flow.specs.Summaries.{summary_of, yes_in};
ghost use Rattle.tb_flow.specs.Equations.{Answers, Sets, Meets, IsPossible, Leads};
ghost use Rattle.tb_flow.specs.Laws.{IsFirst};

/// The summary of a piece has the first use to which some way leads with the answer yes, and the first move
/// out of a part.
pub fn law_summaries()
    ensures yes { (question : Question) (v : ℕ) (now : Bool) (flow : Flow) → IsFirst (λ span. IsYesAt question v now flow (At v span)) (yes_in question v now flow) }
    ensures part { (question : Question) (v : ℕ) (flow : Flow) → IsFirst (HasPart flow) (summary_of question v flow).part }
{}

/// The sets of answers that meet the equations: all have the answers of all ways, and some have no others. So
/// what is possible on some way is the least solution, and its complement, what holds on every way, the
/// greatest.
pub fn law_sets()
    ensures ways { (question : Question) (v : ℕ) (flow : Flow) (a : Answers) (sets : Sets) → Meets question v flow a sets → (end : End) (answer : Bool) → Leads question v flow a end answer → IsPossible sets end answer }
    ensures least { (question : Question) (v : ℕ) (flow : Flow) (a : Answers) → (sets : Sets) × Meets question v flow a sets × ((end : End) (answer : Bool) → IsPossible sets end answer → Leads question v flow a end answer) }
{}
