//! That what is read stands there, and that what stands there is read.

ghost use Rattle.std.specs.Prelude.{◌≡◌, ℕ, Bool, true, Option, Some};
ghost use Rattle.tb_syntax.specs.State.{State};
ghost use Rattle.tb_forms.specs.declared.place.Where.{Where};
ghost use Rattle.tb_forms.specs.declared.front.Front.{Front};
ghost use Rattle.tb_forms.specs.declared.step.Step.{Step};
ghost use Rattle.tb_forms.specs.Beginnings.{begins_expr};
ghost use Rattle.tb_forms.specs.Levels.{level_at, loosest_left};
ghost use Rattle.tb_forms.specs.Fronts.{front_at, IsFrontAt};
ghost use Rattle.tb_forms.specs.Steps.{step_at, step_level, operand_level, IsStepAt};

/// What operands begin with.
pub fn law_fronts()
    ensures sound { (depth : ℕ) (place : Where) (state : State) (front : Front) (rest : State) → front_at depth place state ≡ Some (front, rest) → IsFrontAt depth place state front rest }
    ensures complete { (depth : ℕ) (place : Where) (state : State) (front : Front) (rest : State) → IsFrontAt depth place state front rest → front_at depth place state ≡ Some (front, rest) }
    ensures begins { (depth : ℕ) (place : Where) (state : State) (front : Front) (rest : State) → IsFrontAt depth place state front rest → begins_expr state ≡ true }
{}

/// How expressions go on.
pub fn law_steps()
    ensures sound { (depth : ℕ) (state : State) (step : Step) (rest : State) → step_at depth state ≡ Some (step, rest) → IsStepAt depth state step rest }
    ensures complete { (depth : ℕ) (state : State) (step : Step) (rest : State) → IsStepAt depth state step rest → step_at depth state ≡ Some (step, rest) }
    ensures levels { (depth : ℕ) (state : State) (step : Step) (rest : State) → IsStepAt depth state step rest → level_at state ≡ Some (step_level step) }
    ensures operands { (step : Step) → operand_level step ≡ loosest_left (step_level step) }
{}
