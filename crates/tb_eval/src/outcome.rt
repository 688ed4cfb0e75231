use tb_heap::Stop;
use tb_perm::Span;

/// Why a run panics.
#[derive(Clone, Copy, Debug, PartialEq, Eq)]
pub enum Panic {
    /// An operator's result does not fit its type.
    Overflow,
}

/// How a run ends. The span is that of the line that ends it.
#[derive(Clone, Copy, Debug, PartialEq, Eq)]
pub enum Outcome {
    Finished,
    /// Undefined behaviour. Want of memory never stands here.
    Undefined(Stop, Span),
    Panic(Panic, Span),
    /// The bound on steps was met.
    StepLimit,
    /// A write to the output failed.
    WriteFault,
    /// Out of memory.
    Memory,
}

/// Why a right side has no value.
#[derive(Clone, Copy, Debug, PartialEq, Eq)]
pub enum EvalError {
    Stop(Stop),
    Panic(Panic),
}

impl From<Stop> for EvalError {
    ghost use Rattle.std.specs.Prelude.{◌≡◌};
    ghost use Rattle.tb_eval.specs.declared.outcome.EvalError.TheVariants as error;

    ghost from_gives = { λ stop e. e ≡ error.Stop stop };

    fn from(stop: Stop) -> EvalError {
        EvalError::Stop(stop)
    }
}
