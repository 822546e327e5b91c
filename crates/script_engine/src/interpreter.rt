//! How the lines of a script are answered.
ghost use Rattle.std.specs.Prelude.{ℕ, List};
ghost use Rattle.script_engine.specs.Answers.{Answer};

/// A state that the lines of a script change, each with its answer.
pub trait Interpreter {
    // From a state a line with this number may be answered so, which leads to another state.
    ghost answers: { Self → ℕ → List ℕ → Answer → Self → Type 0 };
}
