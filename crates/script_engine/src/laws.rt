//! Laws of runs, each the contract of a function that does nothing.
ghost use Rattle.std.specs.Prelude.{◌≡◌, ℕ, ◌+◌, ◌++◌, List, Bool, true, false, not, ◌&&◌, length};
ghost use Rattle.std.specs.List.{list_all};
ghost use Rattle.script_engine.specs.Answers.{Answer, Run, IsDetermined, all_accepted, all_ample, played};

use crate::interpreter::Interpreter;

/// Where a run goes on after some lines, these lines are a run to some state, and the others one from it.
pub fn cut_between<I: Interpreter>()
    ensures { (strict : Bool) (old new : I) (number : ℕ) (lines more : List (List ℕ)) (replies others : List Answer)
        → length lines ≡ length replies → (strict && not (all_accepted replies)) ≡ false
        → Run I.answers strict old number (lines ++ more) (replies ++ others) new
        → (mid : I) × Run I.answers strict old number lines replies mid
        × Run I.answers strict mid (length lines + number) more others new }
{}

/// If memory suffices, the answers to a script of sure lines are a function of its bytes and of `strict`, where the
/// answer to such a line is a function of the state, the line's number and the line.
pub fn determined<I: Interpreter>()
    ensures { (sure : List ℕ → Bool) (play : I → ℕ → List ℕ → Answer × I) (strict : Bool) (old new : I)
        (number : ℕ) (lines : List (List ℕ)) (replies : List Answer)
        → IsDetermined sure I.answers play → list_all sure lines ≡ true
        → Run I.answers strict old number lines replies new → all_ample replies ≡ true
        → (replies ≡ (played play strict old number lines).0) × (new ≡ (played play strict old number lines).1) }
{}
