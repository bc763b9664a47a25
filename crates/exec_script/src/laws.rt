//! Laws of scripts. Each holds for all scripts, from every state, and for effects that go anywhere: `S` is what they are put
//! into, and `give` puts one there.

ghost use Rattle.std.specs.Prelude.{◌≡◌, ◌≢◌, ℕ, ◌+◌, ◌<◌, ◌≤◌, ℤ, pos, List, [], length, true, Option, None, Some, Ok, IfSome};
ghost use Rattle.std.specs.List.{All, Any};
ghost use Rattle.exec_msg.specs.Goal.{decision_number, cancel_decision_number};
ghost use Rattle.exec_msg.specs.declared.goal.CancelDecision.{CancelDecision};
ghost use Rattle.exec_msg.specs.declared.goal.Decision.{Decision};
ghost use Rattle.exec_script.specs.LawWords.{goes_on_at, ended_by, IsEnding, MayGive, state_with_variables, give_each, given_later};
ghost use Rattle.exec_script.specs.Legality.{legality_of};
ghost use Rattle.exec_script.specs.Script.{CallInput, call_of, called, goal_decided, cancel_decided, listed, resumed};
ghost use Rattle.exec_script.specs.declared.effects.Effect.{Effect};
ghost use Rattle.exec_script.specs.declared.instr.Instr.{Instr};
ghost use Rattle.exec_script.specs.declared.place.Place.{Place};
ghost use Rattle.exec_script.specs.declared.place.Role.TheVariants as role;
ghost use Rattle.exec_script.specs.declared.step.Stop.TheVariants as stop;

/// A handler that decides the number of a decision makes that decision.
pub fn decisions_are_made_by_their_numbers()
    ensures goal { (made : Decision) → goal_decided (Some (pos (decision_number made))) ≡ made }
    ensures cancel { (made : CancelDecision) → cancel_decided (Some (pos (cancel_decision_number made))) ≡ made }
{}

/// A script that waits or yields goes on after the place that it was resumed at, and at its end at the latest.
pub fn goes_on_within_its_end<S>()
    ensures behind { (give : Effect → S → S) (script : List Instr) (place : ℕ)
        (registers variables : List ℤ) (answer : Option ℤ) (input : CallInput) (given : S) →
        IfSome (goes_on_at (resumed give script place registers variables answer input given).stop) (λ next. place < next) }
    ensures within { (give : Effect → S → S) (script : List Instr) (place : ℕ)
        (registers variables : List ℤ) (answer : Option ℤ) (input : CallInput) (given : S) →
        IfSome (goes_on_at (resumed give script place registers variables answer input given).stop) (λ next. next ≤ length script) }
{}

/// A script changes what registers hold, and not how many there are.
pub fn registers_stay_as_many<S>()
    ensures { (give : Effect → S → S) (script : List Instr) (place : ℕ) (registers variables : List ℤ) (answer : Option ℤ) (input : CallInput) (given : S) →
        length (resumed give script place registers variables answer input given).registers ≡ length registers }
{}

/// A script that `check` accepts for another role than a goal's own work stops only at its end.
pub fn only_goals_stop<S>()
    ensures { (give : Effect → S → S) (script : List Instr) (allowed : Place) (place : ℕ)
        (registers variables : List ℤ) (answer : Option ℤ) (input : CallInput) (given : S) →
        allowed.role ≢ role.Goal → legality_of script allowed ≡ Ok tt →
        (resumed give script place registers variables answer input given).stop ≡ stop.End }
{}

/// A script that `check` accepts in a reentrant group doesn't change the variables that it was given. What it does depends on
/// no variable.
pub fn reentrant_scripts_share_nothing<S>()
    ensures leaves { (give : Effect → S → S) (script : List Instr) (allowed : Place) (place : ℕ)
        (registers variables : List ℤ) (answer : Option ℤ) (input : CallInput) (given : S) →
        allowed.reentrant ≡ true → legality_of script allowed ≡ Ok tt →
        (resumed give script place registers variables answer input given).variables ≡ variables }
    ensures alike { (give : Effect → S → S) (script : List Instr) (allowed : Place) (place : ℕ)
        (registers variables others : List ℤ) (answer : Option ℤ) (input : CallInput) (given : S) →
        allowed.reentrant ≡ true → legality_of script allowed ≡ Ok tt →
        resumed give script place registers variables answer input given
        ≡ state_with_variables variables (resumed give script place registers others answer input given) }
{}

/// A script that `check` accepts gives no answer if it is for a callback that answers nothing, or for a goal's own work.
pub fn callbacks_and_goals_give_no_answer<S>()
    ensures callback { (give : Effect → S → S) (script : List Instr) (allowed : Place) (place : ℕ)
        (registers variables : List ℤ) (input : CallInput) (given : S) →
        allowed.role ≡ role.Callback → legality_of script allowed ≡ Ok tt →
        (resumed give script place registers variables None input given).reply_or_decision ≡ None }
    ensures goal { (give : Effect → S → S) (script : List Instr) (allowed : Place) (place : ℕ) (registers variables : List ℤ) (input : CallInput) (given : S) →
        allowed.role ≡ role.Goal → legality_of script allowed ≡ Ok tt →
        (resumed give script place registers variables None input given).reply_or_decision ≡ None }
{}

/// Effects that are listed may be given later, one after another. They do the same as effects that are given at once.
pub fn effects_may_be_given_later<S>()
    ensures call { (give : Effect → S → S) (script : List Instr) (variables : List ℤ) (input : CallInput) (given : S) →
        called give script variables input given ≡ given_later give given (call_of script variables input) }
    ensures anywhere { (give : Effect → S → S) (script : List Instr) (place : ℕ)
        (registers variables : List ℤ) (answer : Option ℤ) (input : CallInput) (effects : List Effect) (given : S) →
        resumed give script place registers variables answer input (give_each give effects given)
        ≡ given_later give given (resumed listed script place registers variables answer input effects) }
{}

/// A goal ends only by one of the three events that end goals.
pub fn goals_end_by_an_ending<S>()
    ensures { (give : Effect → S → S) (script : List Instr) (place : ℕ) (registers variables : List ℤ) (answer : Option ℤ) (input : CallInput) (given : S) →
        IfSome (ended_by (resumed give script place registers variables answer input given).stop) IsEnding }
{}

/// A script gives at most as many effects as it has instructions.
pub fn effects_are_at_most_the_instructions()
    ensures { (script : List Instr) (place : ℕ) (registers variables : List ℤ) (answer : Option ℤ) (input : CallInput) (effects : List Effect) →
        length (resumed listed script place registers variables answer input effects).given ≤ length effects + length script }
{}

/// Each effect of a script is one that one of its instructions gives from some registers and variables.
pub fn effects_come_of_instructions()
    ensures { (script : List Instr) (place : ℕ) (registers variables : List ℤ) (answer : Option ℤ) (input : CallInput) →
        All (λ effect. Any (MayGive input effect) script) (resumed listed script place registers variables answer input []).given }
{}
