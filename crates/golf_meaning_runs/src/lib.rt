//! The runs of a program and the meaning of its source: the sources of the functions mean all that the goroutines of a
//! run have shown.
//!
//! Each function here has one law as its contract.
#![tactic(auto)]

ghost use Rattle.golf_meaning_runs.specs.Agreement.{ProgramsAgree};
ghost use Rattle.golf_meaning_runs.specs.AnswerTypes.{AnswersAreCounted, AnswersAreTyped};
ghost use Rattle.golf_meaning_runs.specs.Books.{RunsAreBooked};
ghost use Rattle.golf_meaning_runs.specs.JoinedRuns.{RunsAreJoined};
ghost use Rattle.golf_meaning_runs.specs.Laws.{RunsMeanSources};
ghost use Rattle.golf_meaning_runs.specs.Life.{LivesMean};
ghost use Rattle.golf_meaning_runs.specs.Lives.{LivesMeanSource};
ghost use Rattle.golf_meaning_runs.specs.TurnLaws.{ChoosingTurns, InnerTurns, NeededDecide, VisibleTurns};
ghost use Rattle.golf_meaning_runs.specs.TurnsInLives.{TurnsAreLived};
ghost use Rattle.golf_meaning_source.specs.Operations.{Taking};
ghost use Rattle.golf_meaning_runs.specs.FileLaws.{FilesAreSound};
ghost use Rattle.golf_meaning_runs.specs.TypingLaws.{ConditionsDecide, ExpressionsAreSound, FunctionsAreSound};
ghost use Rattle.golf_meaning_runs.specs.TypingLaws.{NamesGive};
ghost use Rattle.golf_meaning_runs.specs.TypingLaws.{OperatorsFit, StatementsAreSound};
ghost use Rattle.golf_meaning_runs.specs.WholeFileLaws.{FilesSound};

/// States that each function of the code agrees with its source, for all answers. The file is well formed and breaks no
/// rule, and there are as many arguments as parameters.
///
/// These are function 0, the functions and methods, and those that are made for `go` and `defer`.
pub fn programs_agree()
    ensures { ProgramsAgree }
{}

/// States that each run of a well-formed file that breaks no rule does what its sources mean.
///
/// The frames of every goroutine match its calls. With the answers that a call got, the source of its function means
/// operations that begin with those that the call has shown. If the call waits or has ended, they are exactly these,
/// with the same end.
pub fn runs_mean_their_sources()
    ensures { RunsMeanSources }
{}

/// States that the calls of each run of such a file are joined.
///
/// The function and the arguments of a call are those that the call which began it has shown, with its call instruction,
/// its `go` or its `defer`. The answer that a caller got is what the call returned. Deferred calls run after the end of
/// their call, the latest first, each before the next. A call that a panic reaches leaves after the last of them, and
/// its caller gets no answer.
pub fn runs_are_joined()
    ensures { RunsAreJoined }
{}

/// States that with the answers that a call got, the source of its function means the operations
/// that the call has shown, with the same end. The source must not lack a rule.
pub fn lives_mean_the_source()
    ensures { LivesMeanSource }
{}

/// States that in each state of a run the frames of every goroutine match its calls.
///
/// Each frame is at the place that its call reaches with its shown operations and its answers. Each
/// call has arguments of the types of its function, even if its frame is gone.
pub fn runs_are_booked()
    ensures { RunsAreBooked }
{}

/// States that a slot that is not needed at a place does not affect the meaning of the code from there on.
pub fn needed_slots_decide()
    ensures { NeededDecide }
{}

/// States that the turn of an instruction that shows nothing is one step of the meaning.
pub fn inner_turns_mean()
    ensures { InnerTurns }
{}

/// States the outcome of the turn of a visible instruction without targets.
///
/// The turn takes the operands. Then the operation is answered at once, waits, calls, defers, panics or ends the
/// program. The turn changes no other frame of its goroutine.
pub fn visible_turns_show()
    ensures { VisibleTurns }
{}

/// States that the turn of a `select` takes the operands of all cases. It goes on at one of the targets, or waits for
/// one.
pub fn choosing_turns_show()
    ensures { ChoosingTurns }
{}

/// States that with the answers that a call got, its code means the operations that the call has shown.
pub fn lives_mean()
    ensures { LivesMean }
{}

/// States that a turn of the machine on the frame of a call is one step of the call's life.
pub fn turns_are_lived()
    ensures { TurnsAreLived }
{}

/// States that each answer of a call has the types that its operation leaves, if the function fits its types. They are
/// the types of the shape at the place where the call goes on.
pub fn answers_are_typed()
    ensures { AnswersAreTyped }
{}

/// States that an answer that fits its operation has as many values as the operation leaves.
pub fn answers_are_counted()
    ensures { AnswersAreCounted }
{}

/// States that an operator whose operands break no rule gives one value. If kinds are looked at in answers, the value
/// is of the operator's type.
pub fn operators_fit()
    ensures { (taking : Taking) → OperatorsFit taking }
{}

/// States that a name that is used as a value and breaks no rule gives one value of its type.
pub fn names_give()
    ensures { (taking : Taking) → NamesGive taking }
{}

/// States that a condition that breaks no rule gives one truth value.
pub fn conditions_decide()
    ensures { (taking : Taking) → ConditionsDecide taking }
{}

/// States that an expression that breaks no rule gives, in every world, what its judgment says.
///
/// That is a value of its type, the receiver of a method, or nothing. A place that it names is read and stored with
/// values of its type.
pub fn expressions_fit()
    ensures { (taking : Taking) → ExpressionsAreSound taking }
{}

/// States that a well-formed statement that breaks no rule lacks no rule, in every world.
///
/// The names must have values of their types before it, and they have them after it. `break` and `continue` come only
/// if the scope allows them.
pub fn statements_fit()
    ensures { (taking : Taking) → StatementsAreSound taking }
{}

/// States that the meaning of a function or method that breaks no rule lacks no rule, for all answers and all bounds.
/// The arguments must be of the types of receiver and parameters.
pub fn functions_fit()
    ensures { (taking : Taking) → FunctionsAreSound taking }
{}

/// States this for each function of a well-formed file that breaks no rule and whose names fit.
pub fn files_fit()
    ensures { FilesAreSound }
{}

/// States that the meaning of each function of a well-formed file that breaks no rule is sound.
///
/// The arguments must be of the types of receiver and parameters. For a function that is made their number is enough. For
/// all answers and all bounds no rule is lacking. If kinds are looked at in answers, the meaning is unfit only if an
/// answer does not fit its operation. If not, it is unfit only by the number of values of an answer, or by the kind of a
/// value where it is used.
pub fn meanings_sound()
    ensures { FilesSound }
{}
