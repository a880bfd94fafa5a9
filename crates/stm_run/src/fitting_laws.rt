//! What holds of the events of a console's desk, so that they can be in lines of a history: each function's contract is a law.

ghost use Rattle.stm_run.specs.Fitting.{EventsAreOfConsole, NumbersAreSmall, VariablesFitLines, VariablesStayFit, WaitingStayOfText};
ghost use Rattle.stm_run.specs.Growing.{ConsolesGrow};

/// Each event of the desk since its last checkpoint is of client 0, each block that was submitted is what its text checks to over the
/// names that were known then, and each that waits at the checkpoint what its text checks to over the checkpoint's, whatever lines came
/// before; and each variable that was declared late is the one of a text. So when a history is read again, its blocks are the same.
pub fn events_are_of_console()
    ensures { EventsAreOfConsole }
{}

/// The declared variables can be in lines of a history, in their order, whatever lines came before.
pub fn variables_fit_lines()
    ensures { VariablesFitLines }
{
    stm_parse::laws::answers_are_right();
}

/// Declared variables that can be in lines of a history stay so, whatever lines come and whatever they declare.
pub fn variables_stay_fit()
    ensures { VariablesStayFit }
{
    stm_parse::laws::answers_are_right();
}

/// A console only adds events, each of client 0 and of its text, and a desk that is open stays open on its table,
/// whatever line comes; except that a line may make a checkpoint.
pub fn consoles_grow()
    ensures { ConsolesGrow }
{}

/// Waiting blocks stay what their texts check to, whatever line comes, and a checkpoint has those that wait.
pub fn waiting_stay_of_text()
    ensures { WaitingStayOfText }
{}

/// The tickets of the events since the last checkpoint, the numbers of their first new variables, the tickets that they make stale and the
/// number that the first value of a late declaration refers to have at most 32 bits, and its type has at most 8 `TVar`, whatever lines
/// came before.
pub fn numbers_are_small()
    ensures { NumbersAreSmall }
{
    stm_parse::laws::answers_are_right();
    stm_check::laws::check_never_says_no_memory();
    stm_eval::laws::verdict_is_stable();
    stm_history::laws::checked_are_well_typed();
}
