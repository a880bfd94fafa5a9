//! What holds of the console's text. Each function is a law: its contract says it, and its body does nothing but call the laws
//! that it rests on.

ghost use Rattle.stm_commands.specs.DueTickets.{OutTicketsAreASet};
ghost use Rattle.stm_run_laws.specs.Laws.{EachLineIsAnswered, QueueIsOfDueTickets, VerdictsAreShown};
ghost use Rattle.stm_run_laws.specs.ReadBack.{EventsFitLines, HistoriesAreReadBack, LiteralsAreInRange, StartsFitLines, VerdictsFitLines};
ghost use Rattle.stm_run_laws.specs.Unseen.{CheckpointsAreUnseenByCommands};

/// A line that is neither blank nor a comment is answered by a text that ends with a line feed, whatever lines came before
/// it. So `try` always has a verdict to print, `finish` an effect, and an out-of-memory error is the text of no refusal.
pub fn each_line_is_answered()
    ensures { EachLineIsAnswered }
{
    stm_parse::laws::answers_are_right();
    stm_check::laws::check_never_says_no_memory();
    stm_check::laws::verdict_fits();
    stm_eval::laws::verdict_is_stable();
    stm_history::laws::checked_are_well_typed();
}

/// Each waiting block that isn't new has a verdict, whatever lines came before: so none that `show` has to print is missing.
pub fn verdicts_are_shown()
    ensures { VerdictsAreShown }
{
    stm_parse::laws::answers_are_right();
    stm_check::laws::check_never_says_no_memory();
    stm_eval::laws::verdict_is_stable();
    stm_history::laws::checked_are_well_typed();
}

/// The queue of the desk is no more than a set of tickets that are out: whatever lines came before, it has the tickets of the new
/// and stale blocks in ascending order, each once, and each is out or queued as the set says. And each change of the queue
/// changes the set as a set: `take` puts its tickets into it, a delivery, `cancel` and `handback` take theirs out of it, `settle`
/// empties it, and no other change touches it.
pub fn queue_is_a_set_of_tickets()
    ensures queue { QueueIsOfDueTickets }
    ensures out { OutTicketsAreASet }
{
    stm_parse::laws::answers_are_right();
    stm_check::laws::check_never_says_no_memory();
    stm_eval::laws::verdict_is_stable();
    stm_history::laws::checked_are_well_typed();
}

/// No answer differs by a checkpoint, whatever lines came before it and after it: but for the commands that speak of the history, and
/// but for the room that it has for events.
pub fn no_answer_differs()
    ensures { CheckpointsAreUnseenByCommands }
{
    stm_parse::laws::answers_are_right();
    stm_check::laws::check_never_says_no_memory();
    stm_eval::laws::verdict_is_stable();
    stm_history::laws::checked_are_well_typed();
}

/// Each literal of a block is in the range of the language: a text with another one is refused.
pub fn literals_are_in_range()
    ensures { LiteralsAreInRange }
{
    stm_parse::laws::answers_are_right();
}

/// The values of the verdicts of the desk's events are in the range of the program's types, whatever lines came before.
pub fn verdicts_fit_lines()
    ensures { VerdictsFitLines }
{
    stm_parse::laws::answers_are_right();
    stm_check::laws::check_never_says_no_memory();
    stm_eval::laws::verdict_is_stable();
    stm_history::laws::checked_are_well_typed();
    stm_desk_laws::laws::histories_stay_in_range();
}

/// Each event of the desk can be in a line of a history, whatever lines came before.
pub fn events_fit_lines()
    ensures { EventsFitLines }
{
    stm_parse::laws::answers_are_right();
    stm_run::fitting_laws::events_are_of_console();
    stm_run::fitting_laws::numbers_are_small();
    verdicts_fit_lines();
}

/// What the history begins with can be in lines, whatever lines came before: the declared variables, or the last checkpoint.
pub fn starts_fit_lines()
    ensures { StartsFitLines }
{
    stm_parse::laws::answers_are_right();
    stm_check::laws::check_never_says_no_memory();
    stm_eval::laws::verdict_is_stable();
    stm_history::laws::checked_are_well_typed();
    stm_desk_laws::laws::verdicts_are_in_range();
    stm_desk_laws::laws::histories_stay_in_range();
}

/// What `history` prints is the text of the desk's history, and of no other, whatever lines came before, if no line of it is too long. So
/// `check` accepts it.
pub fn histories_are_read_back()
    ensures { HistoriesAreReadBack }
{
    stm_parse::laws::answers_are_right();
    stm_check::laws::check_never_says_no_memory();
    stm_eval::laws::verdict_is_stable();
    stm_history::laws::checked_are_well_typed();
    stm_history::laws::each_line_is_one_event();
    stm_history::laws::what_is_kept_is_taken();
    stm_history::laws::written_formats_fit();
    events_fit_lines();
    starts_fit_lines();
}
