//! What holds of the exit statuses, and the laws of `stm_command_line`: what holds of the words.

ghost use Rattle.stm_console.specs.StatusLaws.{WordsAskForThis, StatusesAreFew, RefusedDoNothing, RequestsAreTaken, OnlyJudgesFindWrong, WrongFilesDoNothing, DoneRunsAnswer, DoneFilesAnswer, DoneStormsReport, DoneExplorationsAreRight, DoneVersionsAreWritten, OtherRunsWriteAPart, OtherFilesWriteAPart, OtherChecksWriteAPart, OtherVersionsWriteAPart, InvalidStormsWriteNothing, InvalidExplorationsWriteNothing};

pub use stm_command_line::laws::{
    numbers_in_range_are_taken, options_come_once_after_run, versions_are_asked_for,
    words_of_a_check_are_accepted, words_of_a_run_are_accepted,
    words_of_a_storm_are_those_of_a_run,
};

/// What the program is asked for, by what clap prints of its words: their request if that is nothing, else help, the version, or that they
/// are wrong; or, of the word `help` and what follows it, one of several things.
pub fn words_ask_for_this()
    ensures { WordsAskForThis }
{}

/// The exit statuses are 0 to 4. After 2 nothing was read and nothing written, and words that clap takes never end with it; 3 comes
/// only from a check, a storm, an exploration, or a run on a file that has no history to go on from.
pub fn exit_statuses()
    ensures few { StatusesAreFew }
    ensures wrong_words { RefusedDoNothing }
    ensures taken { RequestsAreTaken }
    ensures judged { OnlyJudgesFindWrong }
    ensures wrong_file { WrongFilesDoNothing }
{}

/// What was written, if the exit status is 0, and if it isn't. Of an invalid script nothing was written, and the status is 1 or 4. Of
/// `check` this says only what was written if the status isn't 0, and of help and `check --why` nothing: see `ProgramDoes`.
pub fn output_by_status()
    ensures run { DoneRunsAnswer }
    ensures run_on { DoneFilesAnswer }
    ensures storm { DoneStormsReport }
    ensures exploration { DoneExplorationsAreRight }
    ensures version { DoneVersionsAreWritten }
    ensures run_part { OtherRunsWriteAPart }
    ensures run_on_part { OtherFilesWriteAPart }
    ensures check_part { OtherChecksWriteAPart }
    ensures version_part { OtherVersionsWriteAPart }
    ensures invalid_storm { InvalidStormsWriteNothing }
    ensures invalid_exploration { InvalidExplorationsWriteNothing }
{}
