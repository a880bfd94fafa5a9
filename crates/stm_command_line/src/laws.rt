//! What holds of the program's words. Each function is a law: its contract says it.

ghost use Rattle.stm_command_line.specs.WordLaws.{RunsAreAccepted, LastDashesChangeNothing, RunsHaveDefaults, OptionsAreInRange, StormsAreAccepted, StormsAreAsRuns, StormsHaveNoJournal, ChecksAreAccepted, ChecksWithReasonsAreAccepted, VersionsAreAskedFor, NumbersAreTaken, OthersAreRefused, NoOptionTwice, OptionsNeedRun, JournalsAreTaken, EmptyNamesAreRefused, ModesAreTaken, OtherModesAreRefused, ModesNeedJournals, CheckpointsAreTaken, OtherCheckpointsAreRefused, CheckpointsNeedJournals};

/// No word at all, the program's name alone, and `run` after it ask for a run with the default options, also with a last word `--`.
/// No words give a run, a storm or an exploration options that are out of their ranges.
pub fn words_of_a_run_are_accepted()
    ensures bare { RunsAreAccepted }
    ensures dashes { LastDashesChangeNothing }
    ensures defaults { RunsHaveDefaults }
    ensures range { OptionsAreInRange }
{}

/// `storm` after the program's name asks for a storm with the default options, and any words after it are taken as after `run`,
/// except those of a journal: so a storm's options are those of a run, in the same ranges, each at most once.
pub fn words_of_a_storm_are_those_of_a_run()
    ensures bare { StormsAreAccepted }
    ensures as_runs { StormsAreAsRuns }
    ensures no_journal { StormsHaveNoJournal }
{}

/// `check` after the program's name asks for a check, and `check --why` for what would be accepted instead, too.
pub fn words_of_a_check_are_accepted()
    ensures bare { ChecksAreAccepted }
    ensures why { ChecksWithReasonsAreAccepted }
{}

/// `--version` and `-V` ask for the version.
pub fn versions_are_asked_for()
    ensures { VersionsAreAskedFor }
{}

/// `run` with `--workers=N`, `--levels=N` or `--max-events=N` runs with this number if it is in the option's range; any other
/// number of 64 bits is refused.
pub fn numbers_in_range_are_taken()
    ensures taken { NumbersAreTaken }
    ensures others { OthersAreRefused }
{}

/// `run` with the same option twice, side by side and with no other word, is refused, whatever its two values are. So are words of
/// which an option is the first, without `run`.
pub fn options_come_once_after_run()
    ensures once { NoOptionTwice }
    ensures after { OptionsNeedRun }
{}

/// `run` with `--journal` asks for a run on the file of this name, which is synced as `--sync` says, or fully. An empty name,
/// another mode, and a mode without a journal are refused.
pub fn journals_are_taken()
    ensures taken { JournalsAreTaken }
    ensures empty { EmptyNamesAreRefused }
    ensures modes { ModesAreTaken }
    ensures others { OtherModesAreRefused }
    ensures alone { ModesNeedJournals }
{}

/// With `--journal`, `--checkpoint-every` is taken with a number in its range, and any other number of 64 bits is refused; without
/// `--journal` it is refused.
pub fn checkpoints_need_journals()
    ensures taken { CheckpointsAreTaken }
    ensures others { OtherCheckpointsAreRefused }
    ensures alone { CheckpointsNeedJournals }
{}
