//! The words of the command line.

ghost use Rattle.std.specs.Prelude.{◌≡◌, [], ◌∷◌, false, codes, IsTrue, IsOk, IfOk, map, option_and_then, option_map, pos};
ghost use Rattle.clap.specs.Simple.{subcommand_rows_of};
ghost use Rattle.clap.specs.Values.{kind_of};
ghost use Rattle.clap.specs.Walk.{first_of, one_of, rows_of, rule_of};
ghost use Rattle.clap.specs.Words.{app_of, found_of, new_app, with_subcommand, FailsBy, HasKind};
ghost use Rattle.clap.specs.declared.builder.command.Command.TheViews.{out-Command as fields_of};
ghost use Rattle.stm_command_line.specs.CommandLine.{asks_for_run, check_command, checkpoint_fault, checkpoint_option, check_said, command_line, explore_command, explore_options_said, flag_option, flag_said, is_said, journal_fault, journal_option, mode_of, mode_said, number_of_text, number_option, number_said, number_within, options_said, request_fault, request_said, run_command, run_fault, run_on, run_said, search_command, storm_command, storm_fault, sync_fault, sync_option, with_numbers, with_options, with_version, AreExploreOptions, HasOptionsInRange, ReadsWords};
ghost use Rattle.stm_options.specs.Options.{AreRunOptions};

use crate::file_name::FileName;
use crate::version::VERSION;
use clap::builder::ValueParser;
use clap::error::ErrorKind;
use clap::{Arg, ArgAction, ArgMatches, Command, Error, value_parser};
use std::alloc::{AllocError, Global};
use std::convert::AsStr;
use stm_journal::SyncMode;
use stm_options::{ExploreOptions, Options};

/// What words ask for: a run, a storm or an exploration with these options, a check of a history, or a check that also prints
/// what would be accepted instead. `RunOn` is a run that keeps its history in a file, which is synced in this way.
#[derive(Drop)]
pub enum Request<'a> {
    Run(Options),
    RunOn(Options, SyncMode, FileName<'a>),
    Storm(Options),
    Explore(ExploreOptions),
    Check,
    CheckWhy,
}

const ABOUT: &str =
    "A scheduler for memory transactions: blocks of code wait under tickets, become stale when a variable that they read \
changes, and take effect whole or not at all";

const RUN: &str =
    "Reads commands from standard input, one per line, and prints the answer to each on standard output (the default when no \
command is given)";

const STORM: &str =
    "Reads a script from standard input, runs each of its clients in its own thread on one shared desk, and prints the result";

const EXPLORE: &str =
    "Reads a script from standard input, searches every order of its clients' steps, and prints the first fault, if there is any";

const CHECK: &str = "Reads a history from standard input and reports whether it is legal";

const NEXT: &str = "\
Without a command stmdesk reads commands from standard input, as `stmdesk run` does:
  $ printf 'tvar x : Int = 1\\ntry readTVar x\\nstore\\n' | stmdesk
  tvar #0 x
  commits writes none news none result 1
  #0 x : Int = 1 count 0
  cells 1

`stmdesk run --help` describes the commands, each with an example, and the options; `stmdesk storm --help` describes the lines
of a script, `stmdesk explore --help` those of an exploration and what it prints, and `stmdesk check --help` what a check
prints. Exit statuses: 0 success, 1 the input, the output or a journal failed, or a line of a script is wrong, 2 the arguments
were refused, 3 a history isn't legal, or an exploration found a fault or didn't end, 4 out of memory, or a thread didn't start.

docs/CONSOLE.md describes the console, docs/LANGUAGE.md blocks, docs/HISTORY.md histories, docs/JOURNAL.md journals,
docs/STORM.md storms, and docs/EXPLORE.md explorations.";

const COMMANDS: &str = "\
Commands on standard input, one per line. A line that begins with `--` is a comment.
  tvar NAME : TYPE = INIT     Declares a variable, before any other command: `tvar #0 x`
      tvar x : Int = 1
  declare NAME : TYPE = INIT  Declares a variable at any time: `declared #1 y`
      declare y : Int = 2
  try BLOCK                   Runs a block on the present store without changing it, and prints its verdict
      try do { a <- readTVar x; writeTVar x (a + 1); return a }
  looks BLOCK                 Runs a block in the same way, and prints what it reads: `reads #0=1`
      looks readTVar x
  submit BLOCK                Puts a block on the desk, where it waits: `ticket 1`
      submit do { a <- readTVar x; if a < 1 then retry else writeTVar x (a + 1) }
  atomically BLOCK            Submits, evaluates and finishes a block: `finished 3 result 7 stale 1 2`; `waits 3` if it blocks
      atomically writeTVar x 5
  take N                      Hands out the N lowest queued tickets as jobs on the present store: `jobs 1=1 2=3`
      take 2
  deliver J                   Evaluates job J on the store of its `take`, and delivers its verdict: `delivered 1`
      deliver 1
  handback T                  Puts a ticket that is out back into the queue: `queued 1`
      handback 1
  eval                        Evaluates and delivers all queued tickets: `evaluated 3`
      eval
  finish T                    Applies the verdict of a current block, and prints its result and the tickets that become stale:
                              `finished 1 result () stale 2 3`
      finish 1
  cancel T                    Removes a block from the desk: `cancelled 2`
      cancel 2
  label T NAME                Gives a block that waits a label, without blanks, or takes its label away if there is no NAME:
                              `labelled 3 job7`
      label 3 job7
  show                        Prints each waiting ticket as `1 new`, `1 current VERDICT` or `1 stale VERDICT`, then `waiting 1`
      show
  board                       Prints each waiting ticket as `show` does, and then its label or `-`: `1 new job7`, then `waiting 1`
      board
  block T                     Prints the text of the block under a ticket, on one line: `block 3 do { .. }`
      block 3
  ready                       Prints the tickets that can be finished now, those that are current and don't block: `ready 3 7 9`
      ready
  reads T                     Prints what the block under a ticket read at its last evaluation: `reads #0=1`
      reads 1
  why T                       Prints what the block under a ticket waits for: `why 1 new`, `why 1 waits #0=1`, `why 1 ready`, or
                              `why 1 stale 3 #0=1->2` if the finish of ticket 3 changed a variable that it had read (or
                              `why 1 stale checkpoint` if a checkpoint of version 0.17 or earlier doesn't say which)
      why 1
  store                       Prints each variable with its value and how often it changed, then `cells 1`
      store
  settle                      Evaluates and finishes blocks until none can continue: `settled 2 evaluations 3`
      settle
  drain                       Finishes the same blocks in the same order, and evaluates a block only when it is its turn:
                              `drained 2 evaluations 2`
      drain
  history                     Prints the history, one JSON object per line, as `stmdesk check` reads it
      history
  events N                    Prints the history's events from the N-th on, counted from 1, then how many there are: `events 12`
      events 1
  checkpoint                  Lets the events so far go: the history begins again from where the desk is: `checkpoint 12`
      checkpoint

A verdict is `commits writes W news N result V` (#0=2 writes 2 to variable 0), `throws 4`, `throws overflow`, or `blocks` if
the block retries. A ticket is new until its first delivery, then current, and stale after a finish changed a variable that
its block read. New and stale tickets are queued for `take` and `eval`, or out as jobs.
A refused line prints `refused NAME`, followed by the place of the error if it has one.

Answers don't depend on `--workers` or `--levels`. The number of an option may begin with `+` or with zeros.

With `--journal` the history is kept in a file, and the next run with this file goes on from there. No answer is written before
its events are in the file and, as `--sync` says, on the disk:
      stmdesk run --journal desk.history
  full    Three syncs a batch of answers: a crash leaves each batch of events whole or not at all
  sector  Two syncs a batch, for the same, if the disk has zeros after the end of a file in its last 512 bytes
  append  One sync a batch: a crash leaves all events that were answered, and of the next batch perhaps some
  none    No sync: a crash of the program loses no event that was answered, but a crash of the system may lose any
When the history has 500000 events, or as many as `--checkpoint-every` says, a checkpoint is made: the history in the file begins
again from where the desk is, so that neither the file nor memory grows for ever.

docs/CONSOLE.md describes the commands in full, docs/LANGUAGE.md blocks, and docs/JOURNAL.md journals.";

const SCRIPT: &str = "\
A script on standard input: variables, then one section per client. Blank lines and lines that begin with `--` are ignored.
  tvar NAME : TYPE = INIT  Declares a variable, before the first section
  client                   Begins the section of the next client, which runs in its own thread
  submit BLOCK             Puts a block on the desk
  finish K                 Finishes the block of the section's K-th `submit`, as soon as it is evaluated
  cancel K                 Cancels that block
  expect NAME VALUE        Checks whether the variable holds the value

Prints one line per client, with how many blocks it submitted, finished and cancelled, how often it was refused, and how often
it missed an expected value; then the number of events, and `replay ok` if the history of all clients is legal.

Example:
  $ printf 'tvar x : Int = 1\\nclient\\nsubmit readTVar x\\nfinish 1\\nclient\\nexpect x 1\\n' | stmdesk storm
  client 0 submitted 1 finished 1 cancelled 0 refused 0 missed 0
  client 1 submitted 0 finished 0 cancelled 0 refused 0 missed 0
  events 3
  replay ok

For a script in a file, run `stmdesk storm < FILE`. If a line is wrong, standard error has `stmdesk: script line N` and why, nothing
is printed, and the status is 1. With `replay failed` the status is 3. If clients use the same variables, what is printed may
depend on which thread comes first. The number of an option may begin with `+` or with zeros.

docs/STORM.md describes scripts in full.";

const EXPLORATION: &str = "\
A script on standard input, as for `stmdesk storm`, with invariants and goals before the first section, and checks in sections:
  tvar NAME : TYPE = INIT  Declares a variable
  always BLOCK             In every state the block has to commit with the result True; what it writes counts for nothing
  never BLOCK              In every state the block has to retry
  eventually BLOCK         From every state one has to be reachable in which the block commits with the result True
  client                   Begins the section of the next client
  client N                 Begins that of the next N clients, 1 to 64, each of which does all its lines
  submit BLOCK             Names the next block of the client; this is no step
  finish K                 A step: finishes the block of the section's K-th `submit`, and waits while the block retries. A block that
                           throws is a fault
  throws K                 Says that this block may throw; this is no step
  cancel K                 Withdraws that block; this is no step, and a `finish K` after it is none
  expect NAME VALUE        A step: the variable has to hold the value
  assert BLOCK             A step: the block has to commit with the result True; it waits while the block retries, and changes nothing
  choose NAME VALUE ..     A step: the variable takes one of these values, of which there are 1 to 16; all are followed
  repeat                   Ends a section: the client begins it again

Each client does its steps in their order, and every interleaving of the clients is searched; but where a client's steps can't
matter to the others until later, it may be left for later, unless `--all` is given. Prints how many states were met and how many
steps lead on from them, how many states have ended, with the stores of the first ten, and then `right`, `incomplete` if there are
more states than may be kept, or the first fault by the fewest steps: `broken line L` (an invariant), `missed line L` (an `expect`),
`failed line L` (an `assert`), `threw line L` (a `finish`), or `deadlock`. If none of these is found, `never reached line L` says that
from a state on no order meets an `eventually`, and with `--progress` `stuck client C` that the client never does its next step again.
With either all states are searched. A fault is followed by the order of the clients' steps that leads there, by a line
`chose line L VALUE` for each choice on the way, and by the line at which each client is.

Example:
  $ printf 'tvar x : Int = 0\\nalways do { a <- readTVar x; return (a < 2) }\\nclient\\nsubmit writeTVar x 1\\nfinish 1\\n' | stmdesk explore
  states 2 steps 1
  ended 1
  #0 x : Int = 1
  cells 1
  right

Statuses: 0 right, 1 a line is wrong (standard error has `stmdesk: script line N` and why), 3 a fault or incomplete. With `--history`
the history of the order is printed instead, as `stmdesk check` and tools/timeline read it; without a fault nothing is. After `right`
standard error has a line `stmdesk: warning: line L: ..` for each line that can't matter.

docs/EXPLORE.md describes explorations in full.";

const FINDINGS: &str = "\
Prints one line:
  legal N events   A desk can have accepted the N events; status 0
  bad header       The first line, or the line of a variable or of a block before the events, is wrong; status 3
  bad line N       Line N is not the line of an event; status 3
  not legal N      The event in line N can't follow the events before it; status 3

With `--why` a line more follows if the history isn't legal. It explains the first line that isn't accepted, after
`bad header` with `line N ` before it:
  expected LINE    LINE would be accepted there: the same call as it has to be, or the same line as it has to be written
  refused NAME     A desk refuses the call there, as `stmdesk run` prints it
  unreadable       Neither
Then the whole history is read into memory before it is checked.

Example:
  $ printf 'tvar x : Int = 1\\nsubmit readTVar x\\neval\\nfinish 1\\nhistory\\n' | stmdesk | sed '1,4d' | stmdesk check
  legal 3 events

docs/HISTORY.md describes the lines.";

const WORKERS: &str = "How many threads evaluate blocks, from 1 to 64";

const LEVELS: &str = "How many nested `orElse` may run both branches at the same time, from 0 to 8";

const MAX_EVENTS: &str = "How many events the history may have, from 0 to 1048576";

const MAX_STATES: &str = "How many states may be kept, from 1 to 4294967295";

const HISTORY: &str = "Prints the history of the fault instead";

const ALL: &str = "Explores every state, and leaves no client for later";

const ALLOW_THROWS: &str = "Takes no throw of a block for a fault";

const TRACE: &str = "Prints after a fault what each step of its order does, and the last store";

const PROGRESS: &str = "Asks from every state whether each client can still do its next step";

const JOURNAL: &str = "Keeps the history in FILE, and goes on from what is in it";

const SYNC: &str =
    "What is synced before an answer is written: full, sector, append or none [default: full]";

const CHECKPOINT_EVERY: &str =
    "Makes a checkpoint when the history has N events, from 1 to 1048576 [default: 500000]";

const WHY: &str = "Also prints what would be accepted instead, or why nothing would be";

/// Whether the words are those of a run with nothing else, so that clap need not be asked.
fn is_plain_run<S: AsStr>(words: &[S]) -> bool
    ensures { result ≡ asks_for_run (map S.text words.now) }
{
    match words {
        [] | [_] => true,
        [_, word] => word.as_str() == "run",
        _ => false,
    }
}

/// What takes a number from `low` to `high`.
fn number_parser<'a>(low: u32, high: u32) -> ValueParser<'a>
    ensures { result ≡ ValueParser.Signed (pos low) (pos high) }
{
    value_parser!(u32).range(i64::from(low)..=i64::from(high))
}

/// An option that takes a number from `low` to `high`.
fn number_option<'a>(
    alloc: Global,
    name: &'a str,
    low: u32,
    high: u32,
    otherwise: &'a str,
    help: &'a str,
) -> Arg<'a>
    ensures rule { rule_of result ≡ number_option name.entry.now low high otherwise.entry.now }
    ensures local { result.global ≡ false }
{
    Arg::new(alloc, name)
        .long(name)
        .value_name("N")
        .value_parser(number_parser(low, high))
        .default_value(otherwise)
        .help(help)
}

/// The option of the file that keeps the history of a run. If it is hidden, help leaves it out.
fn journal_option<'a>(alloc: Global, is_hidden: bool) -> Arg<'a>
    ensures rule { rule_of result ≡ journal_option }
    ensures local { result.global ≡ false }
{
    Arg::new(alloc, "journal")
        .long("journal")
        .value_name("FILE")
        .value_parser(ValueParser::NonEmptyString)
        .help(JOURNAL)
        .hide(is_hidden)
}

/// The option of how that file is synced.
fn sync_option<'a>(alloc: Global, is_hidden: bool) -> Arg<'a>
    ensures rule { rule_of result ≡ sync_option }
    ensures local { result.global ≡ false }
{
    Arg::new(alloc, "sync")
        .long("sync")
        .value_name("MODE")
        .help(SYNC)
        .hide(is_hidden)
}

/// The option of how many events a file's history has before a checkpoint.
fn checkpoint_option<'a>(alloc: Global, is_hidden: bool) -> Arg<'a>
    ensures rule { rule_of result ≡ checkpoint_option }
    ensures local { result.global ≡ false }
{
    Arg::new(alloc, "checkpoint-every")
        .long("checkpoint-every")
        .value_name("N")
        .value_parser(number_parser(1, Options::MAX_EVENTS))
        .help(CHECKPOINT_EVERY)
        .hide(is_hidden)
}

/// A command with the options of a run that take numbers.
fn with_numbers<'a>(
    alloc: Global,
    name: &'a str,
    about: &'a str,
    after_help: &'a str,
) -> Result<Command<'a>, AllocError>
    ensures app { IfOk result (λ c. app_of c ≡ with_numbers (new_app name.entry.now)) }
    ensures local { IfOk result (λ c. (fields_of c).has_globals ≡ false) }
{
    Command::new(alloc, name)
        .about(about)
        .after_help(after_help)
        .arg(number_option(alloc, "workers", 1, Options::MAX_WORKERS, "2", WORKERS))?
        .arg(number_option(alloc, "levels", 0, Options::MAX_LEVELS, "0", LEVELS))?
        .arg(number_option(
            alloc,
            "max-events",
            0,
            Options::MAX_EVENTS,
            "1048576",
            MAX_EVENTS,
        ))
}

/// A command with the options of a run. A storm has those of a journal too, hidden, and they are refused later: so what follows
/// `storm` is read as what follows `run`.
fn with_options<'a>(
    alloc: Global,
    name: &'a str,
    about: &'a str,
    after_help: &'a str,
    is_storm: bool,
) -> Result<Command<'a>, AllocError>
    ensures app { IfOk result (λ c. app_of c ≡ with_options (new_app name.entry.now)) }
    ensures local { IfOk result (λ c. (fields_of c).has_globals ≡ false) }
{
    with_numbers(alloc, name, about, after_help)?
        .arg(journal_option(alloc, is_storm))?
        .arg(sync_option(alloc, is_storm))?
        .arg(checkpoint_option(alloc, is_storm))
}

/// `run` with its options.
fn run_words<'a>(alloc: Global) -> Result<Command<'a>, AllocError>
    ensures app { IfOk result (λ c. app_of c ≡ run_command) }
    ensures local { IfOk result (λ c. (fields_of c).has_globals ≡ false) }
{
    with_options(alloc, "run", RUN, COMMANDS, false)
}

/// `storm` with its options.
fn storm_words<'a>(alloc: Global) -> Result<Command<'a>, AllocError>
    ensures app { IfOk result (λ c. app_of c ≡ storm_command) }
    ensures local { IfOk result (λ c. (fields_of c).has_globals ≡ false) }
{
    with_options(alloc, "storm", STORM, SCRIPT, true)
}

/// An option that is said or not.
fn flag_option<'a>(alloc: Global, name: &'a str, help: &'a str) -> Arg<'a>
    ensures rule { rule_of result ≡ flag_option name.entry.now }
    ensures local { result.global ≡ false }
{
    Arg::new(alloc, name)
        .long(name)
        .action(ArgAction::SetTrue)
        .help(help)
}

/// `explore` with the options of how it searches and what it writes.
fn search_words<'a>(alloc: Global) -> Result<Command<'a>, AllocError>
    ensures app { IfOk result (λ c. app_of c ≡ search_command) }
    ensures local { IfOk result (λ c. (fields_of c).has_globals ≡ false) }
{
    Command::new(alloc, "explore")
        .about(EXPLORE)
        .after_help(EXPLORATION)
        .arg(number_option(
            alloc,
            "max-states",
            1,
            ExploreOptions::MAX_STATES,
            "1000000",
            MAX_STATES,
        ))?
        .arg(flag_option(alloc, "history", HISTORY))?
        .arg(flag_option(alloc, "all", ALL))
}

/// `explore` with its options.
fn explore_words<'a>(alloc: Global) -> Result<Command<'a>, AllocError>
    ensures app { IfOk result (λ c. app_of c ≡ explore_command) }
    ensures local { IfOk result (λ c. (fields_of c).has_globals ≡ false) }
{
    search_words(alloc)?
        .arg(flag_option(alloc, "allow-throws", ALLOW_THROWS))?
        .arg(flag_option(alloc, "trace", TRACE))?
        .arg(flag_option(alloc, "progress", PROGRESS))
}

/// The program with its version, and with no command.
fn bare_command<'a>(alloc: Global) -> Command<'a>
    ensures { app_of result ≡ with_version (new_app (codes "stmdesk")) }
{
    Command::new(alloc, "stmdesk")
        .version(VERSION)
        .about(ABOUT)
        .after_help(NEXT)
}

/// The program with its version and `run`, which is the default.
fn command_of_run<'a>(alloc: Global) -> Result<Command<'a>, AllocError>
    ensures { IfOk result (λ c. app_of c
        ≡ with_subcommand (with_version (new_app (codes "stmdesk"))) run_command.top) }
{
    let run = run_words(alloc)?;
    bare_command(alloc).subcommand(run)
}

/// The program with its version, `run` and `storm`, which takes the options of a run too.
fn command_of_runs<'a>(alloc: Global) -> Result<Command<'a>, AllocError>
    ensures { IfOk result (λ c. app_of c
        ≡ with_subcommand
        (with_subcommand (with_version (new_app (codes "stmdesk"))) run_command.top)
        storm_command.top) }
{
    let storm = storm_words(alloc)?;
    command_of_run(alloc)?.subcommand(storm)
}

/// The program with its version, `run`, `storm` and `explore`.
fn command_of_scripts<'a>(alloc: Global) -> Result<Command<'a>, AllocError>
    ensures { IfOk result (λ c. app_of c
        ≡ with_subcommand (with_subcommand
        (with_subcommand (with_version (new_app (codes "stmdesk"))) run_command.top)
        storm_command.top) explore_command.top) }
{
    let explore = explore_words(alloc)?;
    command_of_runs(alloc)?.subcommand(explore)
}

/// `check` with its option.
fn check_words<'a>(alloc: Global) -> Result<Command<'a>, AllocError>
    ensures app { IfOk result (λ c. app_of c ≡ check_command) }
    ensures local { IfOk result (λ c. (fields_of c).has_globals ≡ false) }
{
    let why = flag_option(alloc, "why", WHY);
    Command::new(alloc, "check")
        .about(CHECK)
        .after_help(FINDINGS)
        .arg(why)
}

/// What the program takes: `run`, `storm`, `explore`, `check`, and what clap adds for help and the version.
fn command<'a>(alloc: Global) -> Result<Command<'a>, AllocError>
    ensures { IfOk result (λ c. app_of c ≡ command_line) }
{
    let check = check_words(alloc)?;
    command_of_scripts(alloc)?.subcommand(check)
}

/// The number that was said for an option.
fn number_given(matches: &ArgMatches, name: &str) -> Option<u32>
    ensures { result
        ≡ option_and_then number_of_text (one_of name.now (rows_of (found_of matches.now))) }
{
    matches.get_one::<u32>(name)
}

/// A number, if it is one from `low` to `high`.
fn number_within(low: u32, high: u32, otherwise: u32, number: Option<u32>) -> u32
    ensures { result ≡ number_within low high otherwise number }
{
    match number {
        Some(number) => {
            if low <= number && number <= high {
                number
            } else {
                otherwise
            }
        }
        None => otherwise,
    }
}

/// The number that was said for an option. Clap has a default and takes none but those from `low` to `high`; that it is one
/// of them is tested here once more.
fn number_of(matches: &ArgMatches, name: &str, low: u32, high: u32, otherwise: u32) -> u32
    ensures { result ≡ number_said name.now low high otherwise (rows_of (found_of matches.now)) }
{
    number_within(low, high, otherwise, number_given(matches, name))
}

/// The options of `run` and `storm`.
fn options_of(matches: &ArgMatches) -> Options
    ensures said { result ≡ options_said (rows_of (found_of matches.now)) }
    ensures range { AreRunOptions result }
{
    let otherwise = Options::standard();
    Options {
        workers: number_of(
            matches,
            "workers",
            1,
            Options::MAX_WORKERS,
            otherwise.workers,
        ),
        levels: number_of(matches, "levels", 0, Options::MAX_LEVELS, otherwise.levels),
        max_events: number_of(
            matches,
            "max-events",
            0,
            Options::MAX_EVENTS,
            otherwise.max_events,
        ),
        checkpoint_every: number_of(
            matches,
            "checkpoint-every",
            1,
            Options::MAX_EVENTS,
            otherwise.checkpoint_every,
        ),
    }
}

/// The text that was said for an option.
fn text_given<'a>(matches: &ArgMatches<'a>, name: &str) -> Option<&'a str>
    ensures { option_map (λ s. s.now) result ≡ first_of name.now (rows_of (found_of matches.now)) }
{
    matches.get_str(name)
}

/// Whether an option was said that takes no number.
fn flag_of(matches: &ArgMatches, name: &str) -> bool
    ensures { result ≡ flag_said name.now (rows_of (found_of matches.now)) }
{
    match matches.get_str(name) {
        Some(text) => text == "true",
        None => false,
    }
}

/// The options of `explore`.
fn explore_options_of(matches: &ArgMatches) -> ExploreOptions
    ensures said { result ≡ explore_options_said (rows_of (found_of matches.now)) }
    ensures range { AreExploreOptions result }
{
    ExploreOptions {
        max_states: number_of(
            matches,
            "max-states",
            1,
            ExploreOptions::MAX_STATES,
            ExploreOptions::STATES,
        ),
        history: flag_of(matches, "history"),
        all: flag_of(matches, "all"),
        allow_throws: flag_of(matches, "allow-throws"),
        trace: flag_of(matches, "trace"),
        progress: flag_of(matches, "progress"),
    }
}

/// What is asked for by `check`.
fn check_of<'a>(matches: &ArgMatches) -> Request<'a>
    ensures { result ≡ check_said (rows_of (found_of matches.now)) }
{
    if flag_of(matches, "why") {
        Request::CheckWhy
    } else {
        Request::Check
    }
}

/// The mode that a word names.
fn mode_of(word: &str) -> Option<SyncMode>
    ensures { result ≡ mode_of word.now }
{
    if word == "full" {
        return Some(SyncMode::Full);
    }
    if word == "sector" {
        return Some(SyncMode::Sector);
    }
    if word == "append" {
        return Some(SyncMode::Append);
    }
    if word == "none" {
        return Some(SyncMode::Never);
    }
    None
}

/// How the file is synced, by the word that was said, if one was.
fn mode_said(word: Option<&str>) -> SyncMode
    ensures { result ≡ mode_said (option_map (λ w. w.now) word.entry) }
{
    match word {
        Some(word) => mode_of(word).unwrap_or(SyncMode::Full),
        None => SyncMode::Full,
    }
}

/// A run, on the file of this name if there is one.
fn run_on<'a>(file: Option<&'a str>, sync: SyncMode, options: Options) -> Request<'a>
    requires { AreRunOptions options }
    ensures said { result ≡ run_on (option_map (λ f. f.now) file.entry) sync options }
    ensures range { HasOptionsInRange result }
{
    match file {
        Some(name) => Request::RunOn(options, sync, FileName::new(name)),
        None => Request::Run(options),
    }
}

/// What is asked for by `run`.
fn run_of<'a>(matches: &ArgMatches<'a>) -> Request<'a>
    ensures said { result ≡ run_said (rows_of (found_of matches.now)) }
    ensures range { HasOptionsInRange result }
{
    run_on(
        text_given(matches, "journal"),
        mode_said(text_given(matches, "sync")),
        options_of(matches),
    )
}

/// What is asked for by words that clap takes.
fn request_of<'a>(matches: &ArgMatches<'a>) -> Request<'a>
    ensures said { result ≡ request_said (subcommand_rows_of matches.now) }
    ensures range { HasOptionsInRange result }
{
    match matches.subcommand() {
        Some((name, inner)) => {
            if name == "check" {
                return check_of(inner);
            }
            if name == "storm" {
                return Request::Storm(options_of(inner));
            }
            if name == "explore" {
                return Request::Explore(explore_options_of(inner));
            }
            run_of(inner)
        }
        None => Request::Run(Options::standard()),
    }
}

/// An error in the words after `run` or `storm`, with how these are used.
fn usage_error(
    alloc: Global,
    is_storm: bool,
    kind: ErrorKind,
    message: &str,
) -> Result<Error, AllocError>
    ensures { IfOk result (λ e. kind_of e ≡ kind) }
{
    let command = if is_storm {
        storm_words(alloc)?.bin_name("stmdesk storm")
    } else {
        run_words(alloc)?.bin_name("stmdesk run")
    };
    let mut command = command?;
    command.error(kind, message)
}

/// An error in the words after `run` or `storm`, or that memory ran out.
fn refusal(alloc: Global, is_storm: bool, kind: ErrorKind, message: &str) -> Error
    ensures { HasKind (kind ∷ []) result }
{
    match usage_error(alloc, is_storm, kind, message) {
        Ok(error) => error,
        Err(refused) => Error::from(refused),
    }
}

/// The error that a word is no mode.
fn unknown_mode(alloc: Global, word: &str) -> Error
    ensures { HasKind (ErrorKind.InvalidValue ∷ []) result }
{
    match format!(in alloc;
        "invalid value '{word}' for '--sync <MODE>'\n  [possible values: full, sector, append, none]"
    ) {
        Ok(message) => refusal(alloc, false, ErrorKind::InvalidValue, &message),
        Err(refused) => Error::from(refused),
    }
}

/// Refuses a word that is no mode, and a mode without a journal.
fn check_sync(alloc: Global, word: Option<&str>, has_journal: bool) -> Result<(), Error>
    ensures { FailsBy (sync_fault (option_map (λ w. w.now) word.entry) has_journal) result }
{
    match word {
        Some(word) => {
            if mode_of(word).is_none() {
                return Err(unknown_mode(alloc, word));
            }
            if !has_journal {
                return Err(refusal(
                    alloc,
                    false,
                    ErrorKind::MissingRequiredArgument,
                    "the argument '--sync <MODE>' cannot be used without '--journal <FILE>'",
                ));
            }
            Ok(())
        }
        None => Ok(()),
    }
}

/// Refuses `--checkpoint-every` without a journal.
fn check_checkpoint(alloc: Global, has_checkpoint: bool, has_journal: bool) -> Result<(), Error>
    ensures { FailsBy (checkpoint_fault has_checkpoint has_journal) result }
{
    if has_checkpoint && !has_journal {
        return Err(refusal(
            alloc,
            false,
            ErrorKind::MissingRequiredArgument,
            "the argument '--checkpoint-every <N>' cannot be used without '--journal <FILE>'",
        ));
    }
    Ok(())
}

/// Refuses the options of a journal after `storm`.
fn check_alone(
    alloc: Global,
    has_journal: bool,
    has_sync: bool,
    has_checkpoint: bool,
) -> Result<(), Error>
    ensures { FailsBy (journal_fault has_journal has_sync has_checkpoint) result }
{
    if has_journal {
        return Err(refusal(
            alloc,
            true,
            ErrorKind::UnknownArgument,
            "unexpected argument '--journal' found",
        ));
    }
    if has_sync {
        return Err(refusal(
            alloc,
            true,
            ErrorKind::UnknownArgument,
            "unexpected argument '--sync' found",
        ));
    }
    if has_checkpoint {
        return Err(refusal(
            alloc,
            true,
            ErrorKind::UnknownArgument,
            "unexpected argument '--checkpoint-every' found",
        ));
    }
    Ok(())
}

/// Whether the option of checkpoints was said.
fn has_checkpoint(matches: &ArgMatches) -> bool
    ensures { result ≡ is_said (codes "checkpoint-every") (rows_of (found_of matches.now)) }
{
    text_given(matches, "checkpoint-every").is_some()
}

/// Refuses what clap takes after `run`: a wrong mode, and options of a journal without one.
fn check_run(alloc: Global, matches: &ArgMatches) -> Result<(), Error>
    ensures { FailsBy (run_fault (rows_of (found_of matches.now))) result }
{
    let has_journal = text_given(matches, "journal").is_some();
    match check_sync(alloc, text_given(matches, "sync"), has_journal) {
        Ok(()) => check_checkpoint(alloc, has_checkpoint(matches), has_journal),
        Err(error) => Err(error),
    }
}

/// Refuses what clap takes after `storm`: a journal.
fn check_storm(alloc: Global, matches: &ArgMatches) -> Result<(), Error>
    ensures { FailsBy (storm_fault (rows_of (found_of matches.now))) result }
{
    let has_journal = text_given(matches, "journal").is_some();
    let has_sync = text_given(matches, "sync").is_some();
    check_alone(alloc, has_journal, has_sync, has_checkpoint(matches))
}

/// Refuses what clap takes and no request has.
fn check_request(alloc: Global, matches: &ArgMatches) -> Result<(), Error>
    ensures { FailsBy (request_fault (subcommand_rows_of matches.now)) result }
{
    match matches.subcommand() {
        Some((name, inner)) => {
            if name == "run" {
                return check_run(alloc, inner);
            }
            if name == "storm" {
                return check_storm(alloc, inner);
            }
            Ok(())
        }
        None => Ok(()),
    }
}

/// Reads the words, the program's name first: what they ask for, else the help, the version or the error to be printed.
pub fn read_words<'a, S: AsStr>(alloc: Global, words: &'a [S]) -> Result<Request<'a>, Error>
    // No word at all, the name alone, and `run` after it, are taken even if memory runs out.
    ensures run { IsTrue (asks_for_run (map S.text words.now)) → IsOk result }
    // What the words ask for, or what clap prints of them.
    ensures words { ReadsWords (map S.text words.now) result }
{
    if is_plain_run(words) {
        return Ok(Request::Run(Options::standard()));
    }
    let matches = command(alloc)?.try_get_matches_from(words)?;
    match check_request(alloc, &matches) {
        Ok(()) => Ok(request_of(&matches)),
        Err(error) => Err(error),
    }
}
