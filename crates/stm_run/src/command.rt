//! The words of the commands.

ghost use Rattle.std.specs.Prelude.{◌≡◌, take, drop};
ghost use Rattle.stm_run.specs.Console.{command_words, command_in, command_named};

/// A command of the console (docs/CONSOLE.md, "Commands").
#[derive(Clone, Copy, PartialEq, Eq, Debug)]
pub enum Command {
    Tvar,
    Declare,
    Try,
    Looks,
    Submit,
    Atomically,
    Take,
    Deliver,
    Handback,
    Eval,
    Finish,
    Cancel,
    Show,
    Reads,
    Store,
    Settle,
    Drain,
    History,
    Ready,
    Why,
    Events,
    Checkpoint,
    Label,
    Block,
    Board,
}

impl Command {
    ghost use Rattle.stm_run.specs.Abstraction.{is_question};

    /// Whether the command leaves the desk as it is, and its answer is appended.
    pub(crate) fn is_question(self) -> bool
        ensures { result ≡ is_question self }
    {
        matches!(
            self,
            Command::Tvar
                | Command::Try
                | Command::Looks
                | Command::Show
                | Command::Reads
                | Command::Store
                | Command::Ready
                | Command::Why
                | Command::Block
                | Command::Board
        )
    }
}

// The command of a word, of the first seven.
fn of_first_seven(word: &[u8]) -> Option<Command>
    ensures { result ≡ command_in (take 7 command_words) word.now }
{
    if word == b"tvar".as_slice() {
        return Some(Command::Tvar);
    }
    if word == b"declare".as_slice() {
        return Some(Command::Declare);
    }
    if word == b"try".as_slice() {
        return Some(Command::Try);
    }
    if word == b"looks".as_slice() {
        return Some(Command::Looks);
    }
    if word == b"show".as_slice() {
        return Some(Command::Show);
    }
    if word == b"reads".as_slice() {
        return Some(Command::Reads);
    }
    if word == b"store".as_slice() {
        return Some(Command::Store);
    }
    None
}

// The command of a word, of the next seven.
fn of_next_seven(word: &[u8]) -> Option<Command>
    ensures { result ≡ command_in (take 7 (drop 7 command_words)) word.now }
{
    if word == b"history".as_slice() {
        return Some(Command::History);
    }
    if word == b"ready".as_slice() {
        return Some(Command::Ready);
    }
    if word == b"why".as_slice() {
        return Some(Command::Why);
    }
    if word == b"events".as_slice() {
        return Some(Command::Events);
    }
    if word == b"submit".as_slice() {
        return Some(Command::Submit);
    }
    if word == b"atomically".as_slice() {
        return Some(Command::Atomically);
    }
    if word == b"take".as_slice() {
        return Some(Command::Take);
    }
    None
}

// The command of a word, of the third seven.
fn of_third_seven(word: &[u8]) -> Option<Command>
    ensures { result ≡ command_in (take 7 (drop 14 command_words)) word.now }
{
    if word == b"deliver".as_slice() {
        return Some(Command::Deliver);
    }
    if word == b"handback".as_slice() {
        return Some(Command::Handback);
    }
    if word == b"eval".as_slice() {
        return Some(Command::Eval);
    }
    if word == b"finish".as_slice() {
        return Some(Command::Finish);
    }
    if word == b"cancel".as_slice() {
        return Some(Command::Cancel);
    }
    if word == b"settle".as_slice() {
        return Some(Command::Settle);
    }
    if word == b"drain".as_slice() {
        return Some(Command::Drain);
    }
    None
}

// The command of a word, of the last four.
fn of_last_four(word: &[u8]) -> Option<Command>
    ensures { result ≡ command_in (drop 21 command_words) word.now }
{
    if word == b"checkpoint".as_slice() {
        return Some(Command::Checkpoint);
    }
    if word == b"label".as_slice() {
        return Some(Command::Label);
    }
    if word == b"block".as_slice() {
        return Some(Command::Block);
    }
    if word == b"board".as_slice() {
        return Some(Command::Board);
    }
    None
}

/// The command of a word, if it is one.
pub fn command_of(word: &[u8]) -> Option<Command>
    ensures { result ≡ command_named word.now }
{
    if let Some(command) = of_first_seven(word) {
        return Some(command);
    }
    if let Some(command) = of_next_seven(word) {
        return Some(command);
    }
    if let Some(command) = of_third_seven(word) {
        return Some(command);
    }
    of_last_four(word)
}
