//! What the console knows, and its answer to a line.

ghost use Rattle.std.specs.Prelude.{◌≡◌, ◌++◌, true, false, length, string_bytes, OnOk, OnErr, IfOk};
ghost use Rattle.stm_lines.specs.WrittenFronts.{WritesText};
ghost use Rattle.stm_commands.specs.Contents.{history_answer};
ghost use Rattle.stm_commands.specs.OpenDesk.{Steps, without_jobs};
ghost use Rattle.stm_commands.specs.Printing.{TakesStep};
ghost use Rattle.stm_commands.specs.Questions.{events_answer};
ghost use Rattle.stm_run.specs.Abstraction.{IsReply, IsStep, RepliesTo, history_of, is_change, is_question, later_events_of};
ghost use Rattle.stm_run.specs.Console.{initial_console, command_named, desk_step, on_console, word_step};
ghost use Rattle.stm_commands.specs.Checkpointing.{MayStartFrom, checkpoint_step, makes_checkpoint, next_checkpoint_of};
ghost use Rattle.stm_run.specs.ConsoleState.{present_checkpoint, present_desk, is_open, table_of, events_of, with_checkpoint};
ghost use Rattle.stm_run.specs.LineCheckpoints.{asked_checkpoint_step, asks_checkpoint, reply_checkpoints, is_streamed, command_checkpoints, word_checkpoints};
ghost use Rattle.stm_run.specs.Declaring.{tvar_line, tvar_step};
ghost use Rattle.stm_run.specs.declared.console.Console.TheVariants.{Open};

use crate::command::{Command, command_of};
use crate::limit::EventLimit;
use crate::reply::Reply;
use std::alloc::Global;
use std::io::Write;
use std::str;
use std::thread::Threads;
use stm_commands::refusals::{refuse, refuse_argument, write_refusal};
use stm_commands::{OpenDesk, Threading};
use stm_desk::{Checkpoint, Desk};
use stm_history_text::WriteFault;
use stm_lines::arguments::number_of;
use stm_lines::judging::{Judgement, judge};
use stm_source::declaring::declare;
use stm_store::{Seed, Table};
use stm_terms::NoMemory;

/// The declared variables, and how many events the desk will take; or the desk once it is open.
#[derive(Drop)]
pub enum Console {
    Declaring { table: Table, limit: EventLimit },
    Open(OpenDesk),
}

/// Appends the answer to a declaration.
#[tactic(auto, unfolding(crate::specs::Declaring::tvar_line))]
fn write_declared(number: u32, name: &str, out: &mut String) -> Result<(), NoMemory>
    ensures { OnOk result
        (string_bytes out.new ≡ string_bytes out.old ++ tvar_line number name.now) }
{
    write!(out, "tvar #{number} {name}\n")
}

/// Answers `history`.
#[tactic(auto, unfolding(stm_commands::specs::Contents::history_answer))]
fn answer_history(desk: &OpenDesk, argument: &str, out: &mut String) -> Result<Reply, NoMemory>
    ensures reply { IfOk result (λ r. IsReply r (string_bytes out.old) (string_bytes out.new)
        (Open desk.now) (history_answer desk.now argument.now)) }
    ensures asked { IfOk result (λ r. asks_checkpoint r ≡ false) }
    ensures made { IfOk result (λ r. reply_checkpoints desk.now r ≡ false) }
{
    if argument.is_empty() {
        return Ok(Reply::History);
    }
    refuse_argument(out).and(Ok(Reply::Text))
}

/// Answers `events`.
#[tactic(auto, unfolding(stm_commands::specs::Questions::events_answer))]
fn answer_events(desk: &OpenDesk, argument: &str, out: &mut String) -> Result<Reply, NoMemory>
    ensures reply { IfOk result (λ r. IsReply r (string_bytes out.old) (string_bytes out.new)
        (Open desk.now) (events_answer desk.now argument.now)) }
    ensures asked { IfOk result (λ r. asks_checkpoint r ≡ false) }
    ensures made { IfOk result (λ r. reply_checkpoints desk.now r ≡ false) }
{
    match number_of(argument.as_bytes()) {
        Some(n) => Ok(Reply::Events(n)),
        None => refuse_argument(out).and(Ok(Reply::Text)),
    }
}

/// Answers `checkpoint`: it is still to be made, unless there is an argument.
#[tactic(auto, unfolding(stm_commands::specs::Checkpointing::checkpoint_step))]
fn answer_checkpoint(desk: &OpenDesk, argument: &str, out: &mut String) -> Result<Reply, NoMemory>
    ensures step { IfOk result (λ r. IsStep r (string_bytes out.old) (string_bytes out.new)
        (Open desk.now) (on_console (checkpoint_step desk.now argument.now))) }
    ensures made { IfOk result (λ r. reply_checkpoints desk.now r ≡ makes_checkpoint desk.now argument.now) }
    ensures streamed { IfOk result (λ r. is_streamed r ≡ false) }
{
    if argument.is_empty() {
        return Ok(Reply::Checkpoint);
    }
    refuse_argument(out).and(Ok(Reply::Text))
}

/// Appends the answer to a command that leaves the desk as it is.
fn append_question(
    desk: &mut OpenDesk,
    alloc: Global,
    command: Command,
    argument: &str,
    out: &mut String,
) -> Result<(), NoMemory>
    requires { is_question command ≡ true }
    ensures { OnOk result (Steps desk.new (string_bytes out.old) (string_bytes out.new) (desk_step desk.old command argument.now)) }
{
    match command {
        Command::Tvar => refuse("Late", out),
        Command::Try => desk.answer_try(alloc, argument, out),
        Command::Looks => desk.answer_looks(alloc, argument, out),
        Command::Show => desk.answer_show(argument, out),
        Command::Reads => desk.answer_reads(argument, out),
        Command::Store => desk.answer_store(argument, out),
        Command::Ready => desk.answer_ready(argument, out),
        Command::Why => desk.answer_why(alloc, argument, out),
        Command::Block => desk.answer_block(argument, out),
        Command::Board => desk.answer_board(argument, out),
        _ => unreachable!(),
    }
}

/// Appends the answer to a command that may change the desk, other than `checkpoint`, and starts no thread.
fn append_change_here(
    desk: &mut OpenDesk,
    alloc: Global,
    command: Command,
    argument: &str,
    out: &mut String,
) -> Result<(), NoMemory>
    requires { is_change command ≡ true }
    ensures { OnOk result (Steps desk.new (string_bytes out.old) (string_bytes out.new) (desk_step desk.old command argument.now)) }
{
    match command {
        Command::Declare => desk.answer_declare(alloc, argument, out),
        Command::Submit => desk.answer_submit(alloc, argument, out),
        Command::Atomically => desk.answer_atomically(alloc, argument, out),
        Command::Take => desk.answer_take(alloc, argument, out),
        Command::Deliver => desk.answer_deliver(alloc, argument, out),
        Command::Handback => desk.answer_handback(argument, out),
        Command::Eval => desk.answer_eval_here(argument, out),
        Command::Finish => desk.answer_finish(argument, out),
        Command::Cancel => desk.answer_cancel(argument, out),
        Command::Settle => desk.answer_settle(argument, out),
        Command::Drain => desk.answer_drain(argument, out),
        Command::Label => desk.answer_label(argument, out),
        _ => unreachable!(),
    }
}

/// Answers a command on the open desk, and starts no thread.
fn answer_on_desk_here(
    desk: &mut OpenDesk,
    alloc: Global,
    command: Command,
    argument: &str,
    out: &mut String,
) -> Result<Reply, NoMemory>
    ensures step { IfOk result (λ r. IsStep r (string_bytes out.old) (string_bytes out.new)
        (Open desk.new) (on_console (desk_step desk.old command argument.now))) }
    ensures asked { IfOk result (λ r. asks_checkpoint r ≡ true → desk.new ≡ desk.old) }
    ensures made { IfOk result (λ r. reply_checkpoints desk.old r
        ≡ command_checkpoints (Open desk.old) command argument.now) }
    ensures streamed { IfOk result (λ r. is_streamed r ≡ true
        → desk.new.desk.history ≡ desk.old.desk.history) }
{
    match command {
        Command::Checkpoint => answer_checkpoint(desk, argument, out),
        Command::History => answer_history(desk, argument, out),
        Command::Events => answer_events(desk, argument, out),
        _ if command.is_question() => append_question(desk, alloc, command, argument, out).and(Ok(
            Reply::Text,
        )),
        _ => append_change_here(desk, alloc, command, argument, out).and(Ok(Reply::Text)),
    }
}

/// Answers a command on the open desk. Only `eval` may start threads.
fn answer_on_desk<T: Threads + Sync>(
    desk: &mut OpenDesk,
    rt: &T,
    alloc: Global,
    threading: Threading,
    command: Command,
    argument: &str,
    out: &mut String,
) -> Result<Reply, NoMemory>
    ensures step { IfOk result (λ r. IsStep r (string_bytes out.old) (string_bytes out.new)
        (Open desk.new) (on_console (desk_step desk.old command argument.now))) }
    ensures asked { IfOk result (λ r. asks_checkpoint r ≡ true → desk.new ≡ desk.old) }
    ensures made { IfOk result (λ r. reply_checkpoints desk.old r
        ≡ command_checkpoints (Open desk.old) command argument.now) }
    ensures streamed { IfOk result (λ r. is_streamed r ≡ true
        → desk.new.desk.history ≡ desk.old.desk.history) }
{
    match command {
        Command::Eval => desk
            .answer_eval(rt, alloc, threading, argument, out)
            .and(Ok(Reply::Text)),
        _ => answer_on_desk_here(desk, alloc, command, argument, out),
    }
}

impl Console {
    ghost use Rattle.std.specs.Borrow.{sem};
    ghost use Rattle.stm_run.specs.LentDesk.{LendsDesk};

    /// A console of no variables, whose names will be looked up under the seed, and whose desk will take `limit` events.
    #[tactic(auto, unfolding(crate::specs::Console::initial_console))]
    pub fn new(alloc: Global, seed: Seed, limit: EventLimit) -> Console
        ensures { result ≡ initial_console limit }
    {
        Console::Declaring {
            table: Table::with_seed(alloc, seed),
            limit,
        }
    }

    /// A console whose desk goes on from a history, and that keeps no job. Which tickets are out stays as it is.
    pub fn resume(alloc: Global, desk: Desk) -> Result<Console, NoMemory>
        ensures { IfOk result (λ c. c ≡ Open (without_jobs desk)) }
    {
        Ok(Console::Open(OpenDesk::resume(alloc, desk)?))
    }

    /// Opens the desk, unless it is open.
    //
    // It is apart from `open`, which mostly finds an open desk, since it has large temporaries.
    #[inline(never)]
    fn open_now(&mut self, alloc: Global) -> Result<(), NoMemory>
        ensures opened { OnOk result (self.new ≡ Open (present_desk self.old)) }
        ensures same { OnErr result (self.new ≡ self.old) }
    {
        let desk = match self {
            Console::Open(_) => return Ok(()),
            Console::Declaring { table, limit } => OpenDesk::open(alloc, table, limit.events())?,
        };
        *self = Console::Open(desk);
        Ok(())
    }

    /// Opens the desk, unless it is open.
    fn open(&mut self, alloc: Global) -> Result<(), NoMemory>
        ensures opened { OnOk result (self.new ≡ Open (present_desk self.old)) }
        ensures same { OnErr result (self.new ≡ self.old) }
    {
        match self {
            Console::Open(_) => Ok(()),
            Console::Declaring { .. } => self.open_now(alloc),
        }
    }

    /// The desk, which is opened unless it is open.
    fn opened(&mut self, alloc: Global) -> Result<&mut OpenDesk, NoMemory>
        ensures* writes_back { sem 𝓛 (LendsDesk self.entry result) }
        ensures value { IfOk result (λ d. d.now ≡ present_desk self.old) }
    {
        self.open(alloc)?;
        match self {
            Console::Open(desk) => Ok(desk),
            Console::Declaring { .. } => unreachable!(),
        }
    }

    /// Answers `tvar`.
    fn answer_tvar(
        &mut self,
        alloc: Global,
        argument: &str,
        out: &mut String,
    ) -> Result<(), NoMemory>
        ensures { OnOk result (Steps self.new (string_bytes out.old) (string_bytes out.new)
            (tvar_step self.old argument.now)) }
    {
        let Console::Declaring { table, .. } = self else {
            return refuse("Late", out);
        };
        match declare(alloc, table, argument) {
            Ok(number) => write_declared(number, table.name(number), out),
            Err(refusal) => write_refusal(refusal, out),
        }
    }

    /// Answers a command.
    fn answer_command<T: Threads + Sync>(
        &mut self,
        rt: &T,
        alloc: Global,
        threading: Threading,
        word: &[u8],
        argument: &str,
        out: &mut String,
    ) -> Result<Reply, NoMemory>
        ensures step { IfOk result (λ r. IsStep r (string_bytes out.old) (string_bytes out.new)
            self.new (word_step self.old (command_named word.now) argument.now)) }
        ensures asked { IfOk result (λ r. asks_checkpoint r ≡ true → self.new ≡ Open (present_desk self.old)) }
        ensures made { IfOk result (λ r. reply_checkpoints (present_desk self.old) r
            ≡ word_checkpoints self.old (command_named word.now) argument.now) }
        ensures streamed { IfOk result (λ r. is_streamed r ≡ true
            → events_of self.new ≡ events_of self.old) }
    {
        match command_of(word) {
            None => refuse("Command", out).and(Ok(Reply::Text)),
            Some(Command::Tvar) => self.answer_tvar(alloc, argument, out).and(Ok(Reply::Text)),
            Some(command) => {
                let desk = self.opened(alloc)?;
                answer_on_desk(desk, rt, alloc, threading, command, argument, out)
            }
        }
    }

    /// Answers a command, and starts no thread.
    fn answer_command_here(
        &mut self,
        alloc: Global,
        word: &[u8],
        argument: &str,
        out: &mut String,
    ) -> Result<Reply, NoMemory>
        ensures step { IfOk result (λ r. IsStep r (string_bytes out.old) (string_bytes out.new)
            self.new (word_step self.old (command_named word.now) argument.now)) }
        ensures asked { IfOk result (λ r. asks_checkpoint r ≡ true → self.new ≡ Open (present_desk self.old)) }
        ensures made { IfOk result (λ r. reply_checkpoints (present_desk self.old) r
            ≡ word_checkpoints self.old (command_named word.now) argument.now) }
        ensures streamed { IfOk result (λ r. is_streamed r ≡ true
            → events_of self.new ≡ events_of self.old) }
    {
        match command_of(word) {
            None => refuse("Command", out).and(Ok(Reply::Text)),
            Some(Command::Tvar) => self.answer_tvar(alloc, argument, out).and(Ok(Reply::Text)),
            Some(command) => {
                let desk = self.opened(alloc)?;
                answer_on_desk_here(desk, alloc, command, argument, out)
            }
        }
    }

    /// Appends the answer to a line as `answer` does, but starts no thread. If memory runs out, the line may be done in part.
    pub fn answer_here(
        &mut self,
        alloc: Global,
        line: &[u8],
        out: &mut String,
    ) -> Result<Reply, NoMemory>
        // By the reply: the answer was appended, or this is still to be done for it.
        ensures { RepliesTo result self.old line.now self.new out.old out.new }
    {
        match judge(line) {
            Judgement::TooLong => refuse("LineTooLong", out).and(Ok(Reply::Text)),
            Judgement::Silent => Ok(Reply::Text),
            Judgement::NotAscii => refuse("NotAscii", out).and(Ok(Reply::Text)),
            Judgement::Words(word, argument) => match str::from_utf8(argument) {
                Ok(argument) => self.answer_command_here(alloc, word, argument, out),
                Err(_) => unreachable!(),
            },
        }
    }

    /// Appends the answer to a line; or returns that it is the history or its later events, which are to be written, or that a checkpoint
    /// is to be made (`answer_checkpoint`). If memory runs out, the line may be done in part, and no clause says how far.
    pub fn answer<T: Threads + Sync>(
        &mut self,
        rt: &T,
        alloc: Global,
        threading: Threading,
        line: &[u8],
        out: &mut String,
    ) -> Result<Reply, NoMemory>
        // By the reply: the answer was appended, or this is still to be done for it.
        ensures { RepliesTo result self.old line.now self.new out.old out.new }
    {
        match judge(line) {
            Judgement::TooLong => refuse("LineTooLong", out).and(Ok(Reply::Text)),
            Judgement::Silent => Ok(Reply::Text),
            Judgement::NotAscii => refuse("NotAscii", out).and(Ok(Reply::Text)),
            Judgement::Words(word, argument) => match str::from_utf8(argument) {
                Ok(argument) => self.answer_command(rt, alloc, threading, word, argument, out),
                Err(_) => unreachable!(),
            },
        }
    }

    /// How many events the history has.
    pub fn event_count(&self) -> usize
        ensures { result ≡ length (events_of self.now) }
    {
        match self {
            Console::Declaring { .. } => 0,
            Console::Open(desk) => desk.history().len(),
        }
    }

    /// Whether the desk is open.
    pub fn is_open(&self) -> bool
        ensures { result ≡ is_open self.now }
    {
        matches!(self, Console::Open(_))
    }

    /// The declared variables.
    pub fn table(&self) -> &Table
        ensures { result.now ≡ table_of self.now }
    {
        match self {
            Console::Declaring { table, .. } => table,
            Console::Open(desk) => desk.table(),
        }
    }

    /// The checkpoint of the present state of the open desk, from which the history can begin (`begin_from`); none if tickets could run
    /// out after it.
    pub fn next_checkpoint(&self) -> Result<Option<Checkpoint>, NoMemory>
        requires { is_open self.now ≡ true }
        ensures made { IfOk result (λ o. o ≡ next_checkpoint_of (present_desk self.now)) }
        ensures start { IfOk result (MayStartFrom (table_of self.now)) }
    {
        match self {
            Console::Declaring { .. } => unreachable!(),
            Console::Open(desk) => desk.next_checkpoint(),
        }
    }

    /// Lets the history of the open desk begin from the checkpoint of its present state, and returns how many events it had.
    pub fn begin_from(&mut self, checkpoint: Checkpoint) -> u32
        requires open { is_open self.old ≡ true }
        requires taken { checkpoint ≡ present_checkpoint self.old }
        ensures count { result ≡ length (events_of self.old) }
        ensures begun { self.new ≡ with_checkpoint self.old }
    {
        match self {
            Console::Declaring { .. } => unreachable!(),
            Console::Open(desk) => desk.begin_from(checkpoint),
        }
    }

    /// Makes the checkpoint that the open desk was asked for, unless tickets could run out after it, and appends the answer.
    pub fn answer_checkpoint(&mut self, out: &mut String) -> Result<(), NoMemory>
        requires { is_open self.old ≡ true }
        ensures { TakesStep result self.new out.old out.new (asked_checkpoint_step self.old) }
    {
        match self {
            Console::Declaring { .. } => unreachable!(),
            Console::Open(desk) => desk.answer_checkpoint(out),
        }
    }

    /// Writes the events from the n-th on and how many there are, if the desk is open.
    pub fn write_later_events<W: Write>(
        &self,
        alloc: Global,
        writer: &mut W,
        n: u32,
    ) -> Result<(), WriteFault>
        ensures { WritesText result (W.contents writer.old) (W.contents writer.new)
            (later_events_of self.now n) }
    {
        match self {
            Console::Open(desk) => desk.write_later_events(alloc, writer, n),
            Console::Declaring { .. } => Ok(()),
        }
    }

    /// Writes the history, if the desk is open.
    pub fn write_history<W: Write>(&self, alloc: Global, writer: &mut W) -> Result<(), WriteFault>
        ensures { WritesText result (W.contents writer.old) (W.contents writer.new)
            (history_of self.now) }
    {
        match self {
            Console::Open(desk) => desk.write_history(alloc, writer),
            Console::Declaring { .. } => Ok(()),
        }
    }
}
