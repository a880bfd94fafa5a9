//! Why a line of a script is faulty.

ghost use Rattle.std.specs.Prelude.{◌≡◌, OnOk};
ghost use Rattle.std.specs.Io.KnownBytes.{Appends};
ghost use Rattle.stm_script.specs.FaultText.{declare_error_name, parse_fault_name, parse_fault_place, reason_line, reason_name, reason_place, refusal_name, refusal_place, script_fault_lines, type_fault_name, type_fault_place};

use std::error::Error;
use std::fmt::{self, Display, Formatter};
use std::io::{self, Write};
use stm_check::TypeFault;
use stm_parse::ParseFault;
use stm_source::Refusal;
use stm_store::DeclareError;

/// Why a line of a script is faulty: the first reason that holds (docs/STORM.md, "Scripts").
#[derive(Clone, Copy, PartialEq, Eq, Debug)]
pub enum Reason {
    /// More than 65,536 bytes.
    LineTooLong,
    /// A byte over 127.
    NotAscii,
    /// A word that no line begins with.
    Command,
    /// Not the number of a `submit` before in the section, or an argument of `client`.
    Argument,
    /// A line that has to stand before the first section.
    Late,
    /// A line of a section before the first section, or a script without a section.
    NoClient,
    /// One more section than a script may have.
    ClientsFull,
    /// One more line than a script may have.
    ScriptTooLong,
    /// A block, a variable or an expectation that is refused.
    Refused(Refusal),
}

/// The first faulty line of a script: its number, counted from 1, and why it is faulty.
#[derive(Clone, Copy, PartialEq, Eq, Debug)]
pub struct ScriptFault {
    pub line: u32,
    pub reason: Reason,
}

impl Display for ScriptFault {
    ghost use Rattle.std.specs.Prelude.{Some};
    ghost use Rattle.stm_script.specs.FaultText.{script_fault_text};

    ghost output = { λ f. Some (script_fault_text f) };

    fn fmt<W: fmt::Write>(&self, f: &mut Formatter<W>) -> fmt::Result {
        let line = self.line;
        write!(f, "stmdesk: script line {line}")
    }
}

impl Error for ScriptFault {}

fn parse_name(fault: ParseFault) -> &'static str
    ensures { result.now ≡ parse_fault_name fault }
{
    match fault {
        ParseFault::BadByte(_) => "BadByte",
        ParseFault::BadNumber(_) => "BadNumber",
        ParseFault::NameTooLong(_) => "NameTooLong",
        ParseFault::Unexpected(_) => "Unexpected",
        ParseFault::EndOfText => "EndOfText",
        ParseFault::TooDeep => "TooDeep",
        ParseFault::TooLarge => "TooLarge",
        ParseFault::NoMemory => "NoMemory",
    }
}

fn parse_place(fault: ParseFault) -> Option<usize>
    ensures { result ≡ parse_fault_place fault }
{
    match fault {
        ParseFault::BadByte(place) => Some(place),
        ParseFault::BadNumber(place) => Some(place),
        ParseFault::NameTooLong(place) => Some(place),
        ParseFault::Unexpected(place) => Some(place),
        ParseFault::EndOfText => None,
        ParseFault::TooDeep => None,
        ParseFault::TooLarge => None,
        ParseFault::NoMemory => None,
    }
}

fn type_name(fault: TypeFault) -> &'static str
    ensures { result.now ≡ type_fault_name fault }
{
    match fault {
        TypeFault::Unknown(_) => "Unknown",
        TypeFault::Mismatch(_) => "Mismatch",
        TypeFault::NotAVariable(_) => "NotAVariable",
        TypeFault::Untyped(_) => "Untyped",
        TypeFault::TypeTooDeep(_) => "TypeTooDeep",
        TypeFault::NoMemory => "NoMemory",
    }
}

fn type_place(fault: TypeFault) -> Option<usize>
    ensures { result ≡ type_fault_place fault }
{
    match fault {
        TypeFault::Unknown(place) => Some(place),
        TypeFault::Mismatch(place) => Some(place),
        TypeFault::NotAVariable(place) => Some(place),
        TypeFault::Untyped(place) => Some(place),
        TypeFault::TypeTooDeep(place) => Some(place),
        TypeFault::NoMemory => None,
    }
}

fn declare_name(error: DeclareError) -> &'static str
    ensures { result.now ≡ declare_error_name error }
{
    match error {
        DeclareError::Twice => "Twice",
        DeclareError::TypeOfValue => "TypeOfValue",
        DeclareError::TableFull => "TableFull",
        DeclareError::NoMemory => "NoMemory",
    }
}

fn name_of_refusal(refusal: Refusal) -> &'static str
    ensures { result.now ≡ refusal_name refusal }
{
    match refusal {
        Refusal::Parsing(fault) => parse_name(fault),
        Refusal::Typing(fault) => type_name(fault),
        Refusal::Unknown(_) => "Unknown",
        Refusal::Declaring(error) => declare_name(error),
    }
}

fn place_of_refusal(refusal: Refusal) -> Option<usize>
    ensures { result ≡ refusal_place refusal }
{
    match refusal {
        Refusal::Parsing(fault) => parse_place(fault),
        Refusal::Typing(fault) => type_place(fault),
        Refusal::Unknown(place) => Some(place),
        Refusal::Declaring(_) => None,
    }
}

impl Reason {
    /// The name of the reason; that of a block or a variable is the console's (docs/CONSOLE.md).
    pub fn name(self) -> &'static str
        ensures { result.now ≡ reason_name self }
    {
        match self {
            Reason::LineTooLong => "LineTooLong",
            Reason::NotAscii => "NotAscii",
            Reason::Command => "Command",
            Reason::Argument => "Argument",
            Reason::Late => "Late",
            Reason::NoClient => "no client",
            Reason::ClientsFull => "ClientsFull",
            Reason::ScriptTooLong => "ScriptTooLong",
            Reason::Refused(refusal) => name_of_refusal(refusal),
        }
    }

    /// The place of the cause, in bytes from 0 in the line's argument; none if the reason has none.
    pub fn place(self) -> Option<usize>
        ensures { result ≡ reason_place self }
    {
        match self {
            Reason::Refused(refusal) => place_of_refusal(refusal),
            _ => None,
        }
    }
}

/// Writes the line of a fault with the name and the place of its reason.
fn write_reason<W: Write>(
    fault: ScriptFault,
    name: &str,
    place: Option<usize>,
    writer: &mut W,
) -> io::Result<()>
    ensures { OnOk result (Appends (W.contents writer.old) (W.contents writer.new)
        (reason_line fault name.now place)) }
{
    match place {
        Some(place) => writeln!(writer, "{fault}: {name} {place}"),
        None => writeln!(writer, "{fault}: {name}"),
    }
}

/// Writes two lines: which line of a script is faulty, and that again with the reason and its place. After an error a part of the lines may
/// be written.
pub fn write_script_fault<W: Write>(fault: ScriptFault, writer: &mut W) -> io::Result<()>
    ensures { OnOk result (Appends (W.contents writer.old) (W.contents writer.new)
        (script_fault_lines fault)) }
{
    writeln!(writer, "{fault}")?;
    write_reason(fault, fault.reason.name(), fault.reason.place(), writer)
}
