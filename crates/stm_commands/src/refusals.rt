//! What is printed if a command is refused.

ghost use Rattle.std.specs.Prelude.{◌≢◌, OnOk};
ghost use Rattle.stm_source.specs.OutOfMemory.{IsOutOfMemory};
ghost use Rattle.stm_commands.specs.Arguments.{argument_refused};
ghost use Rattle.stm_commands.specs.Refusals.{refused, refused_at, refused_variable, parse_fault_text, type_fault_text, declare_error_text, late_declare_error_text, label_error_text, submit_error_text, atomic_error_text, deliver_error_text, finish_error_text, cancel_error_text, refusal_text};
ghost use Rattle.stm_commands.specs.Printing.{Prints};

use std::alloc::AllocError;
use stm_check::TypeFault;
use stm_desk::{
    AtomicError, CancelError, DeliverError, FinishError, LabelError, LateDeclareError, SubmitError,
};
use stm_parse::ParseFault;
use stm_source::Refusal;
use stm_store::DeclareError;
use stm_terms::NoMemory;

/// Appends a refusal by its name.
#[tactic(auto, unfolding(crate::specs::Refusals::refused))]
pub fn refuse(name: &str, out: &mut String) -> Result<(), NoMemory>
    ensures { Prints result out.old out.new (refused name.now) }
{
    out.push_str("refused ")?;
    out.push_str(name)?;
    out.push_str("\n")
}

/// Appends that the argument is refused.
pub fn refuse_argument(out: &mut String) -> Result<(), NoMemory>
    ensures { Prints result out.old out.new argument_refused }
{
    refuse("Argument", out)
}

/// Appends a refusal by its name, with the place of its cause.
#[tactic(auto, unfolding(crate::specs::Refusals::refused_at))]
fn refuse_at(name: &str, place: usize, out: &mut String) -> Result<(), NoMemory>
    ensures { Prints result out.old out.new (refused_at name.now place) }
{
    write!(out, "refused {name} {place}\n")
}

/// Appends a refusal by its name, with the number of its variable.
#[tactic(auto, unfolding(crate::specs::Refusals::refused_variable))]
fn refuse_variable(name: &str, number: u32, out: &mut String) -> Result<(), NoMemory>
    ensures { Prints result out.old out.new (refused_variable name.now number) }
{
    write!(out, "refused {name} #{number}\n")
}

fn refuse_parse(fault: ParseFault, out: &mut String) -> Result<(), NoMemory>
    ensures text { Prints result out.old out.new (parse_fault_text fault) }
    ensures memory { OnOk result (fault ≢ ParseFault.NoMemory) }
{
    match fault {
        ParseFault::BadByte(place) => refuse_at("BadByte", place, out),
        ParseFault::BadNumber(place) => refuse_at("BadNumber", place, out),
        ParseFault::NameTooLong(place) => refuse_at("NameTooLong", place, out),
        ParseFault::Unexpected(place) => refuse_at("Unexpected", place, out),
        ParseFault::EndOfText => refuse("EndOfText", out),
        ParseFault::TooDeep => refuse("TooDeep", out),
        ParseFault::TooLarge => refuse("TooLarge", out),
        ParseFault::NoMemory => Err(AllocError),
    }
}

fn refuse_type(fault: TypeFault, out: &mut String) -> Result<(), NoMemory>
    ensures text { Prints result out.old out.new (type_fault_text fault) }
    ensures memory { OnOk result (fault ≢ TypeFault.NoMemory) }
{
    match fault {
        TypeFault::Unknown(place) => refuse_at("Unknown", place, out),
        TypeFault::Mismatch(place) => refuse_at("Mismatch", place, out),
        TypeFault::NotAVariable(place) => refuse_at("NotAVariable", place, out),
        TypeFault::Untyped(place) => refuse_at("Untyped", place, out),
        TypeFault::TypeTooDeep(place) => refuse_at("TypeTooDeep", place, out),
        TypeFault::NoMemory => Err(AllocError),
    }
}

fn refuse_declaration(error: DeclareError, out: &mut String) -> Result<(), NoMemory>
    ensures text { Prints result out.old out.new (declare_error_text error) }
    ensures memory { OnOk result (error ≢ DeclareError.NoMemory) }
{
    match error {
        DeclareError::Twice => refuse("Twice", out),
        DeclareError::TypeOfValue => refuse("TypeOfValue", out),
        DeclareError::TableFull => refuse("TableFull", out),
        DeclareError::NoMemory => Err(AllocError),
    }
}

/// Appends why a block or a declaration is refused. An out-of-memory error is no line of text: it is handed on.
pub fn write_refusal(refusal: Refusal, out: &mut String) -> Result<(), NoMemory>
    ensures text { Prints result out.old out.new (refusal_text refusal) }
    ensures memory { OnOk result (¬ IsOutOfMemory refusal) }
{
    match refusal {
        Refusal::Parsing(fault) => refuse_parse(fault, out),
        Refusal::Typing(fault) => refuse_type(fault, out),
        Refusal::Unknown(place) => refuse_at("Unknown", place, out),
        Refusal::Declaring(error) => refuse_declaration(error, out),
    }
}

/// Appends why a variable isn't declared on an open desk; an out-of-memory error is handed on.
pub fn refuse_late_declaration(error: LateDeclareError, out: &mut String) -> Result<(), NoMemory>
    ensures text { Prints result out.old out.new (late_declare_error_text error) }
    ensures memory { OnOk result (error ≢ LateDeclareError.NoMemory) }
{
    match error {
        LateDeclareError::Twice => refuse("Twice", out),
        LateDeclareError::TypeOfValue => refuse("TypeOfValue", out),
        LateDeclareError::HistoryFull => refuse("HistoryFull", out),
        LateDeclareError::CellsFull => refuse("CellsFull", out),
        LateDeclareError::NoMemory => Err(AllocError),
    }
}

/// Appends why a block doesn't get a label; an out-of-memory error is handed on.
pub fn refuse_label(error: LabelError, out: &mut String) -> Result<(), NoMemory>
    ensures text { Prints result out.old out.new (label_error_text error) }
    ensures memory { OnOk result (error ≢ LabelError.NoMemory) }
{
    match error {
        LabelError::NoTicket => refuse("NoTicket", out),
        LabelError::HistoryFull => refuse("HistoryFull", out),
        LabelError::NoMemory => Err(AllocError),
    }
}

/// Appends why a block isn't submitted; an out-of-memory error is handed on.
pub fn refuse_submit(error: SubmitError, out: &mut String) -> Result<(), NoMemory>
    ensures text { Prints result out.old out.new (submit_error_text error) }
    ensures memory { OnOk result (error ≢ SubmitError.NoMemory) }
{
    match error {
        SubmitError::Foreign(number) => refuse_variable("Foreign", number, out),
        SubmitError::WaitingFull => refuse("WaitingFull", out),
        SubmitError::HistoryFull => refuse("HistoryFull", out),
        SubmitError::NoMemory => Err(AllocError),
    }
}

/// Appends why a block isn't run atomically; an out-of-memory error is handed on.
pub fn refuse_atomically(error: AtomicError, out: &mut String) -> Result<(), NoMemory>
    ensures text { Prints result out.old out.new (atomic_error_text error) }
    ensures memory { OnOk result (error ≢ AtomicError.NoMemory) }
{
    match error {
        AtomicError::Foreign(number) => refuse_variable("Foreign", number, out),
        AtomicError::WaitingFull => refuse("WaitingFull", out),
        AtomicError::HistoryFull => refuse("HistoryFull", out),
        AtomicError::CellsFull => refuse("CellsFull", out),
        AtomicError::NoMemory => Err(AllocError),
    }
}

/// Appends why a verdict isn't delivered; an out-of-memory error is handed on.
pub fn refuse_delivery(error: DeliverError, out: &mut String) -> Result<(), NoMemory>
    ensures text { Prints result out.old out.new (deliver_error_text error) }
    ensures memory { OnOk result (error ≢ DeliverError.NoMemory) }
{
    match error {
        DeliverError::Gone => refuse("Gone", out),
        DeliverError::OtherBlock => refuse("OtherBlock", out),
        DeliverError::Already => refuse("Already", out),
        DeliverError::Overtaken(number) => refuse_variable("Overtaken", number, out),
        DeliverError::HistoryFull => refuse("HistoryFull", out),
        DeliverError::NoMemory => Err(AllocError),
    }
}

/// Appends why a block isn't finished; an out-of-memory error is handed on.
pub fn refuse_finish(error: FinishError, out: &mut String) -> Result<(), NoMemory>
    ensures text { Prints result out.old out.new (finish_error_text error) }
    ensures memory { OnOk result (error ≢ FinishError.NoMemory) }
{
    match error {
        FinishError::NoTicket => refuse("NoTicket", out),
        FinishError::NotEvaluated => refuse("NotEvaluated", out),
        FinishError::Stale => refuse("Stale", out),
        FinishError::Blocks => refuse("Blocks", out),
        FinishError::HistoryFull => refuse("HistoryFull", out),
        FinishError::CellsFull => refuse("CellsFull", out),
        FinishError::NoMemory => Err(AllocError),
    }
}

/// Appends why a block isn't cancelled; an out-of-memory error is handed on.
pub fn refuse_cancel(error: CancelError, out: &mut String) -> Result<(), NoMemory>
    ensures text { Prints result out.old out.new (cancel_error_text error) }
    ensures memory { OnOk result (error ≢ CancelError.NoMemory) }
{
    match error {
        CancelError::NoTicket => refuse("NoTicket", out),
        CancelError::HistoryFull => refuse("HistoryFull", out),
        CancelError::NoMemory => Err(AllocError),
    }
}
