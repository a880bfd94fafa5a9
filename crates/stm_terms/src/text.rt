//! The printed text of values, types and verdicts, appended to a `String`.
ghost use Rattle.std.specs.Prelude.{string_bytes, decimal};
ghost use Rattle.std.specs.Fmt.{signed_decimal};
ghost use Rattle.stm_terms.specs.Texts.{AppendsText, spaced, ref_text, value_text, base_text, type_text, refs_text, write_text, new_text, list_text, fault_text, changes_text, result_text, commits_text, verdict_text};

use crate::NoMemory;
use crate::kinds::{Base, Ty};
use crate::values::{Fault, Ref, Value};
use crate::verdicts::Verdict;
use itoa::Buffer;

/// Appends a number in decimal.
pub fn write_number(number: u32, out: &mut String) -> Result<(), NoMemory>
    ensures { AppendsText result (string_bytes out.old) (string_bytes out.new) (decimal number) }
{
    let mut buffer = Buffer::new();
    out.push_str(buffer.format(number))
}

/// Appends a signed number in decimal.
fn write_int(number: i64, out: &mut String) -> Result<(), NoMemory>
    ensures { AppendsText result (string_bytes out.old) (string_bytes out.new)
        (signed_decimal number) }
{
    let mut buffer = Buffer::new();
    out.push_str(buffer.format(number))
}

/// Appends a reference.
fn write_ref(reference: Ref, out: &mut String) -> Result<(), NoMemory>
    ensures { AppendsText result (string_bytes out.old) (string_bytes out.new)
        (ref_text reference) }
{
    match reference {
        Ref::Old(number) => {
            out.push_str("#")?;
            write_number(number, out)
        }
        Ref::New(number) => {
            out.push_str("new")?;
            write_number(number, out)
        }
    }
}

/// Appends a value.
pub fn write_value(value: Value, out: &mut String) -> Result<(), NoMemory>
    ensures { AppendsText result (string_bytes out.old) (string_bytes out.new) (value_text value) }
{
    match value {
        Value::Int(number) => write_int(number, out),
        Value::Bool(true) => out.push_str("True"),
        Value::Bool(false) => out.push_str("False"),
        Value::Unit => out.push_str("()"),
        Value::Var(reference) => write_ref(reference, out),
    }
}

fn write_base(base: Base, out: &mut String) -> Result<(), NoMemory>
    ensures { AppendsText result (string_bytes out.old) (string_bytes out.new) (base_text base) }
{
    match base {
        Base::Int => out.push_str("Int"),
        Base::Bool => out.push_str("Bool"),
        Base::Unit => out.push_str("()"),
    }
}

/// Appends the given number of `TVar` around a base.
fn write_refs(base: Base, refs: u8, out: &mut String) -> Result<(), NoMemory>
    ensures { AppendsText result (string_bytes out.old) (string_bytes out.new)
        (refs_text base refs) }
{
    match refs {
        0 => write_base(base, out),
        1 => {
            out.push_str("TVar ")?;
            write_base(base, out)
        }
        _ => {
            out.push_str("TVar (")?;
            write_refs(base, refs - 1, out)?;
            out.push_str(")")
        }
    }
}

/// Appends a type, as `TVar Int`.
pub fn write_type(ty: Ty, out: &mut String) -> Result<(), NoMemory>
    ensures { AppendsText result (string_bytes out.old) (string_bytes out.new) (type_text ty) }
{
    write_refs(ty.base, ty.refs, out)
}

/// Appends a write of a verdict, as `#0=2`.
fn write_write(write: &(u32, Value), out: &mut String) -> Result<(), NoMemory>
    ensures { AppendsText result (string_bytes out.old) (string_bytes out.new)
        (write_text write.now) }
{
    out.push_str("#")?;
    write_number(write.0, out)?;
    out.push_str("=")?;
    write_value(write.1, out)
}

/// Appends writes, each after a space.
fn write_spaced(writes: &[(u32, Value)], out: &mut String) -> Result<(), NoMemory>
    ensures { AppendsText result (string_bytes out.old) (string_bytes out.new)
        (spaced write_text writes.now) }
{
    for write in writes {
        out.push_str(" ")?;
        write_write(write, out)?;
    }
    Ok(())
}

/// Appends variables with their values, as `#0=2 #3=True`: the writes of a verdict, or what a block read.
pub fn write_writes(writes: &[(u32, Value)], out: &mut String) -> Result<(), NoMemory>
    ensures { AppendsText result (string_bytes out.old) (string_bytes out.new)
        (list_text write_text writes.now) }
{
    match writes {
        [] => out.push_str("none"),
        [first, rest @ ..] => {
            write_write(first, out)?;
            write_spaced(rest, out)
        }
    }
}

fn write_fault(fault: Fault, out: &mut String) -> Result<(), NoMemory>
    ensures { AppendsText result (string_bytes out.old) (string_bytes out.new) (fault_text fault) }
{
    match fault {
        Fault::Thrown(number) => write_int(number, out),
        Fault::Overflow => out.push_str("overflow"),
    }
}

/// Appends the values of new variables, each after a space.
fn write_news_spaced(news: &[(Ty, Value)], out: &mut String) -> Result<(), NoMemory>
    ensures { AppendsText result (string_bytes out.old) (string_bytes out.new)
        (spaced new_text news.now) }
{
    for new in news {
        out.push_str(" ")?;
        write_value(new.1, out)?;
    }
    Ok(())
}

/// Appends the values of new variables.
fn write_news(news: &[(Ty, Value)], out: &mut String) -> Result<(), NoMemory>
    ensures { AppendsText result (string_bytes out.old) (string_bytes out.new)
        (list_text new_text news.now) }
{
    match news {
        [] => out.push_str("none"),
        [first, rest @ ..] => {
            write_value(first.1, out)?;
            write_news_spaced(rest, out)
        }
    }
}

/// Appends what a commit writes and makes.
#[tactic(auto, unfolding(crate::specs::Texts::changes_text))]
fn write_changes(
    writes: &[(u32, Value)],
    news: &[(Ty, Value)],
    out: &mut String,
) -> Result<(), NoMemory>
    ensures { AppendsText result (string_bytes out.old) (string_bytes out.new)
        (changes_text writes.now news.now) }
{
    write_writes(writes, out)?;
    out.push_str(" news ")?;
    write_news(news, out)
}

/// Appends a result.
#[tactic(auto, unfolding(crate::specs::Texts::result_text))]
fn write_result(value: Value, out: &mut String) -> Result<(), NoMemory>
    ensures { AppendsText result (string_bytes out.old) (string_bytes out.new) (result_text value) }
{
    out.push_str(" result ")?;
    write_value(value, out)
}

/// Appends a commit.
fn write_commit(
    writes: &[(u32, Value)],
    news: &[(Ty, Value)],
    value: Value,
    out: &mut String,
) -> Result<(), NoMemory>
    ensures { AppendsText result (string_bytes out.old) (string_bytes out.new)
        (commits_text writes.now news.now value) }
{
    out.push_str("commits writes ")?;
    write_changes(writes, news, out)?;
    write_result(value, out)
}

/// Appends a verdict, as `commits writes #0=2 news none result 1`, `throws 4` or `blocks`.
///
/// After `NoMemory` a part of the text from its front was appended.
pub fn write_verdict(verdict: &Verdict, out: &mut String) -> Result<(), NoMemory>
    ensures { AppendsText result (string_bytes out.old) (string_bytes out.new)
        (verdict_text verdict.now) }
{
    match verdict {
        Verdict::Commits {
            writes,
            news,
            result,
        } => write_commit(writes.as_slice(), news.as_slice(), *result, out),
        Verdict::Throws(fault) => {
            out.push_str("throws ")?;
            write_fault(*fault, out)
        }
        Verdict::Blocks => out.push_str("blocks"),
    }
}
