//! Lines of events, read in one pass from the front as they are written, each key in its place.
//!
//! What is read of any other line is no draft, and neither is an event that makes variables, declares one or gives a label. A draft says
//! nothing until the text of its event is compared with the line, so these functions need no clauses.

use memchr::memchr;
use std::alloc::Global;
use stm_parse::bytes::{number_len, number_of};
use stm_terms::values::{Ref, Value};

/// What a commit wrote and returned, or that a block waits.
#[derive(Drop)]
pub enum DraftVerdict {
    Commits {
        writes: Vec<(u32, Value)>,
        result: Value,
    },
    Blocks,
}

/// An event as its line says it, with its block as a text.
#[derive(Drop)]
pub enum Draft<'a> {
    Submitted {
        block: &'a str,
        client: u32,
        ticket: u32,
    },
    Installed {
        client: u32,
        ticket: u32,
        verdict: DraftVerdict,
    },
    Finished {
        client: u32,
        first_new: u32,
        stale: Vec<u32>,
        ticket: u32,
        verdict: DraftVerdict,
    },
    Cancelled {
        client: u32,
        ticket: u32,
    },
}

/// A number without a sign, and the bytes after it.
fn natural(bytes: &[u8]) -> Option<(u64, &[u8])> {
    let (digits, rest) = bytes.split_at_checked(number_len(bytes))?;
    if digits.is_empty() {
        return None;
    }
    Some((number_of(digits)?, rest))
}

fn number(bytes: &[u8]) -> Option<(u32, &[u8])> {
    let (number, rest) = natural(bytes)?;
    if number <= u32::MAX as u64 {
        Some((number as u32, rest))
    } else {
        None
    }
}

fn integer(bytes: &[u8]) -> Option<(Value, &[u8])> {
    let (number, rest) = natural(bytes)?;
    if number <= i64::MAX as u64 {
        Some((Value::Int(number as i64), rest))
    } else {
        None
    }
}

fn negative(bytes: &[u8]) -> Option<(Value, &[u8])> {
    let (number, rest) = natural(bytes)?;
    if number <= i64::MAX as u64 {
        Some((Value::Int(-(number as i64)), rest))
    } else {
        None
    }
}

/// A reference to a variable, after its number's key.
fn reference(bytes: &[u8]) -> Option<(Value, &[u8])> {
    let (id, rest) = number(bytes)?;
    Some((Value::Var(Ref::Old(id)), rest.strip_prefix(b"}")?))
}

fn value(bytes: &[u8]) -> Option<(Value, &[u8])> {
    match bytes.first()? {
        b'n' => Some((Value::Unit, bytes.strip_prefix(b"null")?)),
        b't' => Some((Value::Bool(true), bytes.strip_prefix(b"true")?)),
        b'f' => Some((Value::Bool(false), bytes.strip_prefix(b"false")?)),
        b'-' => negative(bytes.strip_prefix(b"-")?),
        b'{' => reference(bytes.strip_prefix(b"{\"old\":")?),
        _ => integer(bytes),
    }
}

fn write(bytes: &[u8]) -> Option<((u32, Value), &[u8])> {
    let (id, rest) = number(bytes.strip_prefix(b"[")?)?;
    let (written, rest) = value(rest.strip_prefix(b",")?)?;
    Some(((id, written), rest.strip_prefix(b"]")?))
}

/// Adds the writes of a list, from after its bracket on, to those that are there. Returns the bytes after the list.
fn take_writes<'a>(bytes: &'a [u8], writes: &mut Vec<(u32, Value)>) -> Option<&'a [u8]> {
    if let Some(rest) = bytes.strip_prefix(b"]") {
        return Some(rest);
    }
    let mut rest = bytes;
    for _ in 0..bytes.len() {
        let (one, after) = write(rest)?;
        writes.push(one).ok()?;
        match after.split_first()? {
            (b',', more) => rest = more,
            (b']', more) => return Some(more),
            _ => return None,
        }
    }
    None
}

/// Adds the numbers of a list, from after its bracket on, to those that are there. Returns the bytes after the list.
fn take_numbers<'a>(bytes: &'a [u8], numbers: &mut Vec<u32>) -> Option<&'a [u8]> {
    if let Some(rest) = bytes.strip_prefix(b"]") {
        return Some(rest);
    }
    let mut rest = bytes;
    for _ in 0..bytes.len() {
        let (one, after) = number(rest)?;
        numbers.push(one).ok()?;
        match after.split_first()? {
            (b',', more) => rest = more,
            (b']', more) => return Some(more),
            _ => return None,
        }
    }
    None
}

/// Takes a commit that made no variable, up to the end of the line, and adds its writes to those that are there. Returns its result.
fn take_commit(bytes: &[u8], writes: &mut Vec<(u32, Value)>) -> Option<Value> {
    let (result, rest) = value(bytes.strip_prefix(b"{\"commits\":{\"news\":[],\"result\":")?)?;
    let rest = take_writes(rest.strip_prefix(b",\"writes\":[")?, writes)?;
    match rest {
        b"}}}" => Some(result),
        _ => None,
    }
}

/// A verdict at the end of a line.
fn last_verdict(alloc: Global, bytes: &[u8]) -> Option<DraftVerdict> {
    let bytes = bytes.strip_prefix(b",\"verdict\":")?;
    match bytes {
        b"\"blocks\"}" => Some(DraftVerdict::Blocks),
        _ => {
            let mut writes = Vec::new(alloc);
            let result = take_commit(bytes, &mut writes)?;
            Some(DraftVerdict::Commits { writes, result })
        }
    }
}

/// After the quotation mark before the text of a block.
fn submitted(bytes: &[u8]) -> Option<Draft<'_>> {
    let (text, rest) = bytes.split_at_checked(memchr(b'"', bytes)?)?;
    let (client, rest) = number(rest.strip_prefix(b"\",\"client\":")?)?;
    let (ticket, rest) = number(rest.strip_prefix(b",\"event\":\"submitted\",\"ticket\":")?)?;
    match rest {
        b"}" => Some(Draft::Submitted {
            block: str::from_utf8(text).ok()?,
            client,
            ticket,
        }),
        _ => None,
    }
}

/// After the kind of the event and the key of its ticket.
fn installed<'a>(alloc: Global, client: u32, bytes: &[u8]) -> Option<Draft<'a>> {
    let (ticket, rest) = number(bytes)?;
    Some(Draft::Installed {
        client,
        ticket,
        verdict: last_verdict(alloc, rest)?,
    })
}

/// After the kind of the event and the key of the first new variable's number.
fn finished<'a>(alloc: Global, client: u32, bytes: &[u8]) -> Option<Draft<'a>> {
    let (first_new, rest) = number(bytes)?;
    let mut stale = Vec::new(alloc);
    let rest = take_numbers(rest.strip_prefix(b",\"stale\":[")?, &mut stale)?;
    let (ticket, rest) = number(rest.strip_prefix(b",\"ticket\":")?)?;
    Some(Draft::Finished {
        client,
        first_new,
        stale,
        ticket,
        verdict: last_verdict(alloc, rest)?,
    })
}

/// After the kind of the event and the key of its ticket.
fn cancelled<'a>(client: u32, bytes: &[u8]) -> Option<Draft<'a>> {
    let (ticket, rest) = number(bytes)?;
    match rest {
        b"}" => Some(Draft::Cancelled { client, ticket }),
        _ => None,
    }
}

/// After the key of the client.
fn by_client<'a>(alloc: Global, bytes: &[u8]) -> Option<Draft<'a>> {
    let (client, rest) = number(bytes)?;
    let rest = rest.strip_prefix(b",\"event\":\"")?;
    if let Some(rest) = rest.strip_prefix(b"installed\",\"ticket\":") {
        installed(alloc, client, rest)
    } else if let Some(rest) = rest.strip_prefix(b"finished\",\"first_new\":") {
        finished(alloc, client, rest)
    } else {
        cancelled(client, rest.strip_prefix(b"cancelled\",\"ticket\":")?)
    }
}

/// The draft of a line, if it can be read.
pub(crate) fn draft_of(alloc: Global, line: &[u8]) -> Option<Draft<'_>> {
    if let Some(rest) = line.strip_prefix(b"{\"block\":\"") {
        submitted(rest)
    } else {
        by_client(alloc, line.strip_prefix(b"{\"client\":")?)
    }
}
