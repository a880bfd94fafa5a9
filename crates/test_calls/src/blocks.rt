//! Texts of blocks, checked over names of variables.

use crate::words::say;
use std::alloc::{AllocError, Global};
use std::fmt::Write;
use stm_check::{SharedBlock, TypeFault, Typed, check};
use stm_parse::{ParseFault, Token, parse_block, tokens};
use stm_store::Names;
use stm_terms::Raw;

/// Prints an error of the grammar.
pub fn say_parse_fault(fault: ParseFault, out: &mut String) -> Result<(), AllocError> {
    match fault {
        ParseFault::NoMemory => Err(AllocError),
        _ => writeln!(out, "refused {fault:?}"),
    }
}

fn checked(
    alloc: Global,
    names: &Names,
    raw: Raw,
    out: &mut String,
) -> Result<Option<Typed>, AllocError> {
    match check(alloc, names, raw) {
        Ok(block) => Ok(Some(block)),
        Err(TypeFault::NoMemory) => Err(AllocError),
        Err(fault) => {
            writeln!(out, "refused {fault:?}")?;
            Ok(None)
        }
    }
}

/// The block of a text; if there is none, the error is printed.
fn typed(
    alloc: Global,
    names: &Names,
    text: &str,
    out: &mut String,
) -> Result<Option<Typed>, AllocError> {
    match parse_block(alloc, text) {
        Ok(raw) => checked(alloc, names, raw, out),
        Err(fault) => {
            say_parse_fault(fault, out)?;
            Ok(None)
        }
    }
}

/// The same as a block that many may hold.
pub fn block_of(
    alloc: Global,
    names: &Names,
    text: &str,
    out: &mut String,
) -> Result<Option<SharedBlock>, AllocError> {
    match typed(alloc, names, text, out)? {
        Some(block) => Ok(Some(SharedBlock::new(alloc, block)?)),
        None => Ok(None),
    }
}

fn say_tokens(tokens: &[Token], out: &mut String) -> Result<(), AllocError> {
    out.push_str("tokens")?;
    for token in tokens {
        write!(out, " {}..{}", token.start, token.end)?;
    }
    say("", out)
}

/// Prints where the tokens of a text are.
pub fn answer_tokens(alloc: Global, text: &str, out: &mut String) -> Result<(), AllocError> {
    match tokens(alloc, text) {
        Ok(tokens) => say_tokens(tokens.as_slice(), out),
        Err(fault) => say_parse_fault(fault, out),
    }
}
