//! Blocks from their texts.

ghost use Rattle.std.specs.Prelude.{◌≡◌, IfOk, Result};
ghost use Rattle.stm_check.specs.TypedBlock.{Block};
ghost use Rattle.stm_source.specs.CompiledBlock.{compiled_block, block_if_any, block_of_text, CompilesTo, UsesAreNamed};
ghost use Rattle.stm_source.specs.declared.refusal.Refusal.{Refusal};

use crate::refusal::Refusal;
use std::alloc::Global;
use stm_check::{SharedBlock, TypeFault, Typed, check};
use stm_one_pass::block_in_one_pass;
use stm_parse::{ParseFault, lexed, parse_tokens};
use stm_store::{DeclareError, Names};
use stm_terms::NoMemory;

// A block is moved by value; a call that isn't inlined copies it.
/// The block of a text. Each store that has the named variables has those that it names.
#[inline(always)]
#[tactic(auto, unfolding(crate::specs::CompiledBlock::compiled_block))]
pub fn compile_block(alloc: Global, known: &Names, text: &str) -> Result<Typed, Refusal>
    ensures block { CompilesTo result (compiled_block known.now text.now) }
    ensures covered { IfOk result (UsesAreNamed known.now) }
{
    let toks = lexed(alloc, text)?;
    // A text that is refused, or lacks memory, goes by the parser and the check, which say why.
    if let Some(block) = block_in_one_pass(alloc, known, text, &toks) {
        return Ok(block);
    }
    let raw = parse_tokens(alloc, text, &toks)?;
    let block = check(alloc, known, raw)?;
    Ok(block)
}

/// The block of a text, which many may hold.
pub fn compile_shared(alloc: Global, known: &Names, text: &str) -> Result<SharedBlock, Refusal>
    ensures block { CompilesTo result (compiled_block known.now text.now) }
    ensures covered { IfOk result (UsesAreNamed known.now) }
{
    let block = compile_block(alloc, known, text)?;
    match SharedBlock::new(alloc, block) {
        Ok(block) => Ok(block),
        Err(_) => Err(Refusal::Parsing(ParseFault::NoMemory)),
    }
}

/// The block, or none if its text is refused.
pub(crate) fn unless_refused(
    block: Result<SharedBlock, Refusal>,
) -> Result<Option<SharedBlock>, NoMemory>
    ensures { (r : Result Block Refusal) → CompilesTo block r
        → IfOk result (λ o. o ≡ block_if_any r) }
{
    match block {
        Ok(block) => Ok(Some(block)),
        Err(Refusal::Parsing(ParseFault::NoMemory)) => Err(NoMemory),
        Err(Refusal::Typing(TypeFault::NoMemory)) => Err(NoMemory),
        Err(Refusal::Declaring(DeclareError::NoMemory)) => Err(NoMemory),
        Err(_) => Ok(None),
    }
}

/// The block of a text, which many may hold; none if the text is refused.
pub fn block_of(alloc: Global, known: &Names, text: &str) -> Result<Option<SharedBlock>, NoMemory>
    ensures { IfOk result (λ o. o ≡ block_of_text known.now text.now) }
{
    unless_refused(compile_shared(alloc, known, text))
}
