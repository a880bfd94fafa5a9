//! Blocks that were checked before, kept by their texts.

ghost use Rattle.std.specs.Prelude.{◌≡◌, ◌<◌, ◌↔◌, List, IsTrue, IfOk, IfErr, IfSome};
ghost use Rattle.std.specs.Option.{option_copied};
ghost use Rattle.stm_store.specs.Naming.{Named};
ghost use Rattle.stm_source.specs.CompiledBlock.{compiled_block, block_of_text, CompilesTo, UsesAreNamed};
ghost use Rattle.stm_source.specs.OutOfMemory.{IsOutOfMemory};
ghost use Rattle.stm_source.specs.BlockCache.{IsBlockOf, ArePrepared};
ghost use Rattle.stm_source.specs.LaterNames.{NamesFollow};

use crate::block::{compile_shared, unless_refused};
use crate::refusal::Refusal;
use std::alloc::Global;
use std::hash::{FoldHasher, Hasher};
use std::marker::Model;
use std::snapshot::Snapshot;
use stm_check::SharedBlock;
use stm_parse::ParseFault;
use stm_store::Names;
use stm_terms::NoMemory;

/// How many places the block of a text may have, and how many such groups of places there are.
const WAYS: usize = 4;

const GROUPS: usize = 256;

/// How many blocks are kept.
const PLACES: usize = GROUPS * WAYS;

/// How many bytes the texts of all kept blocks may have.
const MOST_BYTES: usize = 1_048_576;

/// The hash of a text. It takes 16 bytes at a time.
fn hash_of(text: &str) -> u64 {
    let mut hasher = FoldHasher::default();
    hasher.write(text.as_bytes());
    hasher.finish()
}

/// The first of the places that the block of a text may have, by its hash.
fn first_way(hash: u64) -> usize
    ensures { result < PLACES }
{
    (hash >> 40) as usize % GROUPS * WAYS
}

/// Whether this hash is noted among those of its group.
fn is_noted(hashes: &[u64], first: usize, hash: u64) -> bool
    requires { first < PLACES }
{
    for place in first..first + WAYS {
        if place < hashes.len() && hashes[place] == hash {
            return true;
        }
    }
    false
}

/// Notes a hash as the last of its group. The one that was noted longest ago goes.
fn note(hashes: &mut [u64], first: usize, hash: u64)
    requires { first < PLACES }
{
    let mut newer = hash;
    for place in first..first + WAYS {
        if place < hashes.len() {
            let older = hashes[place];
            hashes[place] = newer;
            newer = older;
        }
    }
}

/// Whether this hash is one of the last that were noted of its group; if not, it is noted. So a text that comes only once takes no place
/// from one that comes again.
fn comes_again(hashes: &mut [u64], first: usize, hash: u64) -> bool
    requires { first < PLACES }
{
    if is_noted(hashes, first, hash) {
        return true;
    }
    note(hashes, first, hash);
    false
}

fn same_text(one: &str, other: &str) -> bool
    ensures { IsTrue result ↔ (one.now ≡ other.now) }
{
    one == other
}

/// As many places as there are, with no block.
fn no_blocks(alloc: Global) -> Result<Vec<Option<SharedBlock>>, NoMemory>
    ensures { IfOk result (λ made. (known : List Named) → ArePrepared known made.items) }
{
    let mut made = Vec::with_capacity(alloc, PLACES)?;
    for _place in 0..PLACES {
        made.push(None)?;
    }
    Ok(made)
}

/// The block at a place, if it is that of the text.
fn block_at<'a>(
    blocks: &'a [Option<SharedBlock>],
    place: usize,
    text: &str,
) -> Option<&'a SharedBlock>
    ensures { (known : List Named) → ArePrepared known blocks.now
        → IfSome (option_copied result) (λ b. IsBlockOf known text.now b) }
{
    if place >= blocks.len() {
        return None;
    }
    match &blocks[place] {
        Some(block) => {
            if same_text(block.block().text(), text) {
                return Some(block);
            }
            None
        }
        None => None,
    }
}

/// The block of a text, if one of its places has it.
fn kept_block<'a>(
    blocks: &'a [Option<SharedBlock>],
    first: usize,
    text: &str,
) -> Option<&'a SharedBlock>
    requires { first < PLACES }
    ensures { (known : List Named) → ArePrepared known blocks.now
        → IfSome (option_copied result) (λ b. IsBlockOf known text.now b) }
{
    for place in first..first + WAYS {
        if let Some(block) = block_at(blocks, place, text) {
            return Some(block);
        }
    }
    None
}

/// How many bytes the text of the block at a place has; nothing if there is none.
fn bytes_at(blocks: &[Option<SharedBlock>], place: usize) -> Option<usize> {
    if place >= blocks.len() {
        return None;
    }
    match &blocks[place] {
        Some(block) => Some(block.block().text().len()),
        None => None,
    }
}

/// The place for a block: a free one of its places, or else one by its hash, whose block goes.
fn place_for(blocks: &[Option<SharedBlock>], first: usize, hash: u64) -> usize
    requires { first < PLACES }
{
    for place in first..first + WAYS {
        if bytes_at(blocks, place).is_none() {
            return place;
        }
    }
    first + (hash >> 32) as usize % WAYS
}

/// Drops all blocks.
fn forget(blocks: &mut [Option<SharedBlock>])
    ensures { (known : List Named) → ArePrepared known blocks.old → ArePrepared known blocks.new }
{
    for place in 0..blocks.len() {
        blocks[place] = None;
    }
}

/// Makes room for a text in the place of the block there: if the texts have too many bytes then, all blocks are dropped.
fn make_room(blocks: &mut [Option<SharedBlock>], bytes: &mut usize, place: usize, len: usize)
    ensures { (known : List Named) → ArePrepared known blocks.old → ArePrepared known blocks.new }
{
    let gone = bytes_at(blocks, place).unwrap_or(0);
    *bytes = bytes.saturating_sub(gone).saturating_add(len);
    if *bytes > MOST_BYTES {
        forget(blocks);
        *bytes = len;
    }
}

/// Puts a block at a place, unless memory runs out.
fn put(blocks: &mut [Option<SharedBlock>], place: usize, block: &SharedBlock)
    ensures { (known : List Named) → ArePrepared known blocks.old
        → IsBlockOf known block.now.text block.now → ArePrepared known blocks.new }
{
    if place >= blocks.len() {
        return;
    }
    if let Ok(block) = block.share() {
        blocks[place] = Some(block);
    }
}

/// Keeps a block whose text has this hash, at one of the places from the first on, if its text comes again.
fn keep(
    blocks: &mut [Option<SharedBlock>],
    bytes: &mut usize,
    first: usize,
    hash: u64,
    block: &SharedBlock,
    again: bool,
)
    requires { first < PLACES }
    ensures { (known : List Named) → ArePrepared known blocks.old
        → IsBlockOf known block.now.text block.now → ArePrepared known blocks.new }
{
    if !again {
        return;
    }
    let place = place_for(blocks, first, hash);
    make_room(blocks, bytes, place, block.block().text().len());
    put(blocks, place, block);
}

/// One more hold on a block.
fn share_block(block: &SharedBlock) -> Result<SharedBlock, Refusal>
    ensures same { IfOk result (λ b. b ≡ block.now) }
    ensures memory { IfErr result IsOutOfMemory }
{
    match block.share() {
        Ok(block) => Ok(block),
        Err(_) => Err(Refusal::Parsing(ParseFault::NoMemory)),
    }
}

/// The block of a text, from those that are kept or new. If its text comes again it is kept from now on.
fn prepared_block(
    alloc: Global,
    known: &Names,
    text: &str,
    blocks: &mut [Option<SharedBlock>],
    hashes: &mut [u64],
    bytes: &mut usize,
) -> Result<SharedBlock, Refusal>
    requires { ArePrepared known.now blocks.old }
    ensures kept { ArePrepared known.now blocks.new }
    ensures block { CompilesTo result (compiled_block known.now text.now) }
    ensures covered { IfOk result (UsesAreNamed known.now) }
{
    let hash = hash_of(text);
    let first = first_way(hash);
    if let Some(block) = kept_block(blocks, first, text) {
        return share_block(block);
    }
    let block = compile_shared(alloc, known, text)?;
    let again = comes_again(hashes, first, hash);
    keep(blocks, bytes, first, hash, &block, again);
    Ok(block)
}

/// The last blocks that were asked for twice, how many bytes their texts have, and the hashes of the last texts of each group of places.
/// A text that is refused is not kept, so names that are declared later leave each kept block the block of its text. Contracts see the
/// names over which they were checked last.
pub struct BlockCache {
    known: Snapshot<Names>,
    blocks: Vec<Option<SharedBlock>>,
    hashes: Vec<u64>,
    bytes: usize,
}

// Written out, and not derived, so that the proof of each owner calls it once.
impl Drop for BlockCache {
    fn drop(self) {
        let BlockCache {
            known: _,
            blocks: _,
            hashes: _,
            bytes: _,
        } = self;
    }
}

impl Model for BlockCache {
    ghost use Rattle.std.specs.Prelude.{List};
    ghost use Rattle.stm_store.specs.Naming.{Named};
    ghost use Rattle.stm_source.specs.BlockCache.{ArePrepared};

    ghost Value = { List Named };

    ghost view = { λ p. p.known.value };

    ghost invariant = { λ p. ArePrepared p.known.value p.blocks.items };
}

impl BlockCache {
    /// A cache over these names. It keeps no block yet, and no clause says so.
    pub fn new(alloc: Global, known: &Names) -> Result<BlockCache, NoMemory>
        ensures { IfOk result (λ p. p ≡ known.now) }
    {
        Ok(BlockCache {
            known: Snapshot::of(known),
            blocks: no_blocks(alloc)?,
            hashes: vec![in alloc; 0u64; PLACES]?,
            bytes: 0,
        })
    }

    /// From now on these names are known, which come after those that were known before.
    pub fn follow(&mut self, known: &Names)
        requires { NamesFollow self.old known.now }
        ensures { self.new ≡ known.now }
    {
        self.known = Snapshot::of(known);
    }

    /// The block of a text, kept or new, over names that come after those that were known before. No clause says which blocks are kept: this
    /// one is from now on, if its text comes again.
    pub fn block(
        &mut self,
        alloc: Global,
        known: &Names,
        text: &str,
    ) -> Result<SharedBlock, Refusal>
        requires { NamesFollow self.old known.now }
        ensures known { self.new ≡ known.now }
        ensures block { CompilesTo result (compiled_block known.now text.now) }
        ensures covered { IfOk result (UsesAreNamed known.now) }
    {
        self.follow(known);
        prepared_block(
            alloc,
            known,
            text,
            &mut self.blocks,
            &mut self.hashes,
            &mut self.bytes,
        )
    }

    /// The block of a text as `block` gives it; none if the text is refused.
    pub fn block_of(
        &mut self,
        alloc: Global,
        known: &Names,
        text: &str,
    ) -> Result<Option<SharedBlock>, NoMemory>
        requires { NamesFollow self.old known.now }
        ensures known { self.new ≡ known.now }
        ensures block { IfOk result (λ o. o ≡ block_of_text known.now text.now) }
    {
        unless_refused(self.block(alloc, known, text))
    }
}
