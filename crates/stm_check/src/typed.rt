//! Blocks that are well typed.

ghost use Rattle.std.specs.Prelude.{◌≡◌, ◌↔◌, IfOk, IsTrue, string_bytes};
ghost use Rattle.stm_terms.specs.Ast.{act_of};
ghost use Rattle.stm_check.specs.TypedBlock.{IsTyped};

use std::alloc::Global;
use std::marker::Model;
use std::sync::Arc;
use stm_terms::NoMemory;
use stm_terms::action::Action;
use stm_terms::kinds::Ty;

fn same_text(one: &str, other: &str) -> bool
    ensures { IsTrue result ↔ (one.now ≡ other.now) }
{
    one == other
}

fn same_result(one: Option<Ty>, other: Option<Ty>) -> bool
    ensures { IsTrue result ↔ (one ≡ other) }
{
    one == other
}

fn same_uses(one: &[(u32, Ty)], other: &[(u32, Ty)]) -> bool
    ensures { IsTrue result ↔ (one.now ≡ other.now) }
{
    match (one, other) {
        ([], []) => true,
        ([(i, kind), rest @ ..], [(j, other_kind), others @ ..]) => {
            *i == *j && *kind == *other_kind && same_uses(rest, others)
        }
        _ => false,
    }
}

/// A well typed block, with its text, the type of its result, none for any, and the variables that it names with their
/// types, in order of first appearance.
#[derive(Drop)]
pub struct Typed {
    action: Action,
    text: String,
    result_type: Option<Ty>,
    uses: Vec<(u32, Ty)>,
}

impl Model for Typed {
    ghost use Rattle.std.specs.Prelude.{string_bytes};
    ghost use Rattle.std.specs.Coded.{codes};
    ghost use Rattle.stm_terms.specs.TreeEncoding.{act_code};
    ghost use Rattle.stm_terms.specs.Ast.{act_of};
    ghost use Rattle.stm_check.specs.TypedBlock.{Block, IsTyped};

    ghost Value = { Block };

    ghost coded = { Prim.hlevel (codes, act_code) };

    ghost view = { λ b. record {
      tree = act_of b.action;
      text = string_bytes b.text;
      result_type = b.result_type;
      uses = b.uses.items;
    } };

    ghost invariant = { λ b. IsTyped (record {
      tree = act_of b.action;
      text = string_bytes b.text;
      result_type = b.result_type;
      uses = b.uses.items;
    }) };
}

impl Typed {
    /// A block that has been checked.
    pub fn of_checked(
        action: Action,
        text: String,
        result_type: Option<Ty>,
        uses: Vec<(u32, Ty)>,
    ) -> Typed
        requires { IsTyped (record {
          tree = act_of action;
          text = string_bytes text;
          result_type = result_type;
          uses = uses.items;
        }) }
        ensures { result ≡ record {
          tree = act_of action;
          text = string_bytes text;
          result_type = result_type;
          uses = uses.items;
        } }
    {
        Typed {
            action,
            text,
            result_type,
            uses,
        }
    }

    /// What the block does. The clause `typed` holds of every block.
    pub fn action(&self) -> &Action
        ensures action { act_of result.now ≡ self.now.tree }
        ensures typed { IsTyped self.now }
    {
        &self.action
    }

    /// The text that it was written in.
    pub fn text(&self) -> &str
        ensures { result.now ≡ self.now.text }
    {
        self.text.as_str()
    }

    /// The type of its result; none if it never returns.
    pub fn result(&self) -> Option<Ty>
        ensures { result ≡ self.now.result_type }
    {
        self.result_type
    }

    /// The variables that it names, with their types. Those of a block that the check made are `uses_of` its tree: each once, in order of first
    /// appearance.
    pub fn uses(&self) -> &[(u32, Ty)]
        ensures { result.now ≡ self.now.uses }
    {
        self.uses.as_slice()
    }

    /// Whether two blocks are equal: in tree, text, type of the result, and variables.
    pub fn same(&self, other: &Typed) -> bool
        ensures { IsTrue result ↔ (self.now ≡ other.now) }
    {
        let trees = self.action.same(&other.action);
        let texts = same_text(&self.text, &other.text);
        let results = same_result(self.result_type, other.result_type);
        let uses = same_uses(&self.uses, &other.uses);
        trees && texts && results && uses
    }

    /// Whether two blocks have the same tree.
    pub fn same_tree(&self, other: &Typed) -> bool
        ensures { IsTrue result ↔ (self.now.tree ≡ other.now.tree) }
    {
        self.action.same(&other.action)
    }
}

/// A block that many may hold. Contracts see the block.
#[derive(Drop)]
pub struct SharedBlock {
    block: Arc<Typed, Global>,
}

impl Model for SharedBlock {
    ghost use Rattle.std.specs.Coded.{codes};
    ghost use Rattle.stm_terms.specs.TreeEncoding.{act_code};
    ghost use Rattle.stm_check.specs.TypedBlock.{Block};

    ghost Value = { Block };

    ghost coded = { Prim.hlevel (codes, act_code) };

    ghost view = { λ s. s.block.value };
}

impl SharedBlock {
    // A block is moved by value; a call that isn't inlined copies it.
    /// Makes a block that many may hold.
    #[inline(always)]
    pub fn new(alloc: Global, block: Typed) -> Result<SharedBlock, NoMemory>
        ensures { IfOk result (λ s. s ≡ block) }
    {
        Ok(SharedBlock {
            block: Arc::new(alloc, block)?,
        })
    }

    /// One more hold on the same block.
    pub fn share(&self) -> Result<SharedBlock, NoMemory>
        ensures { IfOk result (λ s. s ≡ self.now) }
    {
        Ok(SharedBlock {
            block: Arc::try_clone(&self.block)?,
        })
    }

    /// The block.
    pub fn block(&self) -> &Typed
        ensures { result.now ≡ self.now }
    {
        &*self.block
    }
}
