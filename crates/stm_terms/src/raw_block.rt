//! Parsed blocks.

ghost use Rattle.std.specs.Prelude.{◌≡◌, string_bytes};
ghost use Rattle.stm_terms.specs.ParsedAst.{raw_act_of};
ghost use Rattle.stm_terms.specs.ParsedBlock.{IsParsed};

use crate::raw::RawAction;
use std::marker::Model;

/// A parsed block with its text. Contracts see the tree and the bytes of the text.
///
/// The text is ASCII, each name of the tree is the span of a name in it, and the tree has at most 2^32 actions.
#[derive(Drop)]
pub struct Raw {
    action: RawAction,
    text: String,
}

impl Model for Raw {
    ghost use Rattle.std.specs.Prelude.{string_bytes};
    ghost use Rattle.std.specs.Coded.{codes};
    ghost use Rattle.stm_terms.specs.ParsedAst.{raw_act_of};
    ghost use Rattle.stm_terms.specs.ParsedBlock.{RawBlock, IsParsed, raw_code};

    ghost Value = { RawBlock };

    ghost coded = { Prim.hlevel (codes, raw_code) };

    ghost view = { λ r. record { tree = raw_act_of r.action; text = string_bytes r.text } };

    ghost invariant = { λ r. IsParsed (string_bytes r.text) (raw_act_of r.action) };
}

impl Raw {
    /// The parsed tree.
    pub fn action(&self) -> &RawAction
        ensures tree { raw_act_of result.now ≡ self.now.tree }
        ensures parsed { IsParsed self.now.text self.now.tree }
    {
        &self.action
    }

    /// The text that was parsed.
    pub fn text(&self) -> &str
        ensures text { result.now ≡ self.now.text }
        ensures parsed { IsParsed self.now.text self.now.tree }
    {
        self.text.as_str()
    }

    /// The text and the tree apart.
    pub fn into_parts(self) -> (String, RawAction)
        ensures text { string_bytes result.0 ≡ self.text }
        ensures tree { raw_act_of result.1 ≡ self.tree }
        ensures parsed { IsParsed self.text self.tree }
    {
        (self.text, self.action)
    }

    /// A text with its tree. The parser makes it.
    pub fn of_parts(text: String, action: RawAction) -> Raw
        requires { IsParsed (string_bytes text) (raw_act_of action) }
        ensures text { result.text ≡ string_bytes text }
        ensures tree { result.tree ≡ raw_act_of action }
    {
        Raw { action, text }
    }
}
