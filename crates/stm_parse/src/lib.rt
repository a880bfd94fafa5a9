//! Texts: their tokens, the grammar, and the trees that blocks, declarations, expectations and types write.
//!
//! `parse_block` (`block`), `parse_declare` (`declaration`), `parse_expectation` (`expectation`) and `parse_type` (`type_text`) read a text,
//! within `limits`; `fault` says why a text is refused. `lexer` cuts it into the tokens of `token`, by `bytes`, and `tokenizer` gives
//! callers the tokens alone. The descent over them is in `action`, `expression` and `types`, over `cursor`. `laws` says what holds of the
//! grammar, and `laws_of_tokens` of the tokens.
//!
//! What a reader has to believe is in these modules of specs/: `Bytes` (letters, blanks, the number that digits write) and
//! `MaximalMunch` (which tokens a text has, or which fault first, as a relation), `Terminals` (reserved words and symbols
//! as tokens), `Lexing` (reserved words, names and numbers), `Grammar` (the productions, as a relation between tokens and
//! trees), `LexedText` (what the lexer makes of a text), `Faults` (which token is the first at fault), `ParseResult` (a text of the grammar, and which fault is reported of
//! any other text), `Declarations` (what callers see of a declaration), and `Expectations` (the production of an expectation,
//! and what callers see of it). What they see of a parsed block is with its trees in stm_terms (`specs/ParsedBlock`). The
//! contracts of blocks, declarations and expectations rest on these relations alone. `Laws` says that a text has one tree or one fault
//! and how operators group, and `TypeTexts` that the text of a type is read back.
//!
//! Contracts also cite two functions that say this in another way, and laws say that they are right. `tokens_of` in
//! `Tokenizer` cuts a text: it is in the relation of `MaximalMunch`, and nothing else is (`laws_of_tokens`). `parsed_block` in
//! `ParseFunction` is the one answer for a text, by way of the descent in `Descent`: it is right by the grammar
//! (`laws::answers_are_right`). So are `parsed_expectation` in `ExpectationFunction` and `parsed_type` in `TypeFunction`.
#![tactic(auto)]

pub mod action;
pub mod block;
pub mod bytes;
pub mod cursor;
pub mod declaration;
pub mod expectation;
pub mod expression;
pub mod fault;
pub mod laws;
pub mod laws_of_tokens;
pub mod lexer;
pub mod limits;
pub mod token;
pub mod tokenizer;
pub mod type_text;
pub mod types;

pub use block::{lexed, parse_block, parse_tokens};
pub use declaration::{Declaration, Init, parse_declare};
pub use expectation::{Expectation, parse_expectation};
pub use fault::ParseFault;
pub use stm_terms::Raw;
pub use tokenizer::{Token, TokenClass, tokens};
pub use type_text::parse_type;
