//! Tokens as the grammar sees them, and why the descent stops.

ghost use Rattle.std.specs.Prelude.{◌≡◌};
ghost use Rattle.stm_parse.specs.Terminals.{code, is_mark, is_word_mark};

use std::alloc::AllocFailed;
use stm_terms::Span;

/// A reserved word or a symbol.
#[derive(Clone, Copy)]
pub enum Mark {
    Do,
    Let,
    If,
    Then,
    Else,
    Return,
    ReadTVar,
    WriteTVar,
    NewTVar,
    Retry,
    OrElse,
    Throw,
    Catch,
    True,
    False,
    Int,
    Bool,
    TVar,
    LBrace,
    RBrace,
    LParen,
    RParen,
    Semicolon,
    Colon,
    Arrow,
    Le,
    Lt,
    EqEq,
    Equals,
    Plus,
    Minus,
    Star,
    AndAnd,
    OrOr,
}

impl Mark {
    fn code(self) -> u8
        ensures { result ≡ code self }
    {
        match self {
            Mark::Do => 0,
            Mark::Let => 1,
            Mark::If => 2,
            Mark::Then => 3,
            Mark::Else => 4,
            Mark::Return => 5,
            Mark::ReadTVar => 6,
            Mark::WriteTVar => 7,
            Mark::NewTVar => 8,
            Mark::Retry => 9,
            Mark::OrElse => 10,
            Mark::Throw => 11,
            Mark::Catch => 12,
            Mark::True => 13,
            Mark::False => 14,
            Mark::Int => 15,
            Mark::Bool => 16,
            Mark::TVar => 17,
            Mark::LBrace => 18,
            Mark::RBrace => 19,
            Mark::LParen => 20,
            Mark::RParen => 21,
            Mark::Semicolon => 22,
            Mark::Colon => 23,
            Mark::Arrow => 24,
            Mark::Le => 25,
            Mark::Lt => 26,
            Mark::EqEq => 27,
            Mark::Equals => 28,
            Mark::Plus => 29,
            Mark::Minus => 30,
            Mark::Star => 31,
            Mark::AndAnd => 32,
            Mark::OrOr => 33,
        }
    }

    /// Whether the mark is a reserved word.
    pub fn is_word(self) -> bool
        ensures { result ≡ is_word_mark self }
    {
        self.code() < 18
    }
}

/// What a token is: a mark, a number, a name, or a word that is neither reserved nor a name.
#[derive(Clone, Copy)]
pub enum TokenKind {
    Mark(Mark),
    Number(u64),
    Name,
    Other,
}

impl TokenKind {
    /// Whether the token is this mark.
    pub fn is(self, mark: Mark) -> bool
        ensures { result ≡ is_mark mark self }
    {
        match self {
            TokenKind::Mark(own) => own.code() == mark.code(),
            TokenKind::Number(_) => false,
            TokenKind::Name => false,
            TokenKind::Other => false,
        }
    }
}

/// A token with its span in the text.
#[derive(Clone, Copy)]
pub struct Lexeme {
    pub sym: TokenKind,
    pub start: usize,
    pub end: usize,
}

impl Lexeme {
    /// The span of the token in the text.
    pub fn span(&self) -> Span
        ensures { result ≡ record { start = self.now.start; end = self.now.end } }
    {
        Span {
            start: self.start,
            end: self.end,
        }
    }
}

/// Why a token is refused.
#[derive(Clone, Copy)]
pub enum ErrorKind {
    Unexpected,
    TooDeep,
    BadNumber,
}

/// The first token at fault, given by how many tokens are left from it on.
#[derive(Clone, Copy)]
pub struct Fault {
    pub cause: ErrorKind,
    pub left: usize,
}

/// Why the descent stops.
#[derive(Clone, Copy)]
pub enum Failure {
    Memory,
    At(Fault),
}

impl<T: Drop> From<AllocFailed<T>> for Failure {
    ghost use Rattle.std.specs.Prelude.{◌≡◌};
    ghost use Rattle.stm_parse.specs.declared.token.Failure.TheVariants.{Memory};

    ghost from_gives = { λ _ e. e ≡ Memory };

    fn from(_refused: AllocFailed<T>) -> Failure {
        Failure::Memory
    }
}
