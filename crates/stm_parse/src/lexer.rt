//! The tokens of a text as the grammar sees them, in one pass over its bytes.

ghost use Rattle.std.specs.Prelude.{◌≡◌, ◌≢◌, ◌-◌, ◌<◌, ◌≤◌, ◌∷◌, length, take, drop, map, true, MatchResult, IfOk, IfErr, IfSome, Ok, Err};
ghost use Rattle.std.specs.List.{list_all};
ghost use Rattle.stm_terms.specs.Names.{is_word_byte, starts_lower};
ghost use Rattle.stm_parse.specs.declared.token.TokenKind.TheVariants as tok;
ghost use Rattle.stm_parse.specs.declared.tokenizer.TokenClass.TheVariants as kind;
ghost use Rattle.stm_parse.specs.Bytes.{is_letter, longest_word, word_len, number_len, number_of_digits};
ghost use Rattle.stm_parse.specs.Lexing.{control_mark, action_mark, choice_mark, value_mark, word_mark, token_kind_of, class_of, token_of};
ghost use Rattle.stm_parse.specs.ParseResult.{Lexes};
ghost use Rattle.stm_parse.specs.LexedText.{LexesTo};
ghost use Rattle.stm_parse.specs.LexerStep.{front_seen, IsSeen};
ghost use Rattle.stm_parse.specs.NameTokens.{NamesOf};
ghost use Rattle.stm_parse.specs.Tokenizer.{symbol_front, word_front, number_front, front_of, tokens_of, SpansRise, IsTokenFault, IsWithin};

use crate::bytes::{
    is_blank, is_digit, is_letter, number_len, number_of, pair_mark, single_mark, word_len,
};
use crate::fault::ParseFault;
use crate::limits::LONGEST_WORD;
use crate::token::{Lexeme, Mark, TokenKind};
use std::alloc::Global;

// The most tokens that room is made for before the first is found.
const FIRST_ROOM: usize = 32;

/// What is at the front of some bytes: a blank, a token with what the grammar sees in it and its length in bytes, or a fault.
#[derive(Clone, Copy)]
pub enum Piece {
    Blank,
    Found(TokenKind, usize),
    BadByte,
    LongName,
    BadNumber,
}

// A word of control.
#[tactic(auto, unfolding(crate::specs::Lexing::control_mark, crate::specs::Lexing::class_of))]
fn control_mark(word: &[u8]) -> Option<Mark>
    ensures mark { result ≡ control_mark word.now }
    ensures word { IfSome result (λ m. class_of (tok.Mark m) ≡ kind.Word) }
{
    match word {
        b"do" => Some(Mark::Do),
        b"let" => Some(Mark::Let),
        b"if" => Some(Mark::If),
        b"then" => Some(Mark::Then),
        b"else" => Some(Mark::Else),
        _ => None,
    }
}

// A word that returns a value, or reads, writes or makes a variable.
#[tactic(auto, unfolding(crate::specs::Lexing::action_mark, crate::specs::Lexing::class_of))]
fn action_mark(word: &[u8]) -> Option<Mark>
    ensures mark { result ≡ action_mark word.now }
    ensures word { IfSome result (λ m. class_of (tok.Mark m) ≡ kind.Word) }
{
    match word {
        b"return" => Some(Mark::Return),
        b"readTVar" => Some(Mark::ReadTVar),
        b"writeTVar" => Some(Mark::WriteTVar),
        b"newTVar" => Some(Mark::NewTVar),
        _ => None,
    }
}

// A word that ends a branch, or says what runs after one that ended so.
#[tactic(auto, unfolding(crate::specs::Lexing::choice_mark, crate::specs::Lexing::class_of))]
fn choice_mark(word: &[u8]) -> Option<Mark>
    ensures mark { result ≡ choice_mark word.now }
    ensures word { IfSome result (λ m. class_of (tok.Mark m) ≡ kind.Word) }
{
    match word {
        b"retry" => Some(Mark::Retry),
        b"orElse" => Some(Mark::OrElse),
        b"throw" => Some(Mark::Throw),
        b"catch" => Some(Mark::Catch),
        _ => None,
    }
}

// A word for a value or a type.
#[tactic(auto, unfolding(crate::specs::Lexing::value_mark, crate::specs::Lexing::class_of))]
fn value_mark(word: &[u8]) -> Option<Mark>
    ensures mark { result ≡ value_mark word.now }
    ensures word { IfSome result (λ m. class_of (tok.Mark m) ≡ kind.Word) }
{
    match word {
        b"True" => Some(Mark::True),
        b"False" => Some(Mark::False),
        b"Int" => Some(Mark::Int),
        b"Bool" => Some(Mark::Bool),
        b"TVar" => Some(Mark::TVar),
        _ => None,
    }
}

// A reserved word.
fn word_mark(word: &[u8]) -> Option<Mark>
    ensures mark { result ≡ word_mark word.now }
    ensures word { IfSome result (λ m. class_of (tok.Mark m) ≡ kind.Word) }
{
    if let Some(mark) = control_mark(word) {
        return Some(mark);
    }
    if let Some(mark) = action_mark(word) {
        return Some(mark);
    }
    if let Some(mark) = choice_mark(word) {
        return Some(mark);
    }
    value_mark(word)
}

fn starts_small(word: &[u8]) -> bool
    ensures { result ≡ starts_lower word.now }
{
    match word {
        [] => false,
        [first, ..] => b'a' <= *first && *first <= b'z',
    }
}

// A word that isn't reserved is a name by its first letter alone.
#[tactic(auto, using(crate::proofs::Words::is_name_by_first), unfolding(crate::specs::Lexing::class_of))]
fn word_kind(word: &[u8]) -> TokenKind
    requires bytes { list_all is_word_byte word.now ≡ true }
    requires short { length word.now ≤ longest_word }
    ensures sym { result ≡ token_kind_of kind.Word word.now }
    ensures class { class_of result ≡ kind.Word }
{
    match word_mark(word) {
        Some(mark) => TokenKind::Mark(mark),
        None => {
            if starts_small(word) {
                TokenKind::Name
            } else {
                TokenKind::Other
            }
        }
    }
}

fn symbol_piece(bytes: &[u8]) -> Piece
    ensures front { front_seen result ≡ symbol_front bytes.now }
    ensures sym { IsSeen bytes.now result }
    ensures within { IsWithin (front_seen result) (length bytes.now) }
{
    match bytes {
        [] => Piece::BadByte,
        [a] => match single_mark(*a) {
            Some(mark) => Piece::Found(TokenKind::Mark(mark), 1),
            None => Piece::BadByte,
        },
        [a, b, ..] => match pair_mark(*a, *b) {
            Some(mark) => Piece::Found(TokenKind::Mark(mark), 2),
            None => match single_mark(*a) {
                Some(mark) => Piece::Found(TokenKind::Mark(mark), 1),
                None => Piece::BadByte,
            },
        },
    }
}

// A word, of which the first letter is given.
#[tactic(auto, using(crate::proofs::Words::word_bytes, crate::proofs::Words::word_len_more))]
fn word_piece(first: u8, rest: &[u8], bytes: &[u8]) -> Piece
    requires bytes { bytes.now ≡ first ∷ rest.now }
    requires letter { is_letter first ≡ true }
    ensures front { front_seen result ≡ word_front (word_len bytes.now) }
    ensures sym { IsSeen bytes.now result }
    ensures within { IsWithin (front_seen result) (length bytes.now) }
{
    let n = 1 + word_len(rest);
    if n > LONGEST_WORD {
        Piece::LongName
    } else {
        Piece::Found(word_kind(&bytes[..n]), n)
    }
}

// A number, which has a digit.
#[tactic(auto, unfolding(crate::specs::Lexing::class_of))]
fn number_piece(bytes: &[u8]) -> Piece
    requires { 0 < number_len bytes.now }
    ensures front { let n = number_len bytes.now in
        front_seen result ≡ number_front n (number_of_digits (take n bytes.now)) }
    ensures sym { IsSeen bytes.now result }
    ensures within { IsWithin (front_seen result) (length bytes.now) }
{
    let n = number_len(bytes);
    match number_of(&bytes[..n]) {
        Some(value) => Piece::Found(TokenKind::Number(value), n),
        None => Piece::BadNumber,
    }
}

/// What is at the front of some bytes.
#[tactic(auto, unfolding(crate::specs::Tokenizer::front_of), using(crate::proofs::Words::letter_not_blank))]
pub(crate) fn first_piece(bytes: &[u8]) -> Piece
    ensures front { front_seen result ≡ front_of bytes.now }
    ensures sym { IsSeen bytes.now result }
    ensures within { IsWithin (front_seen result) (length bytes.now) }
{
    let Some((first, rest)) = bytes.split_first() else {
        return Piece::BadByte;
    };
    if is_letter(*first) {
        word_piece(*first, rest, bytes)
    } else if is_blank(*first) {
        Piece::Blank
    } else if is_digit(*first) {
        number_piece(bytes)
    } else {
        symbol_piece(bytes)
    }
}

fn piece_at(bytes: &[u8], place: usize) -> Piece
    requires { place < length bytes.now }
    ensures front { front_seen result ≡ front_of (drop place bytes.now) }
    ensures sym { IsSeen (drop place bytes.now) result }
    ensures within { IsWithin (front_seen result) (length bytes.now - place) }
{
    first_piece(&bytes[place..])
}

/// The tokens of a text, each with what it is, or the first fault by place.
///
/// The faults are `BadByte`, `BadNumber`, `NameTooLong` and `NoMemory`.
pub fn lexemes(alloc: Global, text: &str) -> Result<Vec<Lexeme>, ParseFault>
    ensures { LexesTo text.now result }
{
    cut_lexemes(alloc, text.as_bytes())
}

fn cut_lexemes(alloc: Global, bytes: &[u8]) -> Result<Vec<Lexeme>, ParseFault>
    ensures cuts { MatchResult result (λ v. Lexes bytes.now v.items)
        (λ e. e ≢ ParseFault.NoMemory → tokens_of bytes.now ≡ Err e) }
    ensures classes { IfOk result (λ v. tokens_of bytes.now ≡ Ok (map token_of v.items)) }
    ensures rising { IfOk result (λ v. SpansRise 0 (length bytes.now) (map token_of v.items)) }
    ensures names { IfOk result (λ v. NamesOf bytes.now v.items) }
    ensures faults { IfErr result IsTokenFault }
{
    // Few texts have more tokens than half their bytes, and long ones grow as they need.
    let mut out = Vec::with_capacity(alloc, (bytes.len() / 2).min(FIRST_ROOM))?;
    let mut place = 0;
    while place < bytes.len() {
        match piece_at(bytes, place) {
            Piece::Blank => place += 1,
            Piece::Found(sym, n) => {
                out.push(Lexeme {
                    sym,
                    start: place,
                    end: place + n,
                })?;
                place += n;
            }
            Piece::BadByte => return Err(ParseFault::BadByte(place)),
            Piece::LongName => return Err(ParseFault::NameTooLong(place)),
            Piece::BadNumber => return Err(ParseFault::BadNumber(place)),
        }
    }
    Ok(out)
}
