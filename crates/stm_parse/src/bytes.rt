//! The bytes of tokens: letters, digits, blanks, the marks of symbols, and the number that digits write.

ghost use Rattle.std.specs.Prelude.{◌≡◌, ◌≤◌, length, IfSome};
ghost use Rattle.stm_terms.specs.Names.{is_digit, is_word_byte};
ghost use Rattle.stm_parse.specs.declared.token.TokenKind.TheVariants as tok;
ghost use Rattle.stm_parse.specs.declared.tokenizer.TokenClass.TheVariants as kind;
ghost use Rattle.stm_parse.specs.Bytes.{is_letter, is_blank, pair_mark, single_mark, word_len, number_len, digit_value, number_read, most_digits, number_of_digits};
ghost use Rattle.stm_parse.specs.Lexing.{class_of};

use crate::limits::{GREATEST_WRITTEN, MOST_DIGITS};
use crate::token::Mark;

// Letters.
const LETTER: u8 = 1;

// Letters, and what may follow one in a word.
const WORD: u8 = 3;

const BLANK: u8 = 4;

// For each byte a digit, whose low three bits are the flags above.
static CLASS: [u8; 256] = *b"\
    00000000044004000000000000000000\
    40000002000000002222222222000000\
    01111111111111111111111111100002\
    01111111111111111111111111100000\
    00000000000000000000000000000000\
    00000000000000000000000000000000\
    00000000000000000000000000000000\
    00000000000000000000000000000000";

pub(crate) fn is_letter(byte: u8) -> bool
    ensures { result ≡ is_letter byte }
{
    CLASS[byte as usize] & LETTER != 0
}

pub(crate) fn is_digit(byte: u8) -> bool
    ensures { result ≡ is_digit byte }
{
    b'0' <= byte && byte <= b'9'
}

fn is_word_byte(byte: u8) -> bool
    ensures { result ≡ is_word_byte byte }
{
    CLASS[byte as usize] & WORD != 0
}

/// Whether a byte is a tab, a line feed, a carriage return or a space.
pub fn is_blank(byte: u8) -> bool
    ensures { result ≡ is_blank byte }
{
    CLASS[byte as usize] & BLANK != 0
}

// <- <= == && ||
#[tactic(auto, unfolding(crate::specs::Bytes::pair_mark, crate::specs::Lexing::class_of))]
pub(crate) fn pair_mark(a: u8, b: u8) -> Option<Mark>
    ensures mark { result ≡ pair_mark a b }
    ensures symbol { IfSome result (λ m. class_of (tok.Mark m) ≡ kind.Symbol) }
{
    match (a, b) {
        (b'<', b'-') => Some(Mark::Arrow),
        (b'<', b'=') => Some(Mark::Le),
        (b'=', b'=') => Some(Mark::EqEq),
        (b'&', b'&') => Some(Mark::AndAnd),
        (b'|', b'|') => Some(Mark::OrOr),
        _ => None,
    }
}

// { } ( ) ; : < = + - *
#[inline(always)]
#[tactic(auto, unfolding(crate::specs::Bytes::single_mark, crate::specs::Lexing::class_of))]
pub(crate) fn single_mark(a: u8) -> Option<Mark>
    ensures mark { result ≡ single_mark a }
    ensures symbol { IfSome result (λ m. class_of (tok.Mark m) ≡ kind.Symbol) }
{
    match a {
        b'{' => Some(Mark::LBrace),
        b'}' => Some(Mark::RBrace),
        b'(' => Some(Mark::LParen),
        b')' => Some(Mark::RParen),
        b';' => Some(Mark::Semicolon),
        b':' => Some(Mark::Colon),
        b'<' => Some(Mark::Lt),
        b'=' => Some(Mark::Equals),
        b'+' => Some(Mark::Plus),
        b'-' => Some(Mark::Minus),
        b'*' => Some(Mark::Star),
        _ => None,
    }
}

pub(crate) fn word_len(bytes: &[u8]) -> usize
    ensures { result ≡ word_len bytes.now }
{
    bytes.iter().take_while(|byte| is_word_byte(**byte)).count()
}

/// How many digits are at the front of the bytes.
pub fn number_len(bytes: &[u8]) -> usize
    ensures { result ≡ number_len bytes.now }
{
    bytes.iter().take_while(|byte| is_digit(**byte)).count()
}

fn digit_value(byte: u8) -> u8
    ensures value { result ≡ digit_value byte }
    ensures few { result ≤ 9 }
{
    if is_digit(byte) { byte - b'0' } else { 0 }
}

/// The number of these digits, if they are not too many and it is not too great.
#[tactic(auto, unfolding(crate::specs::Bytes::number_of_digits))]
pub fn number_of(digits: &[u8]) -> Option<u64>
    ensures { result ≡ number_of_digits digits.now }
{
    if digits.len() > MOST_DIGITS {
        return None;
    }
    let value = decimal(digits);
    if value > GREATEST_WRITTEN {
        None
    } else {
        Some(value)
    }
}

/// The number that digits write.
pub fn decimal(digits: &[u8]) -> u64
    requires { length digits.now ≤ most_digits }
    ensures { result ≡ number_read 0 digits.now }
{
    let mut value: u64 = 0;
    for digit in digits {
        value = value * 10 + digit_value(*digit) as u64;
    }
    value
}
