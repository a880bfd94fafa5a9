//! The words of a call, and of its answer.

use std::alloc::AllocError;
use std::fmt::Write;
use stm_terms::Value;

/// The first word of a text, and what follows the blank after it.
pub fn first_word(text: &str) -> (&str, &str) {
    match text.split_once(' ') {
        Some((word, rest)) => (word, rest),
        None => (text, ""),
    }
}

/// The number of a word, 0 if it is none.
pub fn number(word: &str) -> u32 {
    word.parse::<u32>().unwrap_or(0)
}

/// The `Int` of a word, 0 if it is none.
pub fn int(word: &str) -> Value {
    Value::Int(word.parse::<i64>().unwrap_or(0))
}

/// Prints a text.
pub fn say(text: &str, out: &mut String) -> Result<(), AllocError> {
    out.push_str(text)?;
    out.push_str("\n")
}

/// Prints yes or no.
pub fn say_whether(is_so: bool, out: &mut String) -> Result<(), AllocError> {
    out.push_str(if is_so { "yes\n" } else { "no\n" })
}

/// Prints a number.
pub fn say_count(count: usize, out: &mut String) -> Result<(), AllocError> {
    writeln!(out, "{count}")
}

/// Prints a number, or that there is none.
pub fn say_number(number: Option<u32>, out: &mut String) -> Result<(), AllocError> {
    match number {
        Some(n) => writeln!(out, "{n}"),
        None => out.push_str("none\n"),
    }
}
