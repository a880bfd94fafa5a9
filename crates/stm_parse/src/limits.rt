//! Limits of texts (docs/LANGUAGE.md, "Limits").

/// The most bytes of a text.
pub const MOST_BYTES: usize = 65_536;

/// The most tokens of a text.
pub const MOST_TOKENS: usize = 4_096;

/// The greatest depth of a token.
pub const DEEPEST: u8 = 64;

/// The most bytes of a word.
pub const LONGEST_WORD: usize = 32;

/// The most digits of a number.
pub const MOST_DIGITS: usize = 19;

/// The greatest number that is written: after a minus it is an `Int`.
pub const GREATEST_WRITTEN: u64 = 9_223_372_036_854_775_808;
