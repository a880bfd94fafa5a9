//! Names of variables and locals.

ghost use Rattle.std.specs.Prelude.{◌≡◌};
ghost use Rattle.stm_terms.specs.Names.{is_name_text, is_reserved, is_control_word, is_action_word, is_value_word, is_word_byte, is_lower, starts_lower};
ghost use Rattle.std.specs.List.{list_all};

/// The most bytes of a name.
pub const LONGEST_NAME: usize = 32;

fn is_small_letter(byte: u8) -> bool
    ensures { result ≡ is_lower byte }
{
    97 <= byte && byte <= 122
}

fn may_follow(byte: u8) -> bool
    ensures { result ≡ is_word_byte byte }
{
    is_small_letter(byte)
        || (65 <= byte && byte <= 90)
        || (48 <= byte && byte <= 57)
        || byte == 95
        || byte == 39
}

#[tactic(auto, unfolding(crate::specs::Names::is_control_word))]
fn begins_control(word: &str) -> bool
    ensures { result ≡ is_control_word word.now }
{
    word == "do" || word == "let" || word == "if" || word == "then" || word == "else"
}

#[tactic(auto, unfolding(crate::specs::Names::is_action_word))]
fn begins_action(word: &str) -> bool
    ensures { result ≡ is_action_word word.now }
{
    word == "return"
        || word == "readTVar"
        || word == "writeTVar"
        || word == "newTVar"
        || word == "retry"
        || word == "orElse"
        || word == "throw"
        || word == "catch"
}

#[tactic(auto, unfolding(crate::specs::Names::is_value_word))]
fn names_value_or_type(word: &str) -> bool
    ensures { result ≡ is_value_word word.now }
{
    word == "True" || word == "False" || word == "Int" || word == "Bool" || word == "TVar"
}

/// Whether the language reserves a word.
pub fn is_reserved_word(word: &str) -> bool
    ensures { result ≡ is_reserved word.now }
{
    begins_control(word) || begins_action(word) || names_value_or_type(word)
}

fn starts_with_small_letter(bytes: &[u8]) -> bool
    ensures { result ≡ starts_lower bytes.now }
{
    match bytes {
        [] => false,
        [first, ..] => is_small_letter(*first),
    }
}

fn all_may_follow(bytes: &[u8]) -> bool
    ensures { result ≡ list_all is_word_byte bytes.now }
{
    bytes.iter().all(|byte| may_follow(*byte))
}

/// Whether a text is a name: a word of at most `LONGEST_NAME` bytes that begins with a small letter and isn't reserved.
///
/// A word is a letter and then letters, digits, `_` and `'` (docs/LANGUAGE.md, "Tokens").
#[tactic(auto, unfolding(crate::specs::Names::is_name_text))]
pub fn is_name(text: &str) -> bool
    ensures { result ≡ is_name_text text.now }
{
    let bytes = text.as_bytes();
    starts_with_small_letter(bytes)
        && all_may_follow(bytes)
        && !is_reserved_word(text)
        && bytes.len() <= LONGEST_NAME
}
