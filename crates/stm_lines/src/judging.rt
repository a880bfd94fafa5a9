//! The judgement of a line before a command sees it.

ghost use Rattle.std.specs.Prelude.{◌≡◌, ◌≤◌, drop, length};
ghost use Rattle.stm_lines.specs.LineClass.{blanks_len, command_len, skip_blanks, word_of, argument_of, class_of_words, has_high_byte, line_class};
ghost use Rattle.stm_lines.specs.Judged.{line_class_of};

use stm_parse::bytes::is_blank;

/// The most bytes that a line may have.
const LONGEST_LINE: usize = 65_536;

/// How a line is judged (docs/CONSOLE.md, "Lines").
pub enum Judgement<'a> {
    TooLong,
    Silent,
    NotAscii,
    /// The command word and its argument.
    Words(&'a [u8], &'a [u8]),
}

/// How many blanks a text begins with.
fn blanks_len(text: &[u8]) -> usize
    ensures count { result ≡ blanks_len text.now }
    ensures within { result ≤ length text.now }
{
    for (at, byte) in text.iter().enumerate() {
        if !is_blank(*byte) {
            return at;
        }
    }
    text.len()
}

/// How many bytes are before the first blank.
fn command_len(text: &[u8]) -> usize
    ensures count { result ≡ command_len text.now }
    ensures within { result ≤ length text.now }
{
    for (at, byte) in text.iter().enumerate() {
        if is_blank(*byte) {
            return at;
        }
    }
    text.len()
}

/// The rest of a text after the given number of bytes.
pub(crate) fn after(text: &[u8], count: usize) -> &[u8]
    requires { count ≤ length text.now }
    ensures { result.now ≡ drop count text.now }
{
    &text[count..]
}

#[tactic(auto, unfolding(crate::specs::LineClass::skip_blanks))]
fn skip_blanks(text: &[u8]) -> &[u8]
    ensures { result.now ≡ skip_blanks text.now }
{
    after(text, blanks_len(text))
}

fn has_high_byte(line: &[u8]) -> bool
    ensures { result ≡ has_high_byte line.now }
{
    !line.is_ascii()
}

/// The first word of a text, up to the next blank or the end, and the rest after the blanks that follow it.
pub fn first_word(text: &[u8]) -> (&[u8], &[u8])
    ensures word { result.0.now ≡ word_of text.now }
    ensures rest { result.1.now ≡ argument_of text.now }
{
    let len = command_len(text);
    (&text[..len], skip_blanks(after(text, len)))
}

/// The command word of a text and its argument.
#[tactic(auto, unfolding(crate::specs::LineClass::class_of_words))]
fn words_of(text: &[u8]) -> Judgement<'_>
    ensures { line_class_of result ≡ class_of_words text.now }
{
    let (word, argument) = first_word(text);
    Judgement::Words(word, argument)
}

/// The first judgement that holds.
#[tactic(auto, unfolding(crate::specs::LineClass::line_class, crate::specs::LineClass::starts_comment))]
pub fn judge(line: &[u8]) -> Judgement<'_>
    ensures { line_class_of result ≡ line_class line.now }
{
    if line.len() > LONGEST_LINE {
        return Judgement::TooLong;
    }
    if line.starts_with(b"--") {
        return Judgement::Silent;
    }
    let text = skip_blanks(line);
    if text.is_empty() {
        return Judgement::Silent;
    }
    if has_high_byte(line) {
        return Judgement::NotAscii;
    }
    words_of(text)
}
