//! The words of a storm's script.

ghost use Rattle.std.specs.Prelude.{◌≡◌};
ghost use Rattle.stm_script.specs.StormScript.{storm_word_named};

/// What a line of a storm's script begins with (docs/STORM.md).
#[derive(Clone, Copy, PartialEq, Eq, Debug)]
pub enum StormWord {
    Tvar,
    Client,
    Submit,
    Finish,
    Cancel,
    Expect,
}

/// The word, if it is one.
#[tactic(auto, unfolding(crate::specs::StormScript::storm_word_named))]
pub fn storm_word_of(word: &[u8]) -> Option<StormWord>
    ensures { result ≡ storm_word_named word.now }
{
    if word == b"tvar".as_slice() {
        return Some(StormWord::Tvar);
    }
    if word == b"client".as_slice() {
        return Some(StormWord::Client);
    }
    if word == b"submit".as_slice() {
        return Some(StormWord::Submit);
    }
    if word == b"finish".as_slice() {
        return Some(StormWord::Finish);
    }
    if word == b"cancel".as_slice() {
        return Some(StormWord::Cancel);
    }
    if word == b"expect".as_slice() {
        return Some(StormWord::Expect);
    }
    None
}
