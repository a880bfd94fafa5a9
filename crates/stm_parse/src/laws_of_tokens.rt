//! What holds of the tokens of a text. Each function is a law: its contract says it, and its body does nothing.

ghost use Rattle.stm_parse.specs.MaximalMunch.{TokensAreMaximal, TokenizationIsUnique};

/// Each text is cut by the rules: at each place the longest token, and the first fault by place is reported.
pub fn tokens_are_maximal()
    ensures { TokensAreMaximal }
{}

/// No text is cut in two ways.
pub fn tokenization_is_unique()
    ensures { TokenizationIsUnique }
{}
