//! What a text is read as: the grammar alone says it.

ghost use Rattle.stm_parse.specs.Expectations.{IsExpectation};
ghost use Rattle.stm_parse.specs.ExpectationFunction.{expected_tree};
ghost use Rattle.stm_parse.specs.Grammar.{IsBlock, IsDeclaration};
ghost use Rattle.stm_parse.specs.ParseFunction.{parsed_block, declared_tree};
ghost use Rattle.stm_parse.specs.TypeFunction.{IsWholeType, parsed_type};
ghost use Rattle.stm_source.specs.Readings.{IsTheReading};

/// Of each text one answer is right by the grammar, and that is the one that is given. So who believes the grammar needs nothing of how
/// the answer is found.
pub fn texts_have_one_answer()
    ensures block { IsTheReading IsBlock parsed_block }
    ensures declaration { IsTheReading IsDeclaration declared_tree }
    ensures expectation { IsTheReading IsExpectation expected_tree }
    ensures ty { IsTheReading IsWholeType parsed_type }
{
    stm_parse::laws::texts_are_unambiguous();
    stm_parse::laws::at_most_one_fault();
    stm_parse::laws::trees_have_no_fault();
    stm_parse::laws::answers_are_right();
    stm_parse::laws_of_tokens::tokenization_is_unique();
}
