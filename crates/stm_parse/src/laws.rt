//! What holds of the grammar. Each function is a law: its contract says it, and its body does nothing.

ghost use Rattle.stm_parse.specs.ExpectationFunction.{ExpectationAnswersAreRight};
ghost use Rattle.stm_parse.specs.Laws.{BlocksAreUnambiguous, DeclarationsAreUnambiguous, ExpectationsAreUnambiguous, TypesAreUnambiguous};
ghost use Rattle.stm_parse.specs.Laws.{EachBlockFaultIsOne, EachDeclarationFaultIsOne, EachExpectationFaultIsOne, EachTypeFaultIsOne, BlocksHaveNoFault, DeclarationsHaveNoFault, ExpectationsHaveNoFault, TypesHaveNoFault};
ghost use Rattle.stm_parse.specs.Laws.{ProductsGroupToTheLeft, SumsGroupToTheLeft, ComparisonsAreNotChained, ConjunctionsGroupToTheRight, DisjunctionsGroupToTheRight, ProductsBindTightest, SumsBindTighter, ComparisonsBindTighter, ConjunctionsBindTighter};
ghost use Rattle.stm_parse.specs.ParseFunction.{BlockAnswersAreRight, DeclarationAnswersAreRight};
ghost use Rattle.stm_parse.specs.TypeFunction.{TypeAnswersAreRight};
ghost use Rattle.stm_parse.specs.TypeTexts.{TypesAreReadAlone, TypesAreReadBack};

/// Each text has one tree.
pub fn texts_are_unambiguous()
    ensures block { BlocksAreUnambiguous }
    ensures declaration { DeclarationsAreUnambiguous }
    ensures expectation { ExpectationsAreUnambiguous }
    ensures ty { TypesAreUnambiguous }
{}

/// Of each text at most one fault is reported, an out-of-memory error apart.
pub fn at_most_one_fault()
    ensures block { EachBlockFaultIsOne }
    ensures declaration { EachDeclarationFaultIsOne }
    ensures expectation { EachExpectationFaultIsOne }
    ensures ty { EachTypeFaultIsOne }
{}

/// Of a text that has a tree no fault is reported, an out-of-memory error apart.
pub fn trees_have_no_fault()
    ensures block { BlocksHaveNoFault }
    ensures declaration { DeclarationsHaveNoFault }
    ensures expectation { ExpectationsHaveNoFault }
    ensures ty { TypesHaveNoFault }
{}

/// `a * b * c` is `(a * b) * c`, and `a - b + c` is `(a - b) + c`, for each two of `+` and `-`.
pub fn sums_and_products_group_to_the_left()
    ensures products { ProductsGroupToTheLeft }
    ensures sums { SumsGroupToTheLeft }
{}

/// `a == b < c` is no text, for each two of `==`, `<` and `<=`.
pub fn comparisons_are_not_chained()
    ensures { ComparisonsAreNotChained }
{}

/// `a && b && c` is `a && (b && c)`, and `a || b || c` is `a || (b || c)`.
pub fn conditions_group_to_the_right()
    ensures both { ConjunctionsGroupToTheRight }
    ensures either { DisjunctionsGroupToTheRight }
{}

/// `*` binds tighter than `+` and `-`, these tighter than `==`, `<` and `<=`, these tighter than `&&`, and this tighter
/// than `||`; so `a - b * c` is `a - (b * c)`, and `a * b - c` is `(a * b) - c`.
pub fn each_tier_binds_tighter_than_the_next()
    ensures products { ProductsBindTightest }
    ensures sums { SumsBindTighter }
    ensures comparisons { ComparisonsBindTighter }
    ensures conjunctions { ConjunctionsBindTighter }
{}

/// What is answered for a text is right by the grammar.
pub fn answers_are_right()
    ensures blocks { BlockAnswersAreRight }
    ensures declarations { DeclarationAnswersAreRight }
    ensures expectations { ExpectationAnswersAreRight }
    ensures types { TypeAnswersAreRight }
{}

/// The text of a type of at most 8 `TVar` is read as that type: by itself, and in a declaration.
pub fn types_are_read_back()
    ensures alone { TypesAreReadAlone }
    ensures declared { TypesAreReadBack }
{}
