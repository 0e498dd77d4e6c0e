// The rule language: its grammar as relations, its parse as functions, and that the two agree.
// A text is accepted exactly when it is derivable within the limits, and says one tree.
// It is refused exactly at the first word without use, or at the first item past its limit.
#![tactic(auto)]

ghost use Rattle.grammar.specs.Exact.{Exact};
ghost use Rattle.grammar.specs.Examples.{Examples};
ghost use Rattle.grammar.specs.Lying.{Lying};

// The parse is exact for the grammar.
pub fn grammar_is_exact()
    ensures { Exact }
{}

// The examples hold.
pub fn examples_stand()
    ensures { Examples }
{}

// Every quoted word of a tree has the units of its text behind its opening quote.
pub fn words_lie_in_the_text()
    ensures { Lying }
{}
