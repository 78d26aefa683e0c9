//! The reader of operation texts against their grammar.

ghost use Rattle.vg_pseudo_laws.specs.Laws.{IsComplete, IsSound};

/// What is read as an operation is in the grammar: the words between the front of what was left and
/// what is left after the operation spell it.
pub fn what_is_read_is_in_the_grammar()
    ensures { IsSound }
{}

/// What is in the grammar is read: where words at the front of what is left spell an operation, that
/// very operation is read, up to what is left after them.
pub fn what_is_in_the_grammar_is_read()
    ensures { IsComplete }
{}
