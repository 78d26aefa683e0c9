//! The laws of the language of loops.

ghost use Rattle.vg_loop_grammar.specs.Laws.{
  WhatIsReadIsALoop,
  LoopTextsAreRead,
  RefusedExactlyWhereNoLoop,
  TextsSpellOneLoop,
  NoLoopTextIsAKernel,
  LoopTextsKeepTheRules,
};

/// A law: what is read as a loop is a text of the language, and keeps its limits.
pub fn what_is_read_is_a_loop()
    ensures { WhatIsReadIsALoop }
{}

/// A law: what is a text of the language is read as the loop that it spells.
pub fn loop_texts_are_read()
    ensures { LoopTextsAreRead }
{}

/// A law: a text has a first fault exactly where it spells no loop.
pub fn refused_exactly_where_no_loop()
    ensures { RefusedExactlyWhereNoLoop }
{}

/// A law: a text spells one loop at most.
pub fn texts_spell_one_loop()
    ensures { TextsSpellOneLoop }
{}

/// A law: what spells a loop spells no kernel.
pub fn no_loop_text_is_a_kernel()
    ensures { NoLoopTextIsAKernel }
{}

/// A law: a loop that a text spells keeps the rules on loops.
pub fn loop_texts_keep_the_rules()
    ensures { LoopTextsKeepTheRules }
{}
