//! The laws of looped texts.

ghost use Rattle.vg_looped.specs.Laws.{WhatIsReadIsLooped, LoopedTextsAreRead, LoopedProgramsFit};

/// A law: what is read of a text keeps the rules, and the text is its text.
pub fn what_is_read_is_looped()
    ensures { WhatIsReadIsLooped }
{}

/// A law: the text of what keeps the rules is read as it.
pub fn looped_texts_are_read()
    ensures { LoopedTextsAreRead }
{}

/// A law: two programs of at most 12,288 lines have a looped text of at most 4 MiB.
pub fn looped_programs_fit()
    ensures { LoopedProgramsFit }
{}
