//! The laws of the texts of guarded loops.

ghost use Rattle.vg_guarded_loop.specs.Laws.{WhatIsReadIsAGuardedLoop, GuardedLoopTextsAreRead};

/// A law: what is read of a text keeps the rules, and the text is its text.
pub fn what_is_read_is_a_guarded_loop()
    ensures { WhatIsReadIsAGuardedLoop }
{}

/// A law: the text of what keeps the rules is read as it.
pub fn guarded_loop_texts_are_read()
    ensures { GuardedLoopTextsAreRead }
{}
