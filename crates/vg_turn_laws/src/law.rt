//! The law on the turns of loops.

ghost use Rattle.vg_turn_laws.specs.Laws.{LoopsEndWithinMemory};

/// A law: a loop that runs to its end on some memory asks for at most as many turns as the memory
/// has bytes, since each turn stores at least a byte further on than the one before. More turns
/// trap, wherever the pointers point.
pub fn loops_end_within_memory()
    ensures { LoopsEndWithinMemory }
{}
