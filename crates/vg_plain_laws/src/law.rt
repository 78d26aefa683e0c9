//! The laws on the end of plans.

ghost use Rattle.vg_plain_laws.specs.Laws.{CompletedPlansEndInTime, PlainPlansLeaveNothing};

/// A law that costs nothing to call: where instances have at most four parameters, the plain plan of
/// a sound kernel ends because nothing is left to try, never because its turns are used up. More
/// turns give the same plan, and each operand of its packs is held by one, is constant, is produced
/// by one, or had no producer that could join when it was its turn.
pub fn plain_plans_leave_nothing()
    ensures { PlainPlansLeaveNothing }
{}

/// A law that costs nothing to call: where instances have at most four parameters, the plain plan of
/// the aligned store groups, each plan that is completed, the careful plan and the plan that is
/// chosen beside them never end because their turns are used up. What the packs of a completed plan
/// take is produced by the walk to its end, and more turns give the same plans.
pub fn completed_plans_end_in_time()
    ensures { CompletedPlansEndInTime }
{}
