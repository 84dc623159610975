// Laws of the engines, of instances and of answers, stated on what contracts say.
ghost use Rattle.shop_engine.specs.{Limits.{AreLimits, TextsKeepTheLimits}, OneReport.OneReport, WholeRun.OneWholeRun};
ghost use Rattle.shop_engine.specs.Refusing.{ListingRefuses, CheckingRefuses, SolvingRefuses};
ghost use Rattle.shop_engine.specs.{Easier.{EasierInstancesEndNoLater, EachHasOneLeast}, Renaming.RenamingAsksTheSame};
ghost use Rattle.shop_engine.specs.{Relaxations.RelaxationsAskNoMore, Reversing.ReversingAsksTheSame};
ghost use Rattle.shop_engine.specs.{Scaling.ScalingKeepsTheLeast, Floors.BoundsReachTheFloor};
ghost use Rattle.shop_engine.specs.AnswerLaws.{ReportsTellTheAnswer, MoreRoundsLowerNoBound, MetBoundsAreLeast};
ghost use Rattle.shop_engine.specs.AnswerLaws.{OptimalWhereBoundIsMakespan};

/// If the bytes of a source are known and their text is refused, the engines answer with that refusal: the text's one
/// fault, or that it has no instance of the name. Instead they may answer that memory ran out or that a read failed.
pub fn refused_texts_are_answered()
    ensures list { ListingRefuses }
    ensures check { CheckingRefuses }
    ensures solve { SolvingRefuses }
{}

/// A printed text is right for one report alone, so nobody can read another answer in it.
pub fn one_report()
    ensures { OneReport }
{}

/// One run computed: from the bytes of a text of two jobs that cross, the definitions give the bytes of its report, and
/// no others.
pub fn one_whole_run()
    ensures { OneWholeRun }
{}

/// The limits that contracts name by the code's constants have these numbers.
pub fn limits_are_fixed()
    ensures { AreLimits }
{}

// ---- instances

/// Every instance of an accepted text is within the limits.
pub fn texts_keep_the_limits()
    ensures { TextsKeepTheLimits }
{}

/// Each instance has exactly one least makespan.
pub fn each_instance_has_one_least()
    ensures { EachHasOneLeast }
{}

/// If an instance can meet each deadline for the makespan that a second one can, its least makespan is no greater, and
/// its bounds hold for the second. If both can meet the same deadlines, their least makespans and bounds are equal.
#[tactic(auto, using(crate::proofs::Comparing::easier_instances_end_no_later))]
pub fn easier_instances_end_no_later()
    ensures { EasierInstancesEndNoLater }
{}

/// A relaxation can meet each deadline that its instance can: it may leave out jobs and steps, shorten times, put
/// releases earlier, and spread one machine's operations over several machines.
#[tactic(auto, using(crate::proofs::Relaxing::relaxations_ask_no_more))]
pub fn relaxations_ask_no_more()
    ensures { RelaxationsAskNoMore }
{}

/// Renaming the machines, no two to one name, or reordering the jobs keeps the deadlines that an instance can meet.
#[tactic(auto, using(crate::proofs::Renaming::renaming_asks_the_same))]
pub fn renaming_asks_the_same()
    ensures { RenamingAsksTheSame }
{}

/// Reversing all routes of an instance without releases keeps the deadlines that the instance can meet.
pub fn reversing_asks_the_same()
    ensures { ReversingAsksTheSame }
{}

/// Multiplying all times and releases by a whole number above 0 multiplies the least makespan and the bounds by it.
#[tactic(auto, using(crate::proofs::Scaling::scaling_keeps_the_least))]
pub fn scaling_keeps_the_least()
    ensures { ScalingKeepsTheLeast }
{}

// ---- answers

/// A report that `solve_bytes` writes has the makespan, the bound and the status of the plan's answer, and its instance
/// is within the limits. So the laws of answers hold for the report.
pub fn reports_tell_the_answer()
    ensures { ReportsTellTheAnswer }
{}

/// The makespan of a report whose status is optimal is least. A schedule that `check` finds feasible has a least
/// makespan if a report that is right for the same text, format and name has this makespan as its bound.
#[tactic(auto, using(crate::proofs::MetBounds::met_bounds_are_least))]
pub fn met_bounds_are_least()
    ensures { MetBoundsAreLeast }
{}

/// The status of an answer is optimal exactly when its bound equals its makespan.
pub fn optimal_where_bound_is_makespan()
    ensures { OptimalWhereBoundIsMakespan }
{}

/// On an instance within the limits, every answer's bound is at least, for each machine in use, its operations' least
/// head plus total time plus least tail, and for each job with operations, its release plus total time.
#[tactic(auto, using(crate::proofs::Floors::bounds_reach_the_floor))]
pub fn bounds_reach_the_floor()
    ensures { BoundsReachTheFloor }
{}

/// On an instance within the limits, more rounds of a plan never end at a smaller bound.
pub fn more_rounds_lower_no_bound()
    ensures { MoreRoundsLowerNoBound }
{}
