// Laws about the definitions of rounds and of runs, not about code.
ghost use Rattle.shop_runs.specs.Laws.{PiecesAreAll, OpeningCovers, CutsCover, GatheringCovers};
ghost use Rattle.shop_runs.specs.Laws.{RoundsKeepTheCover, CountsStaySmall};
ghost use Rattle.shop_runs.specs.{Trust.AnswersAreTrustworthy, Exact.{SearchesEnd, MoreRoundsAreNoWorse, SolvedStays}};

/// A round loses no word: its pieces and then its rest are, in order, the words from which it was cut.
pub fn pieces_are_all()
    ensures { PiecesAreAll }
{}

/// A search begins with a standing that covers the instance (loses no better schedule): for each feasible schedule that
/// ends before the start word's makespan, some schedule under an open word ends no later.
pub fn opening_covers()
    ensures { OpeningCovers }
{}

/// If a standing covers the instance (loses no better schedule), so does a round cut from it by any plan.
pub fn cuts_cover()
    ensures { CutsCover }
{}

/// If a round covers the instance (loses no better schedule), so does the standing after the round.
pub fn gathering_covers()
    ensures { GatheringCovers }
{}

/// If a standing covers the instance (loses no better schedule), so does the standing after one more round.
pub fn rounds_keep_the_cover()
    ensures { RoundsKeepTheCover }
{}

/// A round adds one to the rounds done, and at most its budget times its number of pieces to the nodes counted.
pub fn counts_stay_small()
    ensures { CountsStaySmall }
{}

/// For every instance and plan, the answer's word is full, and its schedule is feasible and ends at the makespan. No
/// feasible schedule ends before the bound. If no node is open, the makespan is least.
pub fn answers_are_trustworthy()
    ensures { AnswersAreTrustworthy }
{}

/// For every instance and order, and every budget and piece size of one node or more, some number of rounds is enough:
/// from that number on, no node is open and the makespan is least.
pub fn searches_end()
    ensures { SearchesEnd }
{}

/// With more rounds, a plan never gives a greater makespan.
pub fn more_rounds_are_no_worse()
    ensures { MoreRoundsAreNoWorse }
{}

/// Once no node is open, further rounds don't change the answer.
pub fn solved_stays()
    ensures { SolvedStays }
{}
