// Laws of the heads, tails and bounds of words, stated on their definitions alone.
ghost use Rattle.shop_bound.specs.{Heads.WaitingIsWhatIsLeft, Renumbered.NumbersDontMatter};
ghost use Rattle.shop_bound.specs.Laws.{BoundsAreLower, BoundsNeverFall, FullWordsEndAtTheirBound, SumsStaySmall};

/// A feasible schedule that begins each machine with a word's operations, in order, ends at the word's bound or later.
pub fn bounds_are_lower()
    ensures { BoundsAreLower }
{}

/// The bound of a word is at least the bound of each of its prefixes, for an instance within the limits.
pub fn bounds_never_fall()
    ensures { BoundsNeverFall }
{}

/// A word of all operations makes a feasible schedule that ends at the word's bound. For each prefix of the word, this
/// schedule begins each machine with the operations of the prefix, in order.
pub fn full_words_end_at_their_bound()
    ensures { FullWordsEndAtTheirBound }
{}

/// `waiting` lists the operations that are not placed, job by job, each with its head, time and tail.
pub fn what_waits_is_left()
    ensures { WaitingIsWhatIsLeft }
{}

/// For an instance within the limits, three things are below 2^49: a word's bound, the ends of its operations, and
/// greatest head + sum of times + greatest tail of each machine's waiting operations.
pub fn sums_stay_small()
    ensures { SumsStaySmall }
{}

/// Instances that differ in the numbers of their machines alone have the same words, with the same bounds and conflict
/// sets.
pub fn numbers_dont_matter()
    ensures { NumbersDontMatter }
{}
