// Laws of branching and search, proved from the definitions alone.
ghost use Rattle.shop_nodes.specs.Laws.{LosesNoTable, SearchesLoseNoTable};

/// Proves that branching loses no schedule: for each schedule under a word that isn't full, some child of the word has
/// a schedule under it that ends no later.
pub fn branching_loses_no_table()
    ensures { LosesNoTable }
{}

/// Proves that searching a piece loses no schedule: for each schedule under a word of the piece that ends before the
/// sheet's makespan, some schedule under a word left ends no later. A word found is full; the makespan is its bound.
pub fn searches_lose_no_table()
    ensures { SearchesLoseNoTable }
{}
