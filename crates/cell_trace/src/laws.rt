ghost use Rattle.cell_trace.specs.Laws.{TheFormulasGive, TheScenesGiveOwn, TheSumsAddUp, TheVisitsMean};

/// What a value rests on. Parts that are all listed add up to the sum over the cells. A formula has the same value
/// whatever else is given, where the same is given in what evaluation reaches in it; that value is its meaning.
pub fn printed_values_give_the_value()
    ensures sums { TheSumsAddUp }
    ensures formulas { TheFormulasGive }
    ensures meaning { TheVisitsMean }
    ensures own { TheScenesGiveOwn }
{}
