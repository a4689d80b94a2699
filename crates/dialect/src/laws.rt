// Laws over all loads.
ghost use Rattle.dialect.specs.Laws.{Determined, Refused, CycleRefused, LeftLoads, ReachesExact};

// That the tests have exactly one answer for all rows, that rows that are refused are not good, what comes of two small
// sets of rows, and that ranks count what the definition of steps says.
pub fn loading_stands()
    ensures determined { Determined }
    ensures refused { Refused }
    ensures cycle { CycleRefused }
    ensures left { LeftLoads }
    ensures reaches { ReachesExact }
{}
