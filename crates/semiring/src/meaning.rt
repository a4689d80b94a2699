// What the kinds' totals over a finite list of readings say.
ghost use Rattle.semiring.specs.Meanings.{YesNoMeans, CountMeans, LeastCostMeans, PairMeans};

use super::semiring::Semiring;

// That over every list of readings yes-no says yes exactly if there is one, count says how many there are, capped,
// and least cost says the least of their capped costs, or nothing if there are none.
pub fn kinds_stand()
    ensures yes { YesNoMeans }
    ensures count { CountMeans }
    ensures least { LeastCostMeans }
{}

// That over every list of readings a pair of two kinds says what each of them says.
pub fn pairs_stand<A: Semiring, B: Semiring>()
    ensures { PairMeans A.Semiring.ops B.Semiring.ops }
{}
