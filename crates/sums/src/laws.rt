// The theorems on sums.
ghost use Rattle.sums.specs.Claims.{OrderFree, ItemSums, ValuesExist, ValuesSum, OneSum, ReadingSums, FiniteReadings};

use semiring::Semiring;

// In every semiring the sum over the lists of an item is the sum over its links, whatever their order; values along the
// links exist and are these sums; and the sum over the readings is the sum over the roots.
pub fn sums_stand<K: Semiring>()
    ensures order { OrderFree K.Semiring.ops }
    ensures items { ItemSums K.Semiring.ops }
    ensures exist { ValuesExist K.Semiring.ops }
    ensures values { ValuesSum K.Semiring.ops }
    ensures one { OneSum K.Semiring.ops }
    ensures readings { ReadingSums K.Semiring.ops }
{}

// The readings are finitely many.
pub fn finiteness_stands()
    ensures { FiniteReadings }
{}
