// The theorems on prefixes.
ghost use Rattle.prefixes.specs.Claims.{Prefixed, Walked, OneStack, WholePrefix, Settled, Shown, Ended, NextRules, Completed, Derived, Shared, PrefixSums};

use semiring::Semiring;

// The readings that begin with a prefix are the prefix followed by what completes the stack that it leaves; the stack
// is computed, its items are in the chart, and where there is none no reading begins so.
pub fn prefixes_stand()
    ensures readings { Prefixed }
    ensures walked { Walked }
    ensures stack { OneStack }
    ensures whole { WholePrefix }
{}

// A stack may be settled first, and then shows whether the prefix is a reading, and which rules can come next.
pub fn settling_stands()
    ensures settled { Settled }
    ensures shown { Shown }
    ensures ended { Ended }
    ensures next { NextRules }
{}

// What completes a stack is what its levels hand outwards, and a level shows what follows a rule.
pub fn levels_stand()
    ensures completed { Completed }
    ensures derived { Derived }
{}

// Stacks can be kept as rows that share what stands outwards of them.
pub fn rows_stand()
    ensures { Shared }
{}

// In every semiring the sum over the readings that begin with a prefix is the value of the prefix times the sum over
// what completes its stack, filled level by level, innermost first.
pub fn tables_stand<K: Semiring>()
    ensures { PrefixSums K.Semiring.ops }
{}
