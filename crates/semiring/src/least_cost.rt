// Least cost: what does the cheapest reading cost?
ghost use Rattle.semiring.specs.Kinds.{least_cost_ops};
ghost use Rattle.semiring.specs.LeastCostLaws.{least_cost_lawful};

use super::cap::capped;
use super::semiring::Semiring;

// The kind whose total is the least cost of a reading, capped, or nothing where there is no reading. Its values are
// nothing and the numbers from 0 to the cap.
#[derive(Clone, Copy, Debug, Default, PartialEq, Eq)]
pub struct LeastCost;

impl Semiring for LeastCost {
    type Value = Option<u32>;

    ghost ops = { least_cost_ops };

    ghost lawful = { least_cost_lawful };

    fn none(&self) -> Option<u32> {
        None
    }

    fn unit(&self) -> Option<u32> {
        Some(0)
    }

    // The lesser cost; nothing counts as above every number. Both optional numbers are taken apart, as the rules ask.
    fn sum(&self, a: Option<u32>, b: Option<u32>) -> Option<u32> {
        match (a, b) {
            (None, _) => b,
            (Some(_), None) => a,
            (Some(x), Some(y)) => Some(x.min(y)),
        }
    }

    // The capped sum of both costs; nothing where one is nothing.
    fn product(&self, a: Option<u32>, b: Option<u32>) -> Option<u32> {
        match (a, b) {
            (Some(x), Some(y)) => Some(capped(u64::from(x) + u64::from(y))),
            (Some(_), None) => None,
            (None, _) => None,
        }
    }

    // A rule weighs its cost, capped.
    fn weight(&self, rule: u16, cost: u32) -> Option<u32> {
        Some(capped(u64::from(cost)))
    }
}
