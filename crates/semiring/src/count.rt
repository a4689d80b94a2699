// Count: how many readings are there?
ghost use Rattle.semiring.specs.CountLaws.{count_lawful};
ghost use Rattle.semiring.specs.Kinds.{count_ops};

use super::cap::capped;
use super::semiring::Semiring;

// The kind whose total says how many readings there are, capped. Its values are the numbers from 0 to the cap.
#[derive(Clone, Copy, Debug, Default, PartialEq, Eq)]
pub struct Count;

impl Semiring for Count {
    type Value = u32;

    ghost ops = { count_ops };

    ghost lawful = { count_lawful };

    fn none(&self) -> u32 {
        0
    }

    fn unit(&self) -> u32 {
        1
    }

    fn sum(&self, a: u32, b: u32) -> u32 {
        capped(u64::from(a) + u64::from(b))
    }

    fn product(&self, a: u32, b: u32) -> u32 {
        capped(u64::from(a) * u64::from(b))
    }

    // Every rule weighs 1.
    fn weight(&self, rule: u16, cost: u32) -> u32 {
        self.unit()
    }
}
