// Pairs: two kinds of value side by side.
ghost use Rattle.semiring.specs.Kinds.{pair_ops};
ghost use Rattle.semiring.specs.PairLaws.{pair_lawful};

use super::semiring::Semiring;

// The kind whose values have one of each of two kinds; every operation goes by each side.
#[derive(Clone, Copy, Debug, Default, PartialEq, Eq)]
pub struct Pair<A, B> {
    pub first: A,
    pub second: B,
}

impl<A: Semiring, B: Semiring> Semiring for Pair<A, B> {
    type Value = (A::Value, B::Value);

    ghost ops = { pair_ops A.Semiring.ops B.Semiring.ops };

    ghost lawful = { pair_lawful A.Semiring.lawful B.Semiring.lawful };

    fn none(&self) -> (A::Value, B::Value) {
        (self.first.none(), self.second.none())
    }

    fn unit(&self) -> (A::Value, B::Value) {
        (self.first.unit(), self.second.unit())
    }

    fn sum(&self, a: (A::Value, B::Value), b: (A::Value, B::Value)) -> (A::Value, B::Value) {
        (self.first.sum(a.0, b.0), self.second.sum(a.1, b.1))
    }

    fn product(&self, a: (A::Value, B::Value), b: (A::Value, B::Value)) -> (A::Value, B::Value) {
        (self.first.product(a.0, b.0), self.second.product(a.1, b.1))
    }

    fn weight(&self, rule: u16, cost: u32) -> (A::Value, B::Value) {
        (
            self.first.weight(rule, cost),
            self.second.weight(rule, cost),
        )
    }
}
