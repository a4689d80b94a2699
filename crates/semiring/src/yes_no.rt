// Yes-no: is there a reading?
ghost use Rattle.semiring.specs.Kinds.{yes_no_ops};
ghost use Rattle.semiring.specs.YesNoLaws.{yes_no_lawful};

use super::semiring::Semiring;

// The kind whose total says whether there is a reading.
#[derive(Clone, Copy, Debug, Default, PartialEq, Eq)]
pub struct YesNo;

impl Semiring for YesNo {
    type Value = bool;

    ghost ops = { yes_no_ops };

    ghost lawful = { yes_no_lawful };

    fn none(&self) -> bool {
        false
    }

    fn unit(&self) -> bool {
        true
    }

    fn sum(&self, a: bool, b: bool) -> bool {
        a | b
    }

    fn product(&self, a: bool, b: bool) -> bool {
        a & b
    }

    // Every rule weighs yes.
    fn weight(&self, rule: u16, cost: u32) -> bool {
        self.unit()
    }
}
