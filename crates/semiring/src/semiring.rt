// What a kind of value has and owes.
ghost use Rattle.std.specs.Prelude.{◌≡◌};
ghost use Rattle.semiring.specs.Laws.{Ops, Lawful};

// A kind of value: none, unit, sum, product, and the weight of a rule. It says which values it admits, and its laws
// hold of those. On other values sum and product end safely and promise nothing.
pub trait Semiring {
    type Value: Copy;

    // The operations, and which values are admitted.
    ghost ops: { Ops Self.Value };

    // That they obey the laws.
    ghost lawful: { Lawful ops };

    // Neutral in sums: the total of no reading.
    fn none(&self) -> Self::Value
        ensures { result ≡ ops.none };

    // Neutral in products.
    fn unit(&self) -> Self::Value
        ensures { result ≡ ops.unit };

    // Joins the values of different readings.
    fn sum(&self, a: Self::Value, b: Self::Value) -> Self::Value
        ensures { ops.admits a → ops.admits b → result ≡ ops.sum a b };

    // Joins the values along one reading.
    fn product(&self, a: Self::Value, b: Self::Value) -> Self::Value
        ensures { ops.admits a → ops.admits b → result ≡ ops.product a b };

    // The value of one use of a rule.
    fn weight(&self, rule: u16, cost: u32) -> Self::Value
        ensures { result ≡ ops.weight rule cost };
}
