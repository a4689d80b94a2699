// The cap of counts and costs.
ghost use Rattle.std.specs.Prelude.{◌≡◌};
ghost use Rattle.semiring.specs.Kinds;

// The largest count and the largest cost.
pub const CAP: u32 = 1_000_000_000;

// A number above the cap becomes the cap.
pub(crate) fn capped(n: u64) -> u32
    ensures { result ≡ Kinds.capped n }
{
    n.min(u64::from(CAP)) as u32
}
