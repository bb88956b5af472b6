// Losses as fractions.
ghost use Rattle.std.specs.Prelude.{◌≡◌};

// The loss itself as a cut, numerator and denominator: all three kinds prune by it.
pub(crate) fn thousandths(loss: u32) -> (u64, u64)
    ensures { result ≡ (loss, 1000) }
{
    (u64::from(loss), 1000)
}
