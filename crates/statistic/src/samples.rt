// Samples: which are taken.
ghost use Rattle.std.specs.Prelude.{◌≡◌};
ghost use Rattle.statistic.specs.Samples.{is_sample};

// Is it from -32768 to 32767?
pub(crate) fn is_sample(item: i32) -> bool
    ensures { result ≡ is_sample item }
{
    (-32768..=32767).contains(&item)
}
