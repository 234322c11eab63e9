ghost use Rattle.std.specs.Prelude.{◌≡◌};
ghost use Rattle.limits.specs.Breach.{unless, stacked};

/// The breach of a rule alone.
pub(crate) fn breach_unless(holds: bool) -> u32
    ensures { result ≡ unless holds }
{
    u32::from(!holds)
}

/// The breach of a layer: 1 where its own rule fails, else one more than a breach below.
pub(crate) fn stack(own: u32, below: u32) -> u32
    ensures { result ≡ stacked own below }
{
    if own != 0 {
        return 1;
    }
    if below == 0 {
        return 0;
    }
    below.saturating_add(1)
}
