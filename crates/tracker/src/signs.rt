// Signed numbers as they come in an arrival or a set-up.
ghost use Rattle.std.specs.Prelude.{◌≡◌};
ghost use Rattle.gaps.specs.Channel.{natural};

// The number, or 0 where it is below.
pub(crate) fn natural(number: i64) -> u64
    ensures { result ≡ natural number }
{
    u64::try_from(number).unwrap_or(0)
}
