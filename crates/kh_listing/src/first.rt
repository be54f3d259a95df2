//! The first of several places.
ghost use Rattle.kh_listing.specs.Outcome.{earlier};
ghost use Rattle.std.specs.Prelude.{◌≡◌};

/// The earlier of two places, where there is one.
pub fn earlier(a: Option<usize>, b: Option<usize>) -> Option<usize>
    ensures { result ≡ earlier a b }
{
    match (a, b) {
        (Some(i), Some(j)) => Some(i.min(j)),
        (Some(i), None) => Some(i),
        (None, Some(j)) => Some(j),
        (None, None) => None,
    }
}
