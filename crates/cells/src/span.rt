//! How far a cell reaches.
ghost use Rattle.std.specs.Prelude.{◌≡◌, ◌^◌, ◌<◌};
ghost use Rattle.cells.specs.Spans.{span as reach};

use runs::Place;

// A power of two.
pub(crate) fn power(exponent: u32) -> u32
    requires { exponent < 32 }
    ensures { result ≡ 2 ^ exponent }
{
    1 << exponent
}

// The largest power of two that divides a place.
pub(crate) fn span(place: Place) -> u32
    ensures { result ≡ reach place.number }
{
    power(place.number.trailing_zeros())
}
