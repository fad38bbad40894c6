// Which kind of value an f64 is.
ghost use Rattle.std.specs.Prelude.{◌≡◌};
ghost use Rattle.scalar.specs.Class.{is_zero, is_finite};

// Equal to 0: also -0, and not NaN.
pub fn is_zero(x: f64) -> bool
    ensures { result ≡ is_zero x }
{
    x == 0.0
}

// Neither NaN nor an infinity.
pub fn is_finite(x: f64) -> bool
    ensures { result ≡ is_finite x }
{
    x.is_finite()
}
