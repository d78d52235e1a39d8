// The order of a list of variables.
ghost use Rattle.std.specs.Prelude.{◌≡◌};
ghost use Rattle.equation.specs.Increase.{rises};

// Whether `s` is strictly increasing.
pub fn increasing(s: &[u32]) -> bool
    ensures { result ≡ rises s.now }
{
    s.is_sorted_by(|x, y| *x < *y)
}
