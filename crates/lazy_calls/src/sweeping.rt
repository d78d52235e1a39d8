// The end of a run: the numbers become zero again.
ghost use Rattle.std.specs.Prelude.{◌≡◌, length, replicate};
ghost use Rattle.lazy_units.specs.Tidy.{Tidy};

use lazy_setup::Layout;

// Zeroes all numbers; past its length a row is zero already, so of each only what it holds is written.
pub fn sweep(numbers: &mut [u32], layout: Layout)
    requires { Tidy layout.n layout.m layout numbers.old }
    ensures { numbers.new ≡ replicate (length numbers.old) 0 }
{
    let Layout { n, m, dense, .. } = layout;
    let end = dense + m * n;
    rows::empty_rows(numbers, 0, layout.lengths, n, m);
    areas::fill(numbers, layout.lengths, dense, 0);
    rows::empty_rows(numbers, dense, end + n, n, m);
    areas::fill(numbers, end, numbers.len(), 0);
}
