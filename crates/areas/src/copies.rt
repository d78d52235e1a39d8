// Copies into a stretch of a lent area, by loops: std's `copy_from_slice` and `copy_within` make an archive ask its linker for `memmove`.
ghost use Rattle.std.specs.Prelude.{◌≡◌, ◌+◌, ◌≤◌, length};
ghost use Rattle.areas.specs.Stretch.{stretch, put};

// Writes all of `src` over what stands in `area` from index `at` on.
pub fn copy<T: Copy>(src: &[T], area: &mut [T], at: usize)
    requires { at + length src.now ≤ length area.old }
    ensures { area.new ≡ put at src.now area.old }
{
    for i in 0..src.len() {
        area[at + i] = src[i];
    }
}

// Writes the `n` elements from index `from` on over those from index `to` on.
pub fn copy_within<T: Copy>(area: &mut [T], from: usize, n: usize, to: usize)
    requires { (from + n ≤ length area.old) × (to + n ≤ length area.old) }
    ensures { area.new ≡ put to (stretch from n area.old) area.old }
{
    if to <= from {
        copy_down(area, from, n, to);
    } else {
        copy_up(area, from, n, to);
    }
}

// The same to a lower index, from the first element on.
fn copy_down<T: Copy>(area: &mut [T], from: usize, n: usize, to: usize)
    requires { (to ≤ from) × (from + n ≤ length area.old) }
    ensures { area.new ≡ put to (stretch from n area.old) area.old }
{
    for i in 0..n {
        area[to + i] = area[from + i];
    }
}

// The same to a higher index, from the last element on.
fn copy_up<T: Copy>(area: &mut [T], from: usize, n: usize, to: usize)
    requires { (from ≤ to) × (to + n ≤ length area.old) }
    ensures { area.new ≡ put to (stretch from n area.old) area.old }
{
    for i in (0..n).rev() {
        area[to + i] = area[from + i];
    }
}
