// One value in a stretch of a lent area.
ghost use Rattle.std.specs.Prelude.{◌≡◌, ◌-◌, ◌≤◌, length, replicate};
ghost use Rattle.areas.specs.Stretch.{put};

// Writes `value` from index `from` up to, not including, index `to`.
pub fn fill<T: Copy>(area: &mut [T], from: usize, to: usize, value: T)
    requires { (from ≤ to) × (to ≤ length area.old) }
    ensures { area.new ≡ put from (replicate (to - from) value) area.old }
{
    // not std's `fill`, which clones: it asks that a clone cannot fail, and `Copy` alone does not say so
    for k in from..to {
        area[k] = value;
    }
}
