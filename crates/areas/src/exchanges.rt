// Two stretches of a lent area change places.
ghost use Rattle.std.specs.Prelude.{◌≡◌, ◌+◌, ◌≤◌, length};
ghost use Rattle.areas.specs.Stretch.{exchanged};

// Exchanges the `n` elements from index `p` on with those from index `q` on, which lie past them.
pub fn exchange<T: Copy>(area: &mut [T], p: usize, q: usize, n: usize)
    requires { (p + n ≤ q) × (q + n ≤ length area.old) }
    ensures { area.new ≡ exchanged p q n area.old }
{
    let (front, back) = area.split_at_mut(q);
    front[p..p + n].swap_with_slice(&mut back[..n]);
}
