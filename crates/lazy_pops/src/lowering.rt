// Priorities lowered, and equations pushed on reaching 1.
ghost use Rattle.std.specs.Prelude.{◌≡◌, ◌+◌, ◌≤◌, ◌<◌, length, get_or};
ghost use Rattle.lazy_pops.specs.Lowering.{LowerFits, now_pushed, lowered_in, lower_one, top_after, LowerOneFits};

use lazy_setup::Layout;

// One equation loses 1 in priority, and is pushed on reaching 1: how high the equation list is then.
fn lower(numbers: &mut [u32], layout: Layout, top: usize, e: u32) -> usize
    requires { LowerOneFits numbers.old layout.priority layout.equations top e }
    ensures value { result ≡ top_after numbers.old layout.priority top e }
    ensures numbers_after { numbers.new ≡ lower_one numbers.old layout.priority layout.equations top e }
{
    let at = layout.priority + e as usize;
    let p = numbers[at];
    numbers[at] = p - 1;
    if p != 2 {
        return top;
    }
    numbers[layout.equations + top] = e;
    top + 1
}

// The `count` equations from `list` on, but for `skip`, each lose 1 in priority and are pushed on reaching 1: how high the equation list
// is then. A `skip` of m skips none: an Option would be compared for each equation, and say no more.
pub fn lower_in(
    numbers: &mut [u32],
    layout: Layout,
    list: usize,
    count: usize,
    skip: usize,
    top: usize,
) -> usize
    requires { LowerFits numbers.old list count skip layout.priority layout.m layout.equations top }
    ensures value { result ≡ length (now_pushed numbers.old list count skip layout.priority layout.m layout.equations top) }
    ensures numbers_after { numbers.new ≡ lowered_in numbers.old list count skip layout.priority layout.m layout.equations top }
{
    let mut t = top;
    for k in 0..count {
        let e = numbers[list + k];
        if e as usize != skip {
            t = lower(numbers, layout, t, e);
        }
    }
    t
}
