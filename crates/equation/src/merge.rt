// The merge of two increasing lists: what stands in both goes.
ghost use Rattle.std.specs.Prelude.{◌≡◌, ◌≤◌, length, take};
ghost use Rattle.gf2.specs.Equation.{sym_diff};
ghost use Rattle.areas.specs.Stretch.{put};
ghost use Rattle.equation.specs.Merging.{Ended};

// How far a merge has come: in each list, and in the output.
#[derive(Clone, Copy)]
pub struct Place {
    pub left: usize,
    pub right: usize,
    pub out: usize,
}

// Merges `left` and `right` into `out` until one of them ends.
fn merge(left: &[u32], right: &[u32], out: &mut [u32]) -> Place
    requires { length (sym_diff left.now right.now) ≤ length out.old }
    ensures ended { Ended left.now right.now result.left result.right result.out }
    ensures out_after { out.new ≡ put 0 (take result.out (sym_diff left.now right.now)) out.old }
{
    // Three indices that move each for itself: no `for` or chain says it more plainly.
    let mut i = 0;
    let mut j = 0;
    let mut d = 0;
    // Left smaller: only the left list has this variable, so it is written, and the left list moves on.
    // Right smaller: only the right list has this variable, so it is written, and the right list moves on.
    // Equal: both lists have this variable, so it cancels, and both lists move on.
    // Left by `continue`: with `else if` the solvers take up to 3 percent more instructions, with a `match` on the order a third more.
    while i < left.len() && j < right.len() {
        let l = left[i];
        let r = right[j];
        if l < r {
            out[d] = l;
            i += 1;
            d += 1;
            continue;
        }
        if r < l {
            out[d] = r;
            j += 1;
            d += 1;
            continue;
        }
        i += 1;
        j += 1; // and nothing is written
    }
    Place {
        left: i,
        right: j,
        out: d,
    }
}

// Writes the sum of `left` and `right` to the front of `out`, and returns its length.
pub fn add_ptr(left: &[u32], right: &[u32], out: &mut [u32]) -> usize
    requires { length (sym_diff left.now right.now) ≤ length out.old }
    ensures value { result ≡ length (sym_diff left.now right.now) }
    ensures out_after { out.new ≡ put 0 (sym_diff left.now right.now) out.old }
{
    let Place {
        left: i,
        right: j,
        out: d,
    } = merge(left, right, out);
    areas::copy(&left[i..], out, d);
    let e = d + (left.len() - i);
    areas::copy(&right[j..], out, e);
    e + (right.len() - j)
}
