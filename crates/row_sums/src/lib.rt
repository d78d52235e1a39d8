// The sum of two rows of one area.
#![tactic(auto)]

ghost use Rattle.std.specs.Prelude.{◌≡◌, length};
ghost use Rattle.areas.specs.Stretch.{put};
ghost use Rattle.areas.specs.Rows.{padded};
ghost use Rattle.row_sums.specs.AddFits.{AddFits};
ghost use Rattle.row_sums.specs.RowSum.{row_sum};

#[tactic(auto, using(crate::proofs::SettleRow::sum_short))]
// Adds the row at `q` into the row at `p`, and returns the length of the sum; the scratch row is zeros again.
pub fn add_into(
    area: &mut [u32],
    n: usize,
    p: usize,
    li: usize,
    q: usize,
    lj: usize,
    s: usize,
) -> usize
    requires { AddFits area.old n p li q lj s }
    ensures value { result ≡ length (row_sum area.old p li q lj) }
    ensures area_after { area.new ≡ put p (padded n (row_sum area.old p li q lj)) area.old }
{
    let (rows, scratch) = area.split_at_mut(s);
    let len = equation::merge::add_ptr(&rows[p..p + li], &rows[q..q + lj], scratch);
    areas::copy(&scratch[..len], rows, p);
    // No more is zeroed than the old row and the sum have written.
    areas::fill(rows, p + len, p + li.max(len), 0);
    areas::fill(scratch, 0, len, 0);
    len
}
