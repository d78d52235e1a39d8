// Equations over the field of two elements: a strictly increasing list of variables and a constant.
#![tactic(auto)]

ghost use Rattle.equation.specs.Sums.{sum_call, ToldBy};

use answers::Refusal;

mod increase;
pub mod merge;

#[derive(Clone, Copy, PartialEq, Debug)]
pub struct Summed {
    pub len: usize,
    pub constant: u64,
    // How many variables stood in both lists.
    pub cancelled: usize,
}

// The sum of two equations, written into `out`.
pub fn sum(
    left: &[u32],
    right: &[u32],
    left_c: u64,
    right_c: u64,
    out: &mut [u32],
) -> Result<Summed, Refusal>
    ensures { ToldBy result out.new (sum_call left.now right.now left_c right_c out.old) }
{
    if left.len() > answers::MAX_SUMMED || right.len() > answers::MAX_SUMMED {
        return Err(Refusal::TooLarge);
    }
    if !increase::increasing(left) {
        return Err(Refusal::BadEntry(0));
    }
    if !increase::increasing(right) {
        return Err(Refusal::BadEntry(1));
    }
    if out.len() < left.len() + right.len() {
        return Err(Refusal::ShortArea);
    }
    let len = merge::add_ptr(left, right, out);
    areas::fill(out, len, left.len() + right.len(), 0);
    Ok(Summed {
        len,
        constant: left_c ^ right_c,
        cancelled: (left.len() + right.len() - len) / 2,
    })
}
