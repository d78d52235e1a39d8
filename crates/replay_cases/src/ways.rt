// Each way of lending tried.
ghost use Rattle.std.specs.Prelude.{◌≤◌, length, IsTrue, EachIndex, slice_index_or};
ghost use Rattle.replay_cases.specs.Ways.{SaysYes};

use crate::lend::{Room, Way, lent_as, wanted};
use crate::said::Said;
use lent_cells::cells::{Cell, mark, marked};

// Whether `judge` says yes each way, of marked areas that are lent so and of what must then be answered. The words or bytes are lent from `others`.
pub fn each_way<C: Cell, F: Fn(Said, &mut [u64], &mut [u32], &mut [C]) -> bool>(
    ways: &[Way],
    room: Room,
    said: Said,
    others: &mut [C],
    judge: F,
) -> bool
    requires callable { F.IsAlwaysCallable judge }
    requires room { 1024 ≤ length others.old }
    ensures { IsTrue result → EachIndex ways.now (λ k. SaysYes F.Fn judge C.MARK room said (slice_index_or ways.now k Way.Exact)) }
{
    for way in ways {
        if !one_way(*way, room, said, others, &judge) {
            return false;
        }
    }
    true
}

fn one_way<C: Cell, F: Fn(Said, &mut [u64], &mut [u32], &mut [C]) -> bool>(
    way: Way,
    room: Room,
    said: Said,
    others: &mut [C],
    judge: &F,
) -> bool
    requires callable { F.IsAlwaysCallable judge.now }
    requires room { 1024 ≤ length others.old }
    ensures { IsTrue result → SaysYes F.Fn judge.now C.MARK room said way }
{
    let lent = lent_as(way, room);
    let mut solution = marked::<u64, 1024>();
    let mut numbers = marked::<u32, 65536>();
    mark(others);
    judge(
        wanted(way, room, said),
        &mut solution[..lent.solution],
        &mut numbers[..lent.numbers],
        &mut others[..lent.others],
    )
}
