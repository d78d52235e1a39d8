// Calls on one stack, replayed.
use crate::calls::{Call, case_of, replied};
use crate::replies::{Reply, popped, told, valued};
use answers::Refusal;
use peeling::numbers::Vertex;
use replay_cases::said::Verdict;
use stacks::Head;
use stacks::double::DoubleStack;
use stacks::fast::FastStack;

// Which kind of stack is called.
#[derive(Clone, Copy, PartialEq, Debug)]
pub enum Stack {
    Fast,
    Double,
}

// No stack of the file has more cells.
const CELLS: usize = 16;

fn length(count: usize) -> Reply {
    valued::<(), Refusal>(&Ok(()), count.min(CELLS) as u32, 0)
}

// Push, pop, length, by the file's numbers: they stand here and below alone, and an enum would only name each call once more.
fn fast_call(head: &mut Head, stack: &mut [u32], call: Call) -> Reply {
    match call.op {
        0 => told(&FastStack::push(head, stack, Vertex(call.v))),
        1 => popped(&FastStack::pop(head, stack)),
        _ => length(head.lower),
    }
}

// Push below, push above, pop below, pop above, length above.
fn double_call(head: &mut Head, stack: &mut [u32], call: Call) -> Reply {
    match call.op {
        0 => told(&DoubleStack::push_lower(head, stack, Vertex(call.v))),
        1 => told(&DoubleStack::push_upper(head, stack, Vertex(call.v))),
        2 => popped(&DoubleStack::pop_lower(head, stack)),
        3 => popped(&DoubleStack::pop_upper(head, stack)),
        _ => length(stack.len().saturating_sub(head.upper)),
    }
}

// Whether an empty stack of `n` cells replies so.
fn stack_run(kind: Stack, n: u64, calls: &[u32], replies: &[u32]) -> bool {
    let n = n as usize;
    if CELLS < n {
        return false;
    }
    let mut cells = [0u32; CELLS];
    let stack = &mut cells[..n];
    let mut head = Head { lower: 0, upper: n };
    replied(calls, replies, |call| match kind {
        Stack::Fast => fast_call(&mut head, stack, call),
        Stack::Double => double_call(&mut head, stack, call),
    })
}

pub fn stack_case(kind: Stack, bytes: &[u8]) -> Verdict {
    case_of(
        bytes,
        |n, calls, replies| stack_run(kind, n, calls, replies),
    )
    .unwrap_or(Verdict::Different)
}
