// One stack.
ghost use Rattle.std.specs.Prelude.{◌≡◌};
ghost use Rattle.answers.specs.Answers.{answer_of};
ghost use Rattle.peeling.specs.GraphCalls.{DomainAnswer};
ghost use Rattle.stack_steps.specs.Stacks.{PopAnswer, fast_push, fast_pop, fast_room, fast_fits, lower_top, popped_of};

use crate::Head;
use answers::Refusal;
use peeling::numbers::Vertex;

// A stack that starts at the beginning of its slice; of its head only `lower` counts.
#[derive(Clone, Copy)]
pub struct FastStack {}

// A push and a pop outside their domain are refused by 10, and leave the head and the slice.
impl FastStack {
    // The vertex goes on top of the cells below `lower`.
    pub fn push(head: &mut Head, stack: &mut [u32], v: Vertex) -> Result<(), Refusal>
        ensures value { answer_of result ≡ (fast_push stack.old head.old v.0).result.answer }
        ensures head { head.new ≡ (fast_push stack.old head.old v.0).result.head }
        ensures stack { stack.new ≡ (fast_push stack.old head.old v.0).stack }
        ensures numbers { DomainAnswer (fast_room stack.old head.old) (answer_of result) }
    {
        if stack.len() <= head.lower {
            return Err(Refusal::OutsideDomain);
        }
        stack[head.lower] = v.0;
        head.lower += 1;
        Ok(())
    }

    // No vertex where the stack is empty.
    pub fn pop(head: &mut Head, stack: &[u32]) -> Result<Option<Vertex>, Refusal>
        ensures value { popped_of result ≡ (fast_pop stack.now head.old).got }
        ensures head { head.new ≡ (fast_pop stack.now head.old).head }
        ensures numbers { PopAnswer (fast_fits stack.now head.old) (lower_top stack.now head.old) (popped_of result) }
    {
        if stack.len() < head.lower {
            return Err(Refusal::OutsideDomain);
        }
        if head.lower == 0 {
            return Ok(None);
        }
        head.lower -= 1;
        Ok(Some(Vertex(stack[head.lower])))
    }
}
