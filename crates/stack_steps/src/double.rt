// Two stacks in one slice.
ghost use Rattle.std.specs.Prelude.{◌≡◌};
ghost use Rattle.answers.specs.Answers.{answer_of};
ghost use Rattle.peeling.specs.GraphCalls.{DomainAnswer};
ghost use Rattle.stack_steps.specs.Stacks.{push_lower, push_upper, pop_lower, pop_upper, popped_of};
ghost use Rattle.stack_steps.specs.Stacks.{PopAnswer, double_room, double_fits, lower_top, upper_top};

use crate::Head;
use answers::Refusal;
use peeling::numbers::Vertex;

// The lower stack grows from the beginning of the slice, the upper stack from its end.
#[derive(Clone, Copy)]
pub struct DoubleStack {}

// A push and a pop outside their domain are refused by 10, and leave the head and the slice. A pop gives no vertex where its stack is empty.
// The lower stack's steps are those of FastStack behind another test: shared, they would need a contract each that is longer than they are.
impl DoubleStack {
    pub fn push_lower(head: &mut Head, stack: &mut [u32], v: Vertex) -> Result<(), Refusal>
        ensures value { answer_of result ≡ (push_lower stack.old head.old v.0).result.answer }
        ensures head { head.new ≡ (push_lower stack.old head.old v.0).result.head }
        ensures stack { stack.new ≡ (push_lower stack.old head.old v.0).stack }
        ensures numbers { DomainAnswer (double_room stack.old head.old) (answer_of result) }
    {
        if !has_room(head, stack) {
            return Err(Refusal::OutsideDomain);
        }
        stack[head.lower] = v.0;
        head.lower += 1;
        Ok(())
    }

    pub fn push_upper(head: &mut Head, stack: &mut [u32], v: Vertex) -> Result<(), Refusal>
        ensures value { answer_of result ≡ (push_upper stack.old head.old v.0).result.answer }
        ensures head { head.new ≡ (push_upper stack.old head.old v.0).result.head }
        ensures stack { stack.new ≡ (push_upper stack.old head.old v.0).stack }
        ensures numbers { DomainAnswer (double_room stack.old head.old) (answer_of result) }
    {
        if !has_room(head, stack) {
            return Err(Refusal::OutsideDomain);
        }
        head.upper -= 1;
        stack[head.upper] = v.0;
        Ok(())
    }

    pub fn pop_lower(head: &mut Head, stack: &[u32]) -> Result<Option<Vertex>, Refusal>
        ensures value { popped_of result ≡ (pop_lower stack.now head.old).got }
        ensures head { head.new ≡ (pop_lower stack.now head.old).head }
        ensures numbers { PopAnswer (double_fits stack.now head.old) (lower_top stack.now head.old) (popped_of result) }
    {
        if !fits(head, stack) {
            return Err(Refusal::OutsideDomain);
        }
        if head.lower == 0 {
            return Ok(None);
        }
        head.lower -= 1;
        Ok(Some(Vertex(stack[head.lower])))
    }

    pub fn pop_upper(head: &mut Head, stack: &[u32]) -> Result<Option<Vertex>, Refusal>
        ensures value { popped_of result ≡ (pop_upper stack.now head.old).got }
        ensures head { head.new ≡ (pop_upper stack.now head.old).head }
        ensures numbers { PopAnswer (double_fits stack.now head.old) (upper_top stack.now head.old) (popped_of result) }
    {
        if !fits(head, stack) {
            return Err(Refusal::OutsideDomain);
        }
        if head.upper == stack.len() {
            return Ok(None);
        }
        let top = Vertex(stack[head.upper]);
        head.upper += 1;
        Ok(Some(top))
    }
}

// Whether the slice holds both stacks.
fn fits(head: &Head, stack: &[u32]) -> bool
    ensures { result ≡ double_fits stack.now head.now }
{
    head.upper <= stack.len() && head.lower <= head.upper
}

// Whether it holds them, and one cell more.
fn has_room(head: &Head, stack: &[u32]) -> bool
    ensures { result ≡ double_room stack.now head.now }
{
    head.upper <= stack.len() && head.lower < head.upper
}
