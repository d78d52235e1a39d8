// What a call on a graph or a stack replies.
ghost use Rattle.std.specs.Prelude.{◌≡◌};
ghost use Rattle.answers.specs.Answers.{answer_by};
ghost use Rattle.replay_graphs.specs.Replies.{valued_reply, popped_by, popped_reply, is_reply};

use answers::Numbered;
use peeling::numbers::Vertex;

#[derive(Clone, Copy, PartialEq, Debug)]
pub struct Reply {
    pub number: u32,
    pub value: u32,
    pub side: u32,
}

// The file's number for a pop that finds nothing.
pub const EMPTY: u32 = 11;

pub fn told<T, E: Numbered>(answer: &Result<T, E>) -> Reply
    ensures { result ≡ valued_reply (answer_by E.answer answer.now) 0 0 }
{
    valued(answer, 0, 0)
}

pub fn valued<T, E: Numbered>(answer: &Result<T, E>, value: u32, side: u32) -> Reply
    ensures { result ≡ valued_reply (answer_by E.answer answer.now) value side }
{
    Reply {
        number: answers::number(answer),
        value,
        side,
    }
}

pub fn popped<E: Numbered>(got: &Result<Option<Vertex>, E>) -> Reply
    ensures { result ≡ popped_reply (popped_by E.answer got.now) }
{
    match got {
        Ok(Some(v)) => valued(got, v.0, 0),
        Ok(None) => Reply {
            number: EMPTY,
            value: 0,
            side: 0,
        },
        Err(_) => told(got),
    }
}

// Whether the three numbers from `at` on are the reply.
pub fn is_reply(reply: Reply, replies: &[u32], at: usize) -> bool
    ensures { result ≡ is_reply reply replies.now at }
{
    if replies.len() < 3 || replies.len() - 3 < at {
        return false;
    }
    let wanted = Reply {
        number: replies[at],
        value: replies[at + 1],
        side: replies[at + 2],
    };
    reply == wanted
}
