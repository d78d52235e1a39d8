// The calls and replies of a case: four numbers a call, three a reply.
use crate::replies::{Reply, is_reply};
use replay_cases::lists::Lists;
use replay_cases::said::Verdict;

// What to call, and what with; a stack is called with `v` alone.
#[derive(Clone, Copy)]
pub struct Call {
    pub op: u32,
    pub v: u32,
    pub x: u32,
    pub side: u32,
}

// Whether each call in turn makes its reply.
pub(crate) fn replied<F: FnMut(Call) -> Reply>(calls: &[u32], replies: &[u32], mut make: F) -> bool
    requires { F.IsAlwaysCallable make }
{
    for i in 0..calls.len() / 4 {
        let call = Call {
            op: calls[4 * i],
            v: calls[4 * i + 1],
            x: calls[4 * i + 2],
            side: calls[4 * i + 3],
        };
        if !is_reply(make(call), replies, 3 * i) {
            return false;
        }
    }
    true
}

// Holds `replay` to a case: it is given the size, the calls and the replies, and says whether they agree.
pub(crate) fn case_of<F: FnOnce(u64, &[u32], &[u32]) -> bool>(
    bytes: &[u8],
    replay: F,
) -> Option<Verdict>
    requires { F.IsAlwaysCallable replay }
{
    let mut lists = Lists::new(bytes);
    let mut size = [0u64; 1];
    let mut calls = [0u32; 1024];
    let mut replies = [0u32; 1024];
    lists.load(&mut size)?;
    let i = lists.load(&mut calls)?;
    let j = lists.load(&mut replies)?;
    if lists.at_end() && replay(size[0], &calls[..i], &replies[..j]) {
        return Some(Verdict::Same);
    }
    None
}
