// `check`, replayed.
use answers::Refusal;
use replay_cases::lists::Lists;
use replay_cases::said::{Said, Verdict, agrees, came_of, said_of};
use system::System;

// The file says 0 for yes and 6 for no.
fn told(checked: &Result<bool, Refusal>, said: Said) -> bool {
    match checked {
        Ok(true) => said.number == 0,
        Ok(false) => said.number == 6,
        Err(_) => agrees(checked, said),
    }
}

// None where a list is broken.
fn verdict(bytes: &[u8]) -> Option<Verdict> {
    let mut lists = Lists::new(bytes);
    let mut sizes = [0u64; 2];
    let mut starts = [0u32; 256];
    let mut vars = [0u32; 8192];
    let mut constants = [0u64; 256];
    let mut solution = [0u64; 256];
    let mut list = [0u64; 8];
    lists.load(&mut sizes)?;
    let i = lists.load(&mut starts)?;
    let j = lists.load(&mut vars)?;
    let k = lists.load(&mut constants)?;
    let l = lists.load(&mut solution)?;
    let p = lists.load(&mut list)?;
    if !lists.at_end() {
        return None;
    }
    let system = System {
        n: sizes[0] as usize,
        m: sizes[1] as usize,
        starts: &starts[..i],
        vars: &vars[..j],
        constants: &constants[..k],
    };
    let said = said_of(&list[..p]);
    let checked = system_check::check(&system, &solution[..l]);
    Some(came_of(told(&checked, said), said))
}

pub fn check_case(bytes: &[u8]) -> Verdict {
    verdict(bytes).unwrap_or(Verdict::Different)
}
