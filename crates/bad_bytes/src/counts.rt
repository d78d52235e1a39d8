// Answers counted by number, and those that the form rules out.
ghost use Rattle.std.specs.Prelude.{◌≤◌, IfSome};

#[derive(Clone, Copy, Default)]
pub struct Tally {
    numbers: [u64; 10],
    // Texts that are none of an answer.
    none: u64,
    // Answers that are not what they must be.
    against: u64,
}

// The line `name, number: times`, where there is something to tell. A write that fails is passed over.
fn tell_number(rt: &impl Print, name: &str, number: usize, times: u64) {
    if times == 0 {
        return;
    }
    let _ = println!(rt; "{name}, number {number}: {times}");
}

impl Tally {
    // Counts an answer; `must` is `None` where the form does not decide.
    pub fn count(&mut self, number: Option<usize>, must: Option<usize>)
        requires { IfSome number (λ n. n ≤ 9) }
    {
        match number {
            Some(n) => self.numbers[n] = self.numbers[n].wrapping_add(1),
            None => self.none = self.none.wrapping_add(1),
        }
        if must.is_some() && number != must {
            self.against = self.against.wrapping_add(1);
        }
    }

    // Texts that are none of an answer are told as number 10.
    pub fn tell(&self, rt: &impl Print, name: &str) {
        for (number, times) in self.numbers.iter().enumerate() {
            tell_number(rt, name, number, *times);
        }
        tell_number(rt, name, 10, self.none);
        let against = self.against;
        let _ = println!(rt; "{name}, against the form: {against}");
    }
}
