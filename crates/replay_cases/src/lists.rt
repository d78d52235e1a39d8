// A case is lists of numbers: the bytes of one number (a byte), how many there are (two bytes), then the numbers; the low byte first.
ghost use Rattle.std.specs.Prelude.{◌≡◌, ℕ, ◌≤◌, ◌<◌, length, map, IsTrue, ◌↔◌, IfSome};
ghost use Rattle.link_form.specs.Bytes.{power};
ghost use Rattle.replay_cases.specs.Lists.{whole_list, head_at, Loads};

use link_form::read_number;

// A number that a list is read to.
pub trait Listed: Copy {
    ghost BYTES: { ℕ };

    ghost value: { Self → ℕ };

    // The most bytes that a number of the list may have.
    const BYTES: usize;

    fn listed(number: u64) -> Self
        requires { number < power BYTES }
        ensures { value result ≡ number };
}

impl Listed for u32 {
    ghost BYTES = { 4 };

    ghost value = { λ x. x };

    const BYTES: usize = 4;

    fn listed(number: u64) -> u32 {
        number as u32
    }
}

impl Listed for u64 {
    ghost BYTES = { 8 };

    ghost value = { λ x. x };

    const BYTES: usize = 8;

    fn listed(number: u64) -> u64 {
        number
    }
}

// The bytes of one number, how many numbers there are, and where they begin.
#[derive(Clone, Copy, PartialEq, Debug)]
pub struct ListHead {
    pub width: usize,
    pub count: usize,
    pub at: usize,
}

// The lists from `at` on.
#[derive(Clone, Copy)]
pub struct Lists<'a> {
    pub bytes: &'a [u8],
    pub at: usize,
}

impl<'a> Lists<'a> {
    pub fn new(bytes: &'a [u8]) -> Lists<'a>
        ensures bytes { result.bytes.now ≡ bytes.now }
        ensures at { result.at ≡ 0 }
    {
        Lists { bytes, at: 0 }
    }

    // Whether no byte is left.
    pub fn at_end(&self) -> bool
        ensures { IsTrue result ↔ self.now.at ≡ length self.now.bytes.now }
    {
        self.at == self.bytes.len()
    }

    // Reads the next list to the front of `out`, and says how many numbers it has. Where there is no such list, or no room for it, all stays as it is.
    pub fn load<T: Listed>(&mut self, out: &mut [T]) -> Option<usize>
        ensures bytes { self.new.bytes.now ≡ self.old.bytes.now }
        ensures room { IfSome result (λ count. count ≤ length out.old) }
        ensures loads { Loads T.BYTES self.old.at self.old.bytes.now (map T.value out.old) result self.new.at (map T.value out.new) }
    {
        let head = head_at(self.bytes, self.at)?;
        if out.len() < head.count || T::BYTES < head.width {
            return None;
        }
        let mut at = head.at;
        for i in 0..head.count {
            out[i] = T::listed(read_number(self.bytes, at, head.width));
            at += head.width;
        }
        self.at = at;
        Some(head.count)
    }
}

// The list whose numbers begin at `at`, if all of them are there.
fn whole_list(width: usize, count: usize, at: usize, end: usize) -> Option<ListHead>
    requires { (width < 256) × (count < 65536) × (at ≤ end) }
    ensures { result ≡ whole_list width count at end }
{
    if 8 < width || end - at < count * width {
        return None;
    }
    Some(ListHead { width, count, at })
}

fn head_at(bytes: &[u8], at: usize) -> Option<ListHead>
    ensures { result ≡ head_at at bytes.now }
{
    let end = bytes.len();
    if end < at || end - at < 3 {
        return None;
    }
    let width = read_number(bytes, at, 1) as usize;
    let count = read_number(bytes, at + 1, 2) as usize;
    whole_list(width, count, at + 3, end)
}
