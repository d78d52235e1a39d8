// Numbers in a file, the low byte first.
ghost use Rattle.std.specs.Prelude.{◌≡◌, ◌+◌, ◌≤◌, ◌<◌, length};
ghost use Rattle.link_form.specs.Bytes.{field, power};

// The number in the `w` bytes from `at` on, from its high byte down.
pub fn read_number(bytes: &[u8], at: usize, w: usize) -> u64
    requires { (at + w ≤ length bytes.now) × (w ≤ 8) }
    ensures value { result ≡ field w at bytes.now }
    ensures upper_bound { result < power w }
{
    let mut number = 0;
    for k in (0..w).rev() {
        number = number * 256 + u64::from(bytes[at + k]);
    }
    number
}
