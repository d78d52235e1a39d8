// The XOR of the values of a row's columns.
ghost use Rattle.std.specs.Prelude.{◌≡◌, ◌-◌, ◌*◌, ◌≤◌, ◌<◌, length};
ghost use Rattle.gf2.specs.Equation.{Each, eval_vars};
ghost use Rattle.answers.specs.Sizes.{max_row_words};
ghost use Rattle.dense_rows.specs.Bits.{columns_from, set_bits};

// The XOR of the values of a word's set bits, numbered from `base` on: lowest first.
pub fn word_value(word: u64, base: usize, values: &[u64]) -> u64
    requires { Each (λ u. u < length values.now) (set_bits 64 base word) }
    ensures { result ≡ eval_vars (set_bits 64 base word) values.now }
{
    let mut left = word;
    let mut value = 0;
    // no range or iterator of the library goes over the set bits of a word
    while left != 0 {
        value ^= values[base + left.trailing_zeros() as usize];
        left &= left - 1;
    }
    value
}

// The XOR of the values of a row's columns, from its word `from` on.
pub fn row_value(row: &[u64], from: usize, values: &[u64]) -> u64
    requires { (from ≤ length row.now) × (length row.now ≤ max_row_words) × Each (λ u. u < length values.now) (columns_from (64 * (length row.now - from)) (64 * from) row.now) }
    ensures { result ≡ eval_vars (columns_from (64 * (length row.now - from)) (64 * from) row.now) values.now }
{
    let mut value = 0;
    for j in from..row.len() {
        value ^= word_value(row[j], 64 * j, values);
    }
    value
}
