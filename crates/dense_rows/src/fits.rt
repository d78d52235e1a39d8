// Rows without a bit at column n or above.
ghost use Rattle.std.specs.Prelude.{◌≡◌};
ghost use Rattle.dense_rows.specs.Bits.{row_fits};

// Whether the row has no bit at column `n` or above.
pub fn row_fits(row: &[u64], n: usize) -> bool
    ensures { result ≡ row_fits n row.now }
{
    let Some(first) = row.get(n / 64) else {
        return true;
    };
    first >> (n % 64) == 0 && row[n / 64 + 1..].iter().all(|word| *word == 0)
}
