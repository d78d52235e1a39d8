// The largest sizes, and the rooms that the calls ask for.
ghost use Rattle.std.specs.Prelude.{◌≡◌, ◌≤◌};
ghost use Rattle.answers.specs.Sizes.{max_variables, max_equations, max_listed, max_row_words};
ghost use Rattle.answers.specs.Sizes.{sparse_numbers, lazy_numbers, lazy_words, dense_words, peel_high_numbers, peel_high_bytes, peel_low_numbers};

// The largest n: variables, vertices, cells.
pub const MAX_VARIABLES: usize = 16384;
// The largest m: equations, rows, edges.
pub const MAX_EQUATIONS: usize = 16384;
// The largest t: listed variables of a system.
pub const MAX_LISTED: usize = 65536;
// The largest number of variables in one list of the sum.
pub const MAX_SUMMED: usize = 65536;
// The largest w: words of a dense row.
pub const MAX_ROW_WORDS: usize = 256;

// The numbers that sparse elimination asks for.
pub fn sparse_numbers(n: usize, m: usize) -> usize
    requires { (n ≤ max_variables) × (m ≤ max_equations) }
    ensures { result ≡ sparse_numbers n m }
{
    m * n + n + m
}

// The numbers that lazy elimination asks for.
pub fn lazy_numbers(n: usize, m: usize, t: usize) -> usize
    requires { (n ≤ max_variables) × (m ≤ max_equations) × (t ≤ max_listed) }
    ensures { result ≡ lazy_numbers n m t }
{
    2 * (m * n) + t + 6 * n + 7 * m + 2
}

// The words that lazy elimination asks for.
pub fn lazy_words(m: usize) -> usize
    requires { m ≤ max_equations }
    ensures { result ≡ lazy_words m }
{
    2 * m
}

// The words that dense elimination asks for.
pub fn dense_words(m: usize, w: usize) -> usize
    requires { (m ≤ max_equations) × (w ≤ max_row_words) }
    ensures { result ≡ dense_words m w }
{
    m * w + m
}

// The numbers that the high-memory peeler asks for.
pub fn peel_high_numbers(n: usize, m: usize) -> usize
    requires { (n ≤ max_variables) × (m ≤ max_equations) }
    ensures { result ≡ peel_high_numbers n m }
{
    2 * n + m
}

// The bytes that the high-memory peeler asks for.
pub fn peel_high_bytes(n: usize, m: usize) -> usize
    requires { (n ≤ max_variables) × (m ≤ max_equations) }
    ensures { result ≡ peel_high_bytes n m }
{
    n + m
}

// The numbers that the low-memory peeler asks for.
pub fn peel_low_numbers(n: usize) -> usize
    requires { n ≤ max_variables }
    ensures { result ≡ peel_low_numbers n }
{
    2 * n
}
