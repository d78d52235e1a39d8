// Rows of one area that change places or are XORed, each from a word on, that word included.
#![tactic(auto)]

ghost use Rattle.std.specs.Prelude.{◌≡◌, ◌≢◌, ◌⊎◌, ◌+◌, ◌/◌, ◌*◌, ◌≤◌, ◌<◌, length, set, get_or};
ghost use Rattle.areas.specs.Stretch.{stretch, put};
ghost use Rattle.dense_rows.specs.Bits.{xor_words};
ghost use Rattle.dense_rows.specs.Rows.{held, Became};
ghost use Rattle.dense_rows.specs.Areas.{rows_in, Holds};
ghost use Rattle.dense_rows.specs.Steps.{no_row, swap_rows, xor_from, clear_below};
ghost use Rattle.dense_steps.specs.Clearing.{cleared_rows};

use dense_rows::Area;

// Rows `i` and `j` change places from the word on, and their constants.
pub fn swap_rows(area: &mut Area, word: usize, i: usize, j: usize)
    requires { (word ≤ area.old.w) × (i < j) × (j < area.old.m) }
    ensures { Holds area.old (swap_rows word i j (rows_in area.old)) area.new }
{
    let Area { m, w, .. } = *area;
    areas::exchange(area.words, i * w + word, j * w + word, w - word);
    areas::exchange(area.words, m * w + i, m * w + j, 1);
}

// XORs the `n` words from index `from` on into those from index `to` on, which lie past them or before them.
pub fn xor_words(words: &mut [u64], from: usize, to: usize, n: usize)
    requires { ((from + n ≤ to) ⊎ (to + n ≤ from)) × (from + n ≤ length words.old) × (to + n ≤ length words.old) }
    ensures { words.new ≡ put to (xor_words (stretch to n words.old) (stretch from n words.old)) words.old }
{
    for k in 0..n {
        words[to + k] ^= words[from + k];
    }
}

// Row `i` is XORed into row `j`, another one, from the word on, and its constant, in the words of an area.
fn xor_row_in(words: &mut [u64], m: usize, w: usize, word: usize, i: usize, j: usize)
    requires { (word ≤ w) × (i < m) × (j < m) × (i ≢ j) × (m * w + m ≤ length words.old) }
    ensures { let rows = held m w words.old in
        Became m w words.old (set rows j (xor_from word (get_or rows i no_row) (get_or rows j no_row))) words.new }
{
    xor_words(words, i * w + word, j * w + word, w - word);
    xor_words(words, m * w + i, m * w + j, 1);
}

// Row `i` is XORed into row `j`, another one, from the word on, and its constant.
pub fn xor_row(area: &mut Area, word: usize, i: usize, j: usize)
    requires { (word ≤ area.old.w) × (i < area.old.m) × (j < area.old.m) × (i ≢ j) }
    ensures { Holds area.old (set (rows_in area.old) j (xor_from word (get_or (rows_in area.old) i no_row) (get_or (rows_in area.old) j no_row))) area.new }
{
    let Area { m, w, .. } = *area;
    xor_row_in(area.words, m, w, word, i, j);
}

// Each row from row `from` up to row `to` that has the column gets the pivot row, which is none of them, from the word on.
// Sizes and bit are parameters and a local of their own: of a lent struct they would be read again at each row, up to 43 percent more instructions.
fn clear_rows_in(
    words: &mut [u64],
    m: usize,
    w: usize,
    col: usize,
    word: usize,
    pivot: usize,
    from: usize,
    to: usize,
)
    requires { (col < 64 * w) × (word ≤ w) × (pivot < m) × (from ≤ to) × (to ≤ m) × ((pivot < from) ⊎ (to ≤ pivot)) × (m * w + m ≤ length words.old) }
    ensures { Became m w words.old (cleared_rows col word pivot from to (held m w words.old)) words.new }
{
    let place = col / 64;
    let bit = 1u64 << (col % 64);
    for i in from..to {
        if words[i * w + place] & bit != 0 {
            xor_row_in(words, m, w, word, pivot, i);
        }
    }
}

// The same to the rows of an area.
pub fn clear_rows(area: &mut Area, col: usize, word: usize, pivot: usize, from: usize, to: usize)
    requires { (col < 64 * area.old.w) × (word ≤ area.old.w) × (pivot < area.old.m) × (from ≤ to) × (to ≤ area.old.m) × ((pivot < from) ⊎ (to ≤ pivot)) }
    ensures { Holds area.old (cleared_rows col word pivot from to (rows_in area.old)) area.new }
{
    let Area { m, w, .. } = *area;
    clear_rows_in(area.words, m, w, col, word, pivot, from, to);
}

// Each row below the pivot row that has the column gets the pivot row.
pub fn clear_below(area: &mut Area, col: usize, rank: usize)
    requires { (rank < area.old.m) × (col < 64 * area.old.w) }
    ensures { Holds area.old (clear_below col rank (rows_in area.old)) area.new }
{
    clear_rows(area, col, col / 64, rank, rank + 1, area.m);
}

// The pivot row changes places with the row at the rank, and is cleared from the rows below.
pub fn take_pivot(area: &mut Area, col: usize, rank: usize, pivot: usize)
    requires { (rank ≤ pivot) × (pivot < area.old.m) × (col < 64 * area.old.w) }
    ensures { Holds area.old (clear_below col rank (swap_rows (col / 64) rank pivot (rows_in area.old))) area.new }
{
    if pivot != rank {
        swap_rows(area, col / 64, rank, pivot);
    }
    clear_below(area, col, rank);
}
