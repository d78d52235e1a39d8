// What the dense engines differ in: what they make of the columns, and how they read the solution off.
ghost use Rattle.std.specs.Prelude.{◌≡◌, true, false, List, ℕ, ◌*◌, ◌≤◌, length, take, replicate};
ghost use Rattle.gf2.specs.Result.{Result, unsolvable, ok};
ghost use Rattle.answers.specs.Sizes.{max_variables, max_row_words};
ghost use Rattle.dense_rows.specs.Bits.{Row};
ghost use Rattle.dense_rows.specs.Areas.{rows_in, SameArea};
ghost use Rattle.dense_walk.specs.Eliminate.{residue};
ghost use Rattle.dense_walk.specs.Stairs.{FitRows};
ghost use Rattle.dense.specs.Engines.{Reduced};

use dense_rows::Area;
use dense_walk::back::back_substitution;
use dense_walk::walk::eliminate;

pub trait Engine {
    // The engine on paper.
    ghost elimination: { ℕ → List Row → Result (List ℕ) };

    // What n columns make of rows: the pivots, their rows, and the rows that are left.
    ghost Reduces: { ℕ → List Row → List ℕ → List Row → List Row → Type 0 };

    // What `read` asks of the pivots and their rows of w words, for n cells.
    ghost Readable: { ℕ → ℕ → List ℕ → List Row → Type 0 };

    // The cells with the pivots' values in them.
    ghost values: { ℕ → List ℕ → List Row → List ℕ → List ℕ };

    // Columns left to right: how many pivots there are. A column that no row has is passed over.
    fn reduce(n: usize, area: &mut Area, numbers: &mut [u32]) -> usize
        requires { (n ≤ max_variables) × (n ≤ 64 * area.old.w) × (area.old.m ≤ length numbers.old) }
        ensures same { SameArea area.old area.new }
        ensures reduced { Reduced (Reduces n) area.old.m area.old.w numbers.old area.old.words.now result numbers.new area.new.words.now };

    // Each pivot's cell gets its value.
    fn read(area: &Area, pivots: &[u32], solution: &mut [u64])
        requires { (length pivots.now ≤ area.now.m) × (area.now.w ≤ max_row_words) × Readable (length solution.old) area.now.w pivots.now (take (length pivots.now) (rows_in area.now)) }
        ensures { solution.new ≡ values (length solution.old) pivots.now (take (length pivots.now) (rows_in area.now)) solution.old };

    ghost readable: { (n w : ℕ) (rows : List Row) (pivots : List ℕ) (tops left : List Row) → n ≤ 64 * w → FitRows n w rows → Reduces n rows pivots tops left → Readable n w pivots tops };

    ghost refuses: { (n : ℕ) (rows : List Row) (pivots : List ℕ) (tops left : List Row) → Reduces n rows pivots tops left → residue left ≡ true → elimination n rows ≡ unsolvable };

    ghost solves: { (n : ℕ) (rows : List Row) (pivots : List ℕ) (tops left : List Row) → Reduces n rows pivots tops left → residue left ≡ false → elimination n rows ≡ ok (values n pivots tops (replicate n 0)) };
}

// Dense elimination: the walk over the columns, and back substitution.
pub struct Dense;

impl Engine for Dense {
    ghost use Rattle.dense_walk.specs.Eliminate.{dense_elimination, back_sub};
    ghost use Rattle.dense_walk.specs.Stairs.{Ready, Walks};
    ghost use Rattle.dense_walk.proofs.Walked.{walk_ready, walk_refused, walk_solved};

    ghost elimination = { dense_elimination };

    ghost Reduces = { Walks };

    ghost Readable = { Ready };

    ghost values = { back_sub };

    ghost readable = { walk_ready };

    ghost refuses = { walk_refused };

    ghost solves = { walk_solved };

    fn reduce(n: usize, area: &mut Area, numbers: &mut [u32]) -> usize {
        eliminate(n, area, numbers)
    }

    fn read(area: &Area, pivots: &[u32], solution: &mut [u64]) {
        back_substitution(area.view(), pivots, solution);
    }
}
