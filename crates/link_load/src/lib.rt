// The rows of a file, laid out as a lent sparse system.
#![tactic(auto)]

ghost use Rattle.std.specs.Prelude.{◌≡◌, ◌+◌, ◌*◌, ◌≤◌, length, drop};
ghost use Rattle.std.proofs.Math.Option.{some};
ghost use Rattle.areas.specs.Stretch.{put};
ghost use Rattle.system.specs.Fits.{listed_in};
ghost use Rattle.link_form.specs.File.{max_bytes, rows_in, read_rows, rows_at};
ghost use Rattle.link_form.specs.Rows.{count_bytes_of, count_of, row_bytes_of, row_of, rows_of, Passed};
ghost use Rattle.link_load.specs.Loading.{starts_of, vars_of, constants_of};

use link_form::Rows;

// Reads the variables of the next row into `vars`, from `to` on, and says how many they are.
fn load_vars(rows: &mut Rows, vars: &mut [u32], to: usize) -> usize
    requires there { row_bytes_of rows.old ≤ length rows.old.rest.now }
    requires room { to + count_of rows.old ≤ length vars.old }
    ensures value { result ≡ count_of rows.old }
    ensures vars_after { vars.new ≡ put to (row_of rows.old).vars vars.old }
    ensures rows_after { Passed (count_bytes_of rows.old + count_of rows.old * rows.old.width) rows.old rows.new }
{
    let count = rows.count();
    for i in 0..count {
        vars[to + i] = rows.variable();
    }
    count
}

// Lays out `m` rows as `m + 1` starts, the variables and `m` constants, and says how many variables they list.
pub fn load_rows(
    rows: &Rows,
    m: usize,
    starts: &mut [u32],
    vars: &mut [u32],
    constants: &mut [u64],
) -> usize
    requires whole { rows_of m rows.now ≡ some (rows_in (rows_of m rows.now)) }
    requires short { length rows.now.rest.now ≤ max_bytes }
    requires room { (m + 1 ≤ length starts.old) × (listed_in (rows_in (rows_of m rows.now)) ≤ length vars.old) × (m ≤ length constants.old) }
    ensures value { result ≡ listed_in (rows_in (rows_of m rows.now)) }
    ensures starts_after { starts.new ≡ put 0 (starts_of (rows_in (rows_of m rows.now))) starts.old }
    ensures vars_after { vars.new ≡ put 0 (vars_of (rows_in (rows_of m rows.now))) vars.old }
    ensures constants_after { constants.new ≡ put 0 (constants_of (rows_in (rows_of m rows.now))) constants.old }
{
    let mut left = *rows;
    starts[0] = 0;
    let mut listed = 0;
    for i in 0..m {
        let count = load_vars(&mut left, vars, listed);
        listed += count;
        constants[i] = left.constant();
        starts[i + 1] = listed as u32;
    }
    listed
}

// The same of the `m` rows from `at` on, in numbers of `w` bytes, by the number of their kind.
pub fn load_rows_at(
    bytes: &[u8],
    at: usize,
    kind: u64,
    w: usize,
    m: usize,
    starts: &mut [u32],
    vars: &mut [u32],
    constants: &mut [u64],
) -> usize
    requires whole { read_rows kind w m (drop at bytes.now) ≡ some (rows_at kind w m at bytes.now) }
    requires inside { (at ≤ length bytes.now) × (length bytes.now ≤ max_bytes) × (w ≤ 4) }
    requires starts_room { m + 1 ≤ length starts.old }
    requires rows_room { (listed_in (rows_at kind w m at bytes.now) ≤ length vars.old) × (m ≤ length constants.old) }
    ensures value { result ≡ listed_in (rows_at kind w m at bytes.now) }
    ensures starts_after { starts.new ≡ put 0 (starts_of (rows_at kind w m at bytes.now)) starts.old }
    ensures vars_after { vars.new ≡ put 0 (vars_of (rows_at kind w m at bytes.now)) vars.old }
    ensures constants_after { constants.new ≡ put 0 (constants_of (rows_at kind w m at bytes.now)) constants.old }
{
    let rows = Rows::starting_at(bytes, at, kind, w);
    load_rows(&rows, m, starts, vars, constants)
}
