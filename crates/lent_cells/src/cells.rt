// The cells that a call left.
ghost use Rattle.std.specs.Prelude.{◌≡◌, ℕ, length, map, refl, replicate};
ghost use Rattle.lent_cells.specs.Cells.{mark, left_at, left_cells};

// What every lent cell holds before a call.
pub const MARK: u64 = 165;

// A cell of lent memory: a byte, a number or a word.
pub trait Cell: Copy {
    ghost MARK: { Self };

    // What the cell holds, as a number.
    ghost wide: { Self → ℕ };

    const MARK: Self;

    fn wide(self) -> u64
        ensures { result ≡ wide self };

    ghost holds_mark: { wide MARK ≡ mark };
}

impl Cell for u8 {
    ghost MARK = { mark };

    ghost wide = { λ x. x };

    ghost holds_mark = { refl };

    const MARK: u8 = 165;

    fn wide(self) -> u64 {
        u64::from(self)
    }
}

impl Cell for u32 {
    ghost MARK = { mark };

    ghost wide = { λ x. x };

    ghost holds_mark = { refl };

    const MARK: u32 = 165;

    fn wide(self) -> u64 {
        u64::from(self)
    }
}

impl Cell for u64 {
    ghost MARK = { mark };

    ghost wide = { λ x. x };

    ghost holds_mark = { refl };

    const MARK: u64 = MARK;

    fn wide(self) -> u64 {
        self
    }
}

// Cells to lend.
pub fn marked<T: Cell, const N: usize>() -> [T; N]
    ensures { result ≡ replicate N T.MARK }
{
    [T::MARK; N]
}

// Marks every cell.
pub fn mark<T: Cell>(cells: &mut [T])
    ensures { cells.new ≡ replicate (length cells.old) T.MARK }
{
    for cell in cells.iter_mut() {
        *cell = T::MARK;
    }
}

// What the cell at `i` must hold: 0 in the room, the mark past it.
fn left_at(i: usize, room: usize) -> u64
    ensures { result ≡ left_at room i }
{
    if i < room { 0 } else { MARK }
}

// Whether the room is zero and the remainder as it was lent.
pub fn left<T: Cell>(cells: &[T], room: usize) -> bool
    ensures { result ≡ left_cells room (map T.wide cells.now) }
{
    cells
        .iter()
        .enumerate()
        .all(|(i, cell)| cell.wide() == left_at(i, room))
}
