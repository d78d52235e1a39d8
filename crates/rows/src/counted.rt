// What eliminations of rows hand back.

// No values meet some equation of the rows.
#[derive(Clone, Copy, PartialEq, Debug)]
pub struct Unsolvable;

// What a step of an elimination came to, and how many variables cancelled in its sums, one that was refused included.
#[derive(Clone, Copy, PartialEq, Debug)]
pub struct Counted<T> {
    pub end: T,
    pub cancelled: u64,
}
