// The rows of a file, read one after the other.
ghost use Rattle.std.specs.Prelude.{◌≡◌, ◌+◌, ◌≤◌, ◌<◌, length, drop};
ghost use Rattle.link_form.specs.Bytes.{power};
ghost use Rattle.link_form.specs.File.{count_bytes, count};

use crate::bytes::read_number;
use crate::kind::Kind;

// A number of version 1 has two bytes.
pub const WIDTH: usize = 2;

pub const HEADER_BYTES: usize = 10;

// The bytes that say how many variables a row lists, by the number of its kind.
pub fn count_bytes(kind: u64, w: usize) -> usize
    ensures { result ≡ count_bytes kind w }
{
    match Kind::standing_for(kind) {
        Kind::Sparse | Kind::Lazy => w,
        Kind::Peel => 0,
    }
}

// How many variables the row at `at` lists, by the number of its kind.
pub fn count_at(bytes: &[u8], at: usize, kind: u64, w: usize) -> usize
    requires { (at + count_bytes kind w ≤ length bytes.now) × (w ≤ 4) }
    ensures value { result ≡ count kind w (drop at bytes.now) }
    ensures upper_bound { result < power 4 }
{
    Rows::starting_at(bytes, at, kind, w).count()
}

// Bytes of rows that are still to be read, in numbers of `width` bytes.
#[derive(Clone, Copy)]
pub struct Rows<'a> {
    pub rest: &'a [u8],
    pub kind: Kind,
    pub width: usize,
    ghost narrow: { width ≤ 4 },
}

impl<'a> Rows<'a> {
    ghost use Rattle.std.specs.Prelude.{take};
    ghost use Rattle.link_form.specs.Bytes.{little};
    ghost use Rattle.link_form.specs.File.{header_bytes, max_bytes, scan_of};
    ghost use Rattle.link_form.specs.Forms.{scan_told};
    ghost use Rattle.link_form.specs.Rows.{count_bytes_of, count_of, rows_of, AreBehindHeader, StartAt, Passed, PassesRow};

    // The rows of a file, behind its header.
    pub fn of_file(bytes: &'a [u8], kind: Kind) -> Rows<'a>
        requires { header_bytes ≤ length bytes.now }
        ensures { AreBehindHeader bytes.now kind result }
    {
        let (_, rest) = bytes.split_at(HEADER_BYTES);
        Rows {
            rest,
            kind,
            width: WIDTH,
        }
    }

    // The rows from `at` on, by the number of their kind.
    pub fn starting_at(bytes: &'a [u8], at: usize, kind: u64, w: usize) -> Rows<'a>
        requires { (at ≤ length bytes.now) × (w ≤ 4) }
        ensures { StartAt bytes.now at kind w result }
    {
        Rows {
            rest: &bytes[at..],
            kind: Kind::standing_for(kind),
            width: w,
        }
    }

    // The bytes that say how many variables a row lists.
    pub fn count_bytes(&self) -> usize
        ensures { result ≡ count_bytes_of self.now }
    {
        match self.kind {
            Kind::Sparse | Kind::Lazy => self.width,
            Kind::Peel => 0,
        }
    }

    // Reads a number of `w` bytes.
    fn number(&mut self, w: usize) -> u64
        requires { (w ≤ length self.old.rest.now) × (w ≤ 8) }
        ensures value { result ≡ little (take w self.old.rest.now) }
        ensures upper_bound { result < power w }
        ensures passed { Passed w self.old self.new }
    {
        let number = read_number(self.rest, 0, w);
        let (_, rest) = self.rest.split_at(w);
        self.rest = rest;
        number
    }

    // Reads how many variables the next row lists.
    pub fn count(&mut self) -> usize
        requires { count_bytes_of self.old ≤ length self.old.rest.now }
        ensures value { result ≡ count_of self.old }
        ensures upper_bound { result < power 4 }
        ensures passed { Passed (count_bytes_of self.old) self.old self.new }
    {
        match self.kind {
            Kind::Sparse | Kind::Lazy => self.number(self.width) as usize,
            Kind::Peel => 3,
        }
    }

    pub fn variable(&mut self) -> u32
        requires { self.old.width ≤ length self.old.rest.now }
        ensures value { result ≡ little (take self.old.width self.old.rest.now) }
        ensures passed { Passed self.old.width self.old self.new }
    {
        self.number(self.width) as u32
    }

    pub fn constant(&mut self) -> u64
        requires { 8 ≤ length self.old.rest.now }
        ensures value { result ≡ little (take 8 self.old.rest.now) }
        ensures passed { Passed 8 self.old self.new }
    {
        self.number(8)
    }

    // Passes the next row, and says how many variables it lists; `None` where bytes are missing.
    fn pass(&mut self) -> Option<usize>
        ensures { PassesRow self.old self.new result }
    {
        if self.rest.len() < self.count_bytes() {
            return None;
        }
        let count = self.count();
        let (_, rest) = self.rest.split_at_checked(count * self.width + 8)?;
        self.rest = rest;
        Some(count)
    }

    // How many variables `m` rows list; `None` where bytes are missing or left over.
    pub(crate) fn listed(&mut self, m: usize) -> Option<usize>
        requires { length self.old.rest.now ≤ max_bytes }
        ensures { scan_told result ≡ scan_of 0 (rows_of m self.old) }
    {
        let mut t = 0;
        for _row in 0..m {
            t += self.pass()?;
        }
        if self.rest.is_empty() { Some(t) } else { None }
    }
}
