// Equations change places, and one is listed twice.
ghost use Rattle.std.specs.Prelude.{◌≡◌, ◌+◌, ◌*◌, ◌<◌, ◌≤◌};
ghost use Rattle.areas.specs.Stretch.{exchanged};

use bench_draws::random::Random;

// Equations as rows of two words and their constants.
#[derive(Clone, Copy)]
pub struct Equations {
    pub n: usize,
    pub m: usize,
    pub rows: [u64; 122],
    pub constants: [u64; 61],
    ghost sizes: { (n ≤ 80) × (m ≤ 61) },
}

impl Equations {
    // Equation j and a later equation i change places.
    fn exchange(&mut self, j: usize, i: usize)
        requires { (j < i) × (i < 61) }
        ensures rows_after { self.new.rows ≡ exchanged (2 * j) (2 * i) 2 self.old.rows }
        ensures constants_after { self.new.constants ≡ exchanged j i 1 self.old.constants }
        ensures size { self.new.m ≡ self.old.m }
    {
        areas::exchange(&mut self.rows, 2 * j, 2 * i, 2);
        areas::exchange(&mut self.constants, j, i, 1);
    }

    // Any order of the equations, each as likely as another.
    pub fn shuffle(&mut self, random: &mut Random)
        ensures { self.new.m ≡ self.old.m }
    {
        for last in (1..self.m).rev() {
            let j = random.below(last + 1);
            if j < last {
                self.exchange(j, last);
            }
        }
    }

    // One of the equations stands once more behind them.
    pub fn repeat(&mut self, random: &mut Random)
        requires { self.old.m ≤ 60 }
    {
        if self.m == 0 {
            return;
        }
        let j = random.below(self.m);
        areas::copy_within(&mut self.rows, 2 * j, 2, 2 * self.m);
        areas::copy_within(&mut self.constants, j, 1, self.m);
        self.m += 1;
    }
}
