// A zone in lent numbers, as many as its basins need: row by row, the number of each over each.
ghost use Rattle.std.specs.Prelude.{◌≡◌, ◌+◌, ◌*◌, ◌≤◌, length, slice_index_or, slice_set};

// Made by a literal once `check_size` has answered Ok: of numbers lent to a constructor behind a Result a caller's proof no
// longer knows, after a refusal, that they are as they were.
#[derive(Drop)]
pub(crate) struct Zone<'a, T> {
    pub(crate) basins: usize,
    pub(crate) numbers: &'a mut [T],
    ghost few: { basins ≤ 8 },
    ghost whole: { length numbers.now ≡ (basins + 1) * (basins + 1) },
}

impl<T: Copy> Zone<'_, T> {
    ghost use Rattle.zones.specs.Loan.{Each, SameLoan};

    // The number of i over j. Row and column stay two numbers: what bounds them is the zone.
    pub(crate) fn at(&self, i: usize, j: usize) -> T
        requires first { i ≤ self.now.basins }
        requires second { j ≤ self.now.basins }
        ensures { (d : T) → result ≡ slice_index_or self.now.numbers.now (i * (self.now.basins + 1) + j) d }
    {
        self.numbers[i * (self.basins + 1) + j]
    }

    pub(crate) fn put(&mut self, i: usize, j: usize, number: T)
        requires first { i ≤ self.old.basins }
        requires second { j ≤ self.old.basins }
        ensures lent { SameLoan self.old self.new }
        ensures written { self.new.numbers.now ≡ slice_set self.old.numbers.now (i * (self.old.basins + 1) + j) number }
    {
        self.numbers[i * (self.basins + 1) + j] = number;
    }

    // Puts what `f` makes of its row, its column and itself in place of each number. The rows are ranges: after chunks_mut a proof
    // knows the length of the numbers alone.
    pub(crate) fn map<F: Fn(usize, usize, T) -> T>(&mut self, f: F)
        requires { Each self.old.basins self.old.numbers.now self.old.numbers.now (λ i j v _. F.pre f i j v) }
        ensures lent { SameLoan self.old self.new }
        ensures each { Each self.old.basins self.old.numbers.now self.new.numbers.now (λ i j v w. F.post f i j v w) }
    {
        let width = self.basins + 1;
        let numbers = &mut *self.numbers;
        for i in 0..width {
            let row = &mut numbers[i * width..(i + 1) * width];
            for (j, number) in row.iter_mut().enumerate() {
                *number = f(i, j, *number);
            }
        }
    }
}
