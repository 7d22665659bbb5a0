// Pseudo-random numbers, the same on every run.
ghost use Rattle.std.specs.Prelude.{◌≤◌, ◌<◌};
ghost use Rattle.std.specs.List.{ContainsAt};

#[derive(Drop)]
pub struct Random {
    state: u64,
}

impl Random {
    // A seed of 0 would give nothing but 0.
    pub fn new(seed: u64) -> Random
        requires { 0 < seed }
    {
        Random { state: seed }
    }

    // Three shifts, and a product that hides them: xorshift64*.
    fn step(&mut self) -> u64 {
        let mut x = self.state;
        x ^= x >> 12;
        x ^= x << 25;
        x ^= x >> 27;
        self.state = x;
        x.wrapping_mul(0x2545_f491_4f6c_dd1d)
    }

    // The upper bits are the better ones.
    pub fn up_to(&mut self, most: u16) -> u16
        ensures { result ≤ most }
    {
        let x = self.step() >> 32;
        (x % (u64::from(most) + 1)) as u16
    }

    // Less than the limit.
    pub fn below(&mut self, limit: u16) -> u16
        requires { 0 < limit }
        ensures { result < limit }
    {
        self.up_to(limit - 1)
    }

    // So many times in a hundred.
    pub fn chance(&mut self, percent: u16) -> bool {
        self.up_to(99) < percent
    }

    // One of the items.
    pub fn pick<T: Copy, const N: usize>(&mut self, items: &[T; N]) -> T
        requires { (0 < N) × (N < 65536) }
        ensures { ContainsAt items.now result }
    {
        items[usize::from(self.below(N as u16))]
    }
}
