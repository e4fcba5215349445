/// Numbers that look random and are the same in every run.
#[derive(Drop)]
pub struct Random {
    state: u64,
}

impl Random {
    pub fn new() -> Random {
        Random { state: 1 }
    }

    /// A number below n, or 0 where n is 0.
    pub fn below(&mut self, n: u32) -> u32 {
        self.state = self
            .state
            .wrapping_mul(6_364_136_223_846_793_005)
            .wrapping_add(1_442_695_040_888_963_407);
        if n == 0 {
            return 0;
        }
        (self.state >> 33) as u32 % n
    }
}
