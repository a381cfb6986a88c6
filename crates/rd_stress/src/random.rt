/// Numbers by chance, the same for the same seed.
#[derive(Clone, Copy)]
pub struct Random {
    state: u64,
}

impl Random {
    pub fn new(seed: u64) -> Random {
        Random {
            state: seed.wrapping_mul(0x9e37_79b9_7f4a_7c15).wrapping_add(1),
        }
    }

    /// A number from 0 to one below this, or 0.
    pub fn below(&mut self, most: u32) -> u32 {
        self.state = self
            .state
            .wrapping_mul(6_364_136_223_846_793_005)
            .wrapping_add(1_442_695_040_888_963_407);
        if most == 0 {
            return 0;
        }
        ((self.state >> 33) % u64::from(most)) as u32
    }

    /// Whether one of so many chances came; never where there is none.
    pub fn hits(&mut self, chances: u32) -> bool {
        chances > 0 && self.below(chances) == 0
    }
}
