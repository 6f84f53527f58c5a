//! Pseudorandom numbers, always the same ones.

// A linear congruential generator (Knuth's numbers for 64 bits).
#[derive(Drop)]
pub struct Noise {
    state: u64,
}

impl Noise {
    ghost use Rattle.std.specs.Prelude.{◌≤◌, ◌<◌};

    pub fn new() -> Noise {
        Noise { state: 20_261_123 }
    }

    // A number below this one.
    pub fn below(&mut self, count: u32) -> u32
        requires { 1 ≤ count }
        ensures { result < count }
    {
        self.state = self
            .state
            .wrapping_mul(6_364_136_223_846_793_005)
            .wrapping_add(1_442_695_040_888_963_407);
        ((self.state >> 33) % u64::from(count)) as u32
    }

    fn byte(&mut self) -> u8 {
        self.below(256) as u8
    }

    pub fn fill(&mut self, bytes: &mut [u8]) {
        for byte in bytes {
            *byte = self.byte();
        }
    }

    // Changes a byte of the first so many.
    fn change(&mut self, bytes: &mut [u8], within: usize) {
        let most = bytes.len().min(within).clamp(1, 1_000_000);
        let at = self.below(most as u32) as usize;
        let mask = 1 + self.below(255) as u8;
        if at < bytes.len() {
            bytes[at] = bytes[at] ^ mask;
        }
    }

    // Changes one to four bytes of the first so many.
    pub fn spoil(&mut self, bytes: &mut [u8], within: usize) {
        let count = 1 + self.below(4);
        for _ in 0..count {
            self.change(bytes, within);
        }
    }
}
