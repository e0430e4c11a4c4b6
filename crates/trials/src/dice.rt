//! Numbers by chance, the same for the same seed.
ghost use Rattle.std.specs.Prelude.{◌<◌, ◌≤◌};

use anyhow::anyhow;
use grid::Sizes;
use rules::{Block, Chess, Square};
use std::alloc::{AllocError, Global};

/// A generator of numbers (xorshift).
#[derive(Drop)]
pub struct Dice {
    state: u64,
}

impl Dice {
    pub fn new(seed: u64) -> Dice {
        Dice {
            state: seed ^ 0x9e37_79b9_7f4a_7c15,
        }
    }

    fn next(&mut self) -> u64 {
        let mut x = self.state | 1;
        x ^= x.wrapping_shl(13);
        x ^= x >> 7;
        x ^= x.wrapping_shl(17);
        self.state = x;
        x.wrapping_mul(0x2545_f491_4f6c_dd1d) >> 11
    }

    /// A number from 0 to `most`, which is below 2 to the 32.
    pub fn up_to(&mut self, most: u32) -> u32
        ensures { result ≤ most }
    {
        (self.next() % (most as u64 + 1)) as u32
    }

    /// A grid of up to 8 places on an axis, often with a size of 1.
    pub fn sizes(&mut self) -> Sizes {
        Sizes {
            nx: self.size(),
            ny: self.size(),
            nz: self.size(),
        }
    }

    fn size(&mut self) -> u32
        ensures { result ≤ 8 }
    {
        if self.up_to(3) == 0 {
            1
        } else {
            1 + self.up_to(7)
        }
    }

    /// A spacing: small ones, so that there are ties, and any.
    pub fn spacing(&mut self) -> u32 {
        if self.up_to(1) == 0 {
            1 + self.up_to(3)
        } else {
            1 + self.up_to(9_999)
        }
    }

    /// The three rules, over the same spacings.
    pub fn rules(&mut self) -> anyhow::Result<(Square, Block, Chess)> {
        let (sx, sy, sz) = (self.spacing(), self.spacing(), self.spacing());
        let square = Square::new(sx, sy, sz).map_err(|_| anyhow!("square was refused"))?;
        let block = Block::new(sx, sy, sz).map_err(|_| anyhow!("block was refused"))?;
        let chess = Chess::new(sx, sy, sz).map_err(|_| anyhow!("chess was refused"))?;
        Ok((square, block, chess))
    }

    /// So many bytes, 1 by a chance of `percent` in a hundred and else 0.
    pub fn bytes(
        &mut self,
        heap: Global,
        count: usize,
        percent: u32,
    ) -> Result<Vec<u8>, AllocError> {
        let mut bytes = Vec::new(heap);
        for _ in 0..count {
            let byte = if self.up_to(99) < percent { 1 } else { 0 };
            bytes.push(byte)?;
        }
        Ok(bytes)
    }
}
