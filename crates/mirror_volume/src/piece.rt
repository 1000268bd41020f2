//! Blocks of a request on a leg.

ghost use Rattle.std.specs.Prelude.{◌≡◌, ◌+◌, ◌<◌, ◌^◌};
ghost use Rattle.mirror_volume.specs.Inner.{first_label, first_virt};

/// Blocks of a request of a mirror's script, asked on one leg.
#[derive(Clone, Copy, Debug, PartialEq, Eq)]
pub struct Piece {
    /// The op, numbered from 1; 0 in a repair.
    pub op: u32,
    /// How many blocks its request has.
    pub count: u32,
    /// The place in the request of the first block.
    pub first: u32,
    /// How many blocks there are.
    pub n: u32,
    /// The first block, of the mirror.
    pub v: u64,
    /// Whether they are asked on leg 1.
    pub on1: bool,
}

impl Piece {
    /// By this number fault lines name the first block: on leg 1 behind all blocks of the request.
    pub fn label(self) -> u32
        requires { self.count + self.first < 2 ^ 32 }
        ensures { result ≡ first_label self }
    {
        if self.on1 {
            self.count + self.first
        } else {
            self.first
        }
    }

    /// The first virtual block, of a mirror of `half` blocks.
    pub fn virt(self, half: u64) -> u64
        requires { half + self.v < 2 ^ 64 }
        ensures { result ≡ first_virt half self }
    {
        if self.on1 { half + self.v } else { self.v }
    }
}
