// How large blocks are made.
ghost use Rattle.std.specs.Prelude.{◌≡◌, ◌+◌, ◌^◌, ◌≤◌};
ghost use Rattle.std.specs.Option.{ForSome};

/// How large the blocks of an arena are made, in bytes with their header of 16.
///
/// It is valid where `24 <= start <= greatest <= 2^31 - 8`.
#[derive(Clone, Copy, Debug, PartialEq, Eq)]
pub struct Policy {
    /// The size of the first block.
    pub start: u32,
    /// The size that doubling stops at. A placement that needs more gets more.
    pub greatest: u32,
}

impl Policy {
    ghost use Rattle.arena_block.specs.Policy.{next_size, IsLength, IsValid};

    /// Blocks from 256 to 32,768 bytes.
    pub fn profile() -> Policy
        ensures value { result ≡ record { start = 256; greatest = 32768 } }
        ensures valid { IsValid result }
    {
        Policy {
            start: 256,
            greatest: 32768,
        }
    }

    /// The size of the next block, after one of the size `last`, where a placement of `asked` bytes opens it.
    ///
    /// It is `start` where there is no last block, else twice the last size up to `greatest`, and in either case at
    /// least `16 + asked`.
    pub fn next_size(&self, last: Option<u32>, asked: u32) -> u32
        requires valid { IsValid self.now }
        requires length { IsLength asked }
        requires size { ForSome last (λ size. size ≤ 2 ^ 31 + 8) }
        ensures { result ≡ next_size self.now last asked }
    {
        let base = match last {
            None => self.start,
            Some(size) => size.saturating_mul(2).min(self.greatest),
        };
        base.max(16 + asked)
    }
}
