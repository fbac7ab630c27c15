//! How many blocks a heap may have.
ghost use Rattle.std.specs.Prelude.{◌≡◌, ◌≤◌, ◌^◌, IfErr};
ghost use Rattle.std.specs.Result.{OkIff};
ghost use Rattle.tg_word.specs.declared.TheConstants.{MOST_SPACE_BLOCKS};
ghost use Rattle.tg_space.specs.SpaceTable.{AreLimits, AreLimitsTo, limits_of};

use std::marker::Model;
use tg_model::OpeningFault;
use tg_word::MOST_SPACE_BLOCKS;

/// The most blocks that `Limits::new` lets all spaces have together: 4,194,304 cells.
pub const MOST_BLOCKS: u64 = 65_536;

/// The most blocks that `Limits::large` lets all spaces have together, 2^20: 67,108,864 cells.
pub const MOST_LARGE_BLOCKS: u64 = 1_048_576;

/// How many blocks a heap may have.
#[derive(Clone, Copy, Debug)]
pub struct Limits {
    max_blocks: u64,
    space_blocks: u64,
}

impl Model for Limits {
    ghost use Rattle.std.specs.Prelude.{◌≤◌, ◌^◌};
    ghost use Rattle.tg_space.specs.SpaceTable.{BlockLimits, AreLimits};

    ghost Value = { BlockLimits };

    ghost view = { λ a. record { max_blocks = a.max_blocks; space_blocks = a.space_blocks } };

    ghost invariant = { λ a. AreLimits (record { max_blocks = a.max_blocks; space_blocks = a.space_blocks }) };

    ghost inverse = { λ v. record { max_blocks = v.max_blocks; space_blocks = v.space_blocks } };
}

impl Limits {
    /// The limits with these numbers, if each is in its range: `max_blocks` from 1 to 65,536 and `space_blocks` from 1
    /// to 1,048,576. Otherwise the answer is `BadLimits`. It takes no memory.
    pub fn new(max_blocks: u64, space_blocks: u64) -> Result<Limits, OpeningFault>
        ensures limits { OkIff result (AreLimitsTo MOST_BLOCKS (limits_of max_blocks space_blocks)) (limits_of max_blocks space_blocks) }
        ensures fault { IfErr result (λ fault. fault ≡ OpeningFault.BadLimits) }
    {
        Limits::within(MOST_BLOCKS, max_blocks, space_blocks)
    }

    /// As `new`, for a large heap: `max_blocks` may be up to 1,048,576.
    pub fn large(max_blocks: u64, space_blocks: u64) -> Result<Limits, OpeningFault>
        ensures limits { OkIff result (AreLimits (limits_of max_blocks space_blocks)) (limits_of max_blocks space_blocks) }
        ensures fault { IfErr result (λ fault. fault ≡ OpeningFault.BadLimits) }
    {
        Limits::within(MOST_LARGE_BLOCKS, max_blocks, space_blocks)
    }

    // Limits by which all spaces have at most so many blocks together.
    fn within(most: u64, max_blocks: u64, space_blocks: u64) -> Result<Limits, OpeningFault>
        requires { most ≤ MOST_LARGE_BLOCKS }
        ensures limits { OkIff result (AreLimitsTo most (limits_of max_blocks space_blocks)) (limits_of max_blocks space_blocks) }
        ensures fault { IfErr result (λ fault. fault ≡ OpeningFault.BadLimits) }
    {
        let is_in_range = 1 <= max_blocks
            && max_blocks <= most
            && 1 <= space_blocks
            && space_blocks <= MOST_SPACE_BLOCKS;
        if !is_in_range {
            return Err(OpeningFault::BadLimits);
        }
        Ok(Limits {
            max_blocks,
            space_blocks,
        })
    }

    /// How many blocks all spaces together may have, from 1 to 1,048,576. The clause `limits` says what holds of all
    /// limits.
    pub fn max_blocks(self) -> u64
        ensures value { result ≡ self.max_blocks }
        ensures limits { AreLimits self }
        ensures least { 1 ≤ result }
        ensures most { result ≤ MOST_LARGE_BLOCKS }
    {
        self.max_blocks
    }

    /// How many blocks one space may have, from 1 to 1,048,576.
    pub fn space_blocks(self) -> u64
        ensures value { result ≡ self.space_blocks }
        ensures least { 1 ≤ result }
        ensures most { result ≤ MOST_SPACE_BLOCKS }
    {
        self.space_blocks
    }
}
