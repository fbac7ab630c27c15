//! The hash of a name, by which neighbours are together.
//!
//! The table of a map is made of groups of twelve entries. The low bits of a hash choose the group. Eight bits from bit
//! 24 on are the tag, which says which of its entries may be the one that is looked for. Names are given one after the
//! other, and who has made or used one mostly goes on to the next. So four names that follow one another share a group,
//! which the processor then has to fetch once. The last two bits of a name are in its tag, and distinguish the four
//! names. All above these is mixed as the kit's own hasher mixes a whole name. So a row of other names is as well
//! spread as it was, whatever their distance.
ghost use Rattle.tg_index.specs.Inner.NameHash.{name_hash, name_written};

use std::hash::{BuildHasher, FoldHasher, Hasher};

const NEIGHBOURS: u64 = 4;

const TAG: u32 = 24;

/// Makes the hashers of names.
#[derive(Clone, Copy)]
pub struct NameHashing;

/// The hasher of one name.
#[derive(Clone, Copy)]
pub struct NameHasher {
    name: u64,
}

impl BuildHasher for NameHashing {
    type Hasher = NameHasher;

    ghost build_hasher = { λ _. record { name = 0 } };

    fn build_hasher(&self) -> NameHasher {
        NameHasher { name: 0 }
    }
}

impl Hasher for NameHasher {
    ghost write = { λ h bytes. record { name = name_written h.name bytes } };

    ghost finish = { λ h. name_hash h.name };

    fn finish(&self) -> u64 {
        let mut hasher = FoldHasher::default();
        hasher.write_u64(self.name / NEIGHBOURS);
        hasher.finish() ^ (self.name % NEIGHBOURS) << TAG
    }

    // A name is eight bytes, and nothing else is written.
    fn write(&mut self, bytes: &[u8]) {
        if bytes.len() >= 8 {
            self.name = u64::from_le_bytes([
                bytes[0], bytes[1], bytes[2], bytes[3], bytes[4], bytes[5], bytes[6], bytes[7],
            ]);
        }
    }
}
