// Job numbers as keys.
ghost use Rattle.std.specs.Ordering.{nat_cmp};
ghost use Rattle.std.proofs.Common.{rules};

use crate::key::Key;
use std::cmp::Ordering;

impl Key for u32 {
    ghost order = { nat_cmp };

    ghost laws = { Prim.search rules };

    fn compare(self, other: u32) -> Ordering {
        self.cmp(&other)
    }
}
