// What it means for keys to be ordered.
ghost use Rattle.std.specs.Prelude.{◌≡◌};
ghost use Rattle.std.specs.declared.cmp.Ordering.{Ordering};
ghost use Rattle.order.specs.Orders.{OrderLaws};

use std::cmp::Ordering;

// A kind of key. `order` is what the kind says of two keys, and `compare` answers just that.
// The laws: a key is the same as itself and as no other, turning the pair round swaps before and
// after, and before carries over a middle key. So a kind that tells no keys apart has no more than
// one key. A trait beside `Ord`, by a rule of the project: a kind shows more than `Ord` asks, under
// which equal keys may differ, and shows it of a comparison that is its own.
pub trait Key: Copy {
    ghost order: { Self → Self → Ordering };

    fn compare(self, other: Self) -> Ordering
        ensures { result ≡ order self other };

    ghost laws: { OrderLaws order };
}
