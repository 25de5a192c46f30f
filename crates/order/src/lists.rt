// Lists of keys of any kind, in the kind's order.
ghost use Rattle.std.specs.Prelude.{◌≡◌, IfOk};
ghost use Rattle.order.specs.Lists.{rising, Arranged};

use crate::key::Key;
use std::alloc::{AllocError, Global};

// Whether each key is before the next.
pub fn rises<K: Key>(keys: &[K]) -> bool
    ensures { result ≡ rising K.order keys.now }
{
    keys.is_sorted_by(|a, b| a.compare(*b).is_lt())
}

// The same keys, each as often, none before its predecessor.
pub fn arrange<K: Key>(heap: Global, keys: &[K]) -> Result<Vec<K>, AllocError>
    ensures { IfOk result (λ v. Arranged K.order keys.now v.items) }
{
    let mut arranged = Vec::from_slice(heap, keys)?;
    arranged.sort_by(|a, b| a.compare(*b))?;
    Ok(arranged)
}
