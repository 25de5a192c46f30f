// Rack addresses. The struct stands alone in this file, since its invariant may not cite a
// definition that speaks of the struct.
ghost use Rattle.std.specs.Prelude.{◌≤◌};

pub mod making;

// An address that exists: aisle 1 to 99, bay 1 to 999, level 1 to 30.
#[derive(Clone, Copy, PartialEq, Eq, Debug)]
pub struct Address {
    aisle: u8,
    bay: u16,
    level: u8,
    ghost aisles: { (1 ≤ aisle) × (aisle ≤ 99) },
    ghost bays: { (1 ≤ bay) × (bay ≤ 999) },
    ghost levels: { (1 ≤ level) × (level ≤ 30) },
}
