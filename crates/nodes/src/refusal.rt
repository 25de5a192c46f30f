// Refusals, and the fault of the layer of nodes.
ghost use Rattle.std.specs.Prelude.{◌≡◌};
ghost use Rattle.nodes.specs.Refusals.{refusal_number};
ghost use Rattle.nodes.specs.declared.refusal.Refusal.TheVariants.{Damage as Damaged, NoPlace as Unplaced, Unknown as NotKnown};

use crate::controller::UnknownOperation;
use order::address::making::NoPlace as Displaced;

// A node number not below the number of nodes, or a node of a kind that no rule gives there.
#[derive(Clone, Copy, Debug, PartialEq, Eq)]
pub struct Damage;

// Why a call was refused. A refusal leaves all memory as it was.
#[derive(Clone, Copy, Debug, PartialEq, Eq)]
pub enum Refusal {
    Misfit,
    BadFirst,
    Nobody,
    Busy,
    Unknown,
    WornOut,
    Resting,
    Unfinished,
    Damage,
    NoPlace(Displaced),
}

impl From<Damage> for Refusal {
    ghost from_gives = { λ _ r. r ≡ Damaged };

    fn from(_damage: Damage) -> Refusal {
        Self::Damage
    }
}

impl From<Displaced> for Refusal {
    ghost from_gives = { λ e r. r ≡ Unplaced e };

    fn from(refusal: Displaced) -> Refusal {
        Refusal::NoPlace(refusal)
    }
}

impl From<UnknownOperation> for Refusal {
    ghost from_gives = { λ _ r. r ≡ NotKnown };

    fn from(_code: UnknownOperation) -> Refusal {
        Self::Unknown
    }
}

impl Refusal {
    // The number by which a refusal is told. A method, and no `From`: `refusal.number()`
    // says which number it is, `u8::from(refusal)` would not.
    pub fn number(self) -> u8
        ensures { result ≡ refusal_number self }
    {
        match self {
            Refusal::Misfit => 1,
            Refusal::BadFirst => 2,
            Refusal::Nobody => 3,
            Refusal::Busy => 4,
            Refusal::Unknown => 5,
            Refusal::WornOut => 6,
            Refusal::Resting => 7,
            Refusal::Unfinished => 8,
            Refusal::Damage => 9,
            Refusal::NoPlace(e) => e.number(),
        }
    }
}
