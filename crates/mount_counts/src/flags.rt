//! The flags of a mount.

ghost use Rattle.std.specs.Prelude.{⊤, [], ◌∷◌, codes};

use bitflags::{Flag, Flags, bitflag_items};

/// The flags word of a mount, of which these two bits are used: READONLY is MNT_READONLY, and HOLD is MNT_WRITE_HOLD.
#[derive(Clone, Copy, PartialEq, Eq, Debug)]
pub struct MountFlags(u64);

bitflag_items! {
    impl MountFlags: u64 {
        const READONLY = 1;
        const HOLD = 2;
    }
}

impl Flags for MountFlags {
    type Bits = u64;

    ghost exact = { ⊤ };

    ghost table = { (codes "READONLY", 1) ∷ (codes "HOLD", 2) ∷ [] };

    ghost set_of = { λ f. f.0 };

    fn flags<'a>() -> &'a [Flag<MountFlags>] {
        MountFlags::FLAGS
    }

    fn bits(&self) -> u64 {
        self.0
    }

    fn from_bits_retain(bits: u64) -> MountFlags {
        MountFlags(bits)
    }
}
