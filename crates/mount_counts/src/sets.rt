//! Sets of mounts 0 to 7, one bit for each.

ghost use Rattle.std.specs.Prelude.{◌≡◌};
ghost use Rattle.mount_counts.specs.Sets.{no_mounts, with_mount as with_bit, lowest as lowest_bit, without_lowest as without_bit};

/// A set of mounts 0 to 7: those that a remount holds. Bit m stands for mount m.
#[derive(Clone, Copy, PartialEq, Eq)]
pub struct MountSet {
    pub bits: u8,
}

impl MountSet {
    /// The empty set.
    pub fn empty() -> MountSet
        ensures { result ≡ no_mounts }
    {
        MountSet { bits: 0 }
    }

    /// The set with this mount too.
    pub fn with(self, mount: u8) -> MountSet
        ensures { result ≡ with_bit self mount }
    {
        MountSet {
            bits: self.bits | 1u8.wrapping_shl(mount as u32),
        }
    }

    /// The lowest mount of the set; 8 where it is empty.
    pub fn lowest(self) -> u8
        ensures { result ≡ lowest_bit self }
    {
        self.bits.trailing_zeros() as u8
    }

    /// The set without its lowest mount.
    pub fn without_lowest(self) -> MountSet
        ensures { result ≡ without_bit self }
    {
        MountSet {
            bits: self.bits & !1u8.wrapping_shl(self.lowest() as u32),
        }
    }
}
