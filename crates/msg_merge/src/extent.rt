// Units and levels, which are counted in one walk.
ghost use Rattle.std.specs.Prelude.{◌≡◌, ◌+◌, ◌-◌, ◌^◌, ℕ, suc, max, min};
ghost use Rattle.msg_merge.specs.Extents.{IsExtent};

/// How many units something has, and how many levels deep messages nest in it. Both stand still at the ends of their
/// types.
#[derive(Clone, Copy, Drop)]
pub(crate) struct Extent {
    pub(crate) units: u64,
    pub(crate) levels: u32,
}

impl Extent {
    /// Nothing.
    #[inline]
    pub(crate) fn none() -> Extent
        ensures { IsExtent 0 0 result }
    {
        Extent {
            units: 0,
            levels: 0,
        }
    }

    /// So many units, without messages.
    #[inline]
    pub(crate) fn flat(units: u64) -> Extent
        ensures { IsExtent units 0 result }
    {
        Extent { units, levels: 0 }
    }

    /// Both of these, side by side.
    #[inline]
    pub(crate) fn and(self, other: Extent) -> Extent
        ensures { (u l v m : ℕ) → IsExtent u l self → IsExtent v m other → IsExtent (u + v) (max l m) result }
    {
        let levels = if self.levels < other.levels {
            other.levels
        } else {
            self.levels
        };
        Extent {
            units: self.units.saturating_add(other.units),
            levels,
        }
    }

    /// A message whose fields are this, with so many unknown bytes.
    #[inline]
    pub(crate) fn of_message(self, unknown: u64) -> Extent
        ensures { (u l n : ℕ) → IsExtent u l self → unknown ≡ min n (2 ^ 64 - 1) → IsExtent (1 + n + u) l result }
    {
        Extent {
            units: self.units.saturating_add(unknown).saturating_add(1),
            levels: self.levels,
        }
    }

    /// A message of this extent as a value.
    #[inline]
    pub(crate) fn nested(self) -> Extent
        ensures { (u l : ℕ) → IsExtent u l self → IsExtent u (suc l) result }
    {
        Extent {
            units: self.units,
            levels: self.levels.saturating_add(1),
        }
    }
}
