ghost use Rattle.std.specs.Prelude.{◌≡◌, IfOk};

use ox_types::{Key, NoMemory};

/// The low end of a range.
#[derive(Debug, PartialEq, Eq, Drop)]
pub enum Lo {
    /// Each key is past it.
    Start,
    /// This key and the keys after it.
    At(Key),
    /// The keys after this one.
    Past(Key),
}

/// The high end of a range.
#[derive(Debug, PartialEq, Eq, Drop)]
pub enum Hi {
    /// Each key is before it.
    End,
    /// The keys before this one.
    Before(Key),
}

/// The keys between two ends. Where the low end isn't below the high one, it holds none.
#[derive(Debug, PartialEq, Eq, Drop)]
pub struct KeyRange {
    pub lo: Lo,
    pub hi: Hi,
}

impl KeyRange {
    ghost use Rattle.ox_order.specs.Range.{in_range};

    /// Whether the key stands in the range, at the cost of two comparisons.
    pub fn holds(&self, key: &Key) -> bool
        ensures { result ≡ in_range self.now key.now }
    {
        self.lo.holds(key) && self.hi.holds(key)
    }

    /// A copy on the same allocator, at the cost of its keys.
    pub fn try_clone(&self) -> Result<KeyRange, NoMemory>
        ensures { IfOk result (λ copy. copy ≡ self.now) }
    {
        let lo = self.lo.try_clone()?;
        let hi = self.hi.try_clone()?;
        Ok(KeyRange { lo, hi })
    }
}

impl Lo {
    ghost use Rattle.ox_order.specs.Range.{is_from};

    /// Whether the key stands at this end or past it.
    pub fn holds(&self, key: &Key) -> bool
        ensures { result ≡ is_from self.now key.now }
    {
        match self {
            Lo::Start => true,
            Lo::At(low) => low <= key,
            Lo::Past(low) => low < key,
        }
    }

    fn try_clone(&self) -> Result<Lo, NoMemory>
        ensures { IfOk result (λ copy. copy ≡ self.now) }
    {
        match self {
            Lo::Start => Ok(Lo::Start),
            Lo::At(low) => Ok(Lo::At(low.try_clone()?)),
            Lo::Past(low) => Ok(Lo::Past(low.try_clone()?)),
        }
    }
}

impl Hi {
    ghost use Rattle.ox_order.specs.Range.{is_up_to};

    /// Whether the key stands before this end.
    pub fn holds(&self, key: &Key) -> bool
        ensures { result ≡ is_up_to self.now key.now }
    {
        match self {
            Hi::End => true,
            Hi::Before(high) => key < high,
        }
    }

    fn try_clone(&self) -> Result<Hi, NoMemory>
        ensures { IfOk result (λ copy. copy ≡ self.now) }
    {
        match self {
            Hi::End => Ok(Hi::End),
            Hi::Before(high) => Ok(Hi::Before(high.try_clone()?)),
        }
    }
}
