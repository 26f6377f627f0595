// Cleanups by their numbers.
ghost use Rattle.std.specs.Prelude.{◌≡◌, ◌<◌, [], ◌∷◌, ◌++◌, Some, IsSome, IfOk, IfErr, OnOk, OnErr, length, slice_get};

use crate::watch::CleanupWatch;
use no_memory::NoMemory;
use std::alloc::Global;
use std::marker::Model;

/// What is to be done once, at the end of the region that it is registered in.
pub trait Cleanup {
    /// Does it. The item is given up with it, so that it can't be done again.
    fn run(self);
}

/// Owned cleanups, numbered from 0 in the order of registration.
#[derive(Drop)]
pub struct CleanupList<C> {
    items: Vec<C>,
}

impl<C> Model for CleanupList<C> {
    ghost use Rattle.std.specs.Prelude.{List};

    ghost Value = { List C };

    ghost view = { λ l. l.items.items };
}

impl<C: Cleanup + Drop> CleanupList<C> {
    ghost use Rattle.cleanup_list.specs.Told.{block, Gains, HasRoom};

    /// A list with no items. It takes no memory.
    pub fn new(alloc: Global) -> Self
        ensures { result ≡ [] }
    {
        CleanupList {
            items: Vec::new(alloc),
        }
    }

    /// Registers an item, and answers its number, which is the count of the items before. A refusal hands it back.
    pub fn register(&mut self, item: C) -> Result<u64, (NoMemory, C)>
        ensures number { IfOk result (λ number. number ≡ length self.old) }
        ensures registered { OnOk result (self.new ≡ self.old ++ item ∷ []) }
        ensures handed_back { IfErr result (λ refused. refused.1 ≡ item) }
        ensures unchanged { OnErr result (self.new ≡ self.old) }
    {
        let number = self.items.len() as u64;
        match self.items.push(item) {
            Ok(()) => Ok(number),
            Err(refused) => Err((NoMemory, refused.value)),
        }
    }

    /// Lends the item of that number. It takes no memory.
    pub fn item(&self, number: u64) -> &C
        requires { number < length self.now }
        ensures { slice_get self.now number ≡ Some result.now }
    {
        &self.items[number as usize]
    }

    /// How many items are registered. It takes no memory.
    pub fn count(&self) -> u64
        ensures { result ≡ length self.now }
    {
        self.items.len() as u64
    }

    /// Runs each item once, from the last number down to 0, tells the watch each with this life and region, and
    /// answers how many. It takes no memory.
    pub fn run_all<W: CleanupWatch>(self, life: u64, region: u32, watch: &mut W) -> u64
        ensures count { result ≡ length self }
        ensures told { Gains (W.told watch.old) (W.told watch.new) (block life region (length self)) }
        ensures tells { HasRoom (W.told watch.old) (W.room watch.old) (length self) → IsSome (W.told watch.new) }
        ensures room { W.room watch.new ≡ W.room watch.old }
    {
        let count = self.items.len() as u64;
        let mut items = self.items;
        while let Some(item) = items.pop() {
            item.run();
            watch.tell(life, region, items.len() as u64);
        }
        count
    }
}
