ghost use Rattle.std.specs.Prelude.{◌≡◌, IsTrue, IfOk};
ghost use Rattle.map.specs.declared.offer.Offer.TheVariants.{Over};
ghost use Rattle.map.specs.Successors.{IsSuccessor, IsReady};

use crate::generation::Generation;
use crate::offer::Offer;
use crate::roll::Roll;
use change_list::Config;
use key_class::{KeyClass, Refusal};
use segmented::SegmentRemains;
use std::alloc::Global;

/// The generation that is being built to replace a map's present one. First it gets the entries of a snapshot, then it
/// repeats the changes since.
#[derive(Drop)]
pub(crate) struct Successor<C: KeyClass> {
    roll: Roll<C::Key>,
    generation: Generation<C>,
}

impl<C: KeyClass> Successor<C> {
    /// A successor that begins at the present revision.
    ///
    /// # Errors
    /// `BadConfig` or `OutOfMemory`.
    pub(crate) fn begin(
        alloc: Global,
        config: Config,
        present: &Generation<C>,
    ) -> Result<Successor<C>, Refusal>
        ensures { IfOk result (λ made. IsSuccessor present.now made.roll made.generation) }
    {
        let roll = present.roll()?;
        let generation = Generation::new(alloc, config, present.revision())?;
        Ok(Successor { roll, generation })
    }

    /// One more step.
    ///
    /// # Errors
    /// Those of a store's calls; the step may be made again.
    pub(crate) fn step(&mut self, present: &Generation<C>) -> Result<(), Refusal>
        requires { IsSuccessor present.now self.old.roll self.old.generation }
        ensures { IsSuccessor present.now self.new.roll self.new.generation }
    {
        match self.roll.offer() {
            Offer::Pass => self.roll.skip(),
            Offer::Give(entry) => {
                self.generation.add(entry)?;
                self.roll.pass();
                Ok(())
            }
            Offer::Over => self.repeat(present),
        }
    }

    /// Repeats the next change, if there is one.
    ///
    /// # Errors
    /// Those of a store's calls; nothing is changed then.
    fn repeat(&mut self, present: &Generation<C>) -> Result<(), Refusal>
        requires is { IsSuccessor present.now self.old.roll self.old.generation }
        requires over { self.old.roll.offer ≡ Over }
        ensures { IsSuccessor present.now self.new.roll self.new.generation }
    {
        // states that all entries were given
        let _offer = self.roll.offer();
        let place = self.generation.revision() - present.oldest();
        let Some(change) = present.change(place) else {
            return Ok(());
        };
        self.generation.make(change)
    }

    /// Whether it may replace the present generation: it has caught up, and keeps enough changes.
    pub(crate) fn is_ready(&self, present: &Generation<C>, history: u64) -> bool
        requires { IsSuccessor present.now self.now.roll self.now.generation }
        ensures { IsTrue result → IsReady present.now history self.now.generation }
    {
        matches!(self.roll.offer(), Offer::Over)
            && self.generation.revision() == present.revision()
            && present.revision() - self.generation.oldest() >= history
    }

    /// The new present generation, and the flags of the former one's rows.
    pub(crate) fn into_present(self) -> (Generation<C>, SegmentRemains<bool>)
        ensures { result.0 ≡ self.generation }
    {
        (self.generation, self.roll.into_remains())
    }
}
