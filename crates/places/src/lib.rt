// A list of bounded length, in places that a caller lends.

#![tactic(auto)]

ghost use Rattle.std.specs.Prelude.{◌≡◌, ◌≤◌, [], ◌∷◌, length, take, MatchResult};
ghost use Rattle.refusals.specs.declared.RunFault.TheVariants.{Full};

use refusals::RunFault;

// The entries stand in the first places, the others are as they were lent.
// Stays a slice with a length beside it: the places are the caller's, and there is no heap.
#[derive(Drop)]
pub struct Places<'a, T> {
    slots: &'a mut [T],
    len: usize,
    ghost fits: { len ≤ length slots.now },
}

impl<'a, T: Copy> Places<'a, T> {
    ghost use Rattle.places.specs.Pushed.{Adds};

    // An empty list in these places.
    pub fn new(slots: &'a mut [T]) -> Places<'a, T>
        ensures all { result.slots.now ≡ slots.old }
        ensures none { result.len ≡ 0 }
        ensures same { result.slots.ghost_name ≡ slots.entry.ghost_name }
    {
        Places { slots, len: 0 }
    }

    // One entry more; refused where all places are taken.
    // Stays apart from a line's writing of one byte: that has its length elsewhere, and another refusal.
    #[tactic(auto, using(crate::proofs::Lay::laid_set))]
    pub fn push(&mut self, entry: T) -> Result<(), RunFault>
        ensures { MatchResult result (λ _. Adds (entry ∷ []) self.old self.new) (λ f. (f ≡ Full) × ((self.old.len ≡ length self.old.slots.now) × (self.new ≡ self.old))) }
    {
        if self.len < self.slots.len() {
            self.slots[self.len] = entry;
            self.len += 1;
            Ok(())
        } else {
            Err(RunFault::Full)
        }
    }

    // The entries.
    pub fn entries(&self) -> &[T]
        ensures { result.now ≡ take self.now.len self.now.slots.now }
    {
        &self.slots[0..self.len]
    }
}
