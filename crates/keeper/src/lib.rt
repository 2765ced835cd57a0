//! Keepers: delays at numbered places, of which the smallest over a run of places can be asked (the field speaks of range minimum
//! queries with point updates). The trait says what every keeper does; a table is one.

#![tactic(auto)]

pub mod lesser;
pub mod table;
pub mod table_keeper;

ghost use Rattle.std.specs.Prelude.{◌≡◌, true, false, length, Some, None, MatchOption};
ghost use Rattle.keeper.specs.Keeps.{Keeps, all_none, noted, MayLower, NoDelay, LeastFrom};

/// A keeper: so many places, each with a delay or none. Every call may be made with any number; a place that does not exist counts as
/// none, and no call on it changes anything.
pub trait Keeper {
    /// Everything that there is to know of a keeper; no contract speaks of anything else.
    ghost meaning: { Self → Keeps };

    /// How many places there are.
    fn places(&self) -> u32
        ensures { result ≡ (meaning self.now).places };

    /// Sets every place to none.
    fn clear(&mut self)
        ensures { meaning self.new ≡ all_none (meaning self.old).places };

    /// Sets the delay `d` at a place that has none or more than `d`, and tells whether it did.
    fn lower(&mut self, place: u32, d: u64) -> bool
        ensures done { result ≡ true → MayLower (meaning self.old) place d × (meaning self.new ≡ noted (meaning self.old) place (Some d)) }
        ensures refused { result ≡ false → (MayLower (meaning self.old) place d → ⊥) × (meaning self.new ≡ meaning self.old) };

    /// Sets a place to none.
    fn retire(&mut self, place: u32)
        ensures { meaning self.new ≡ noted (meaning self.old) place None };

    /// The smallest delay from the place `first` to the place `last`, both counted; none exactly if there is none.
    fn least(&self, first: u32, last: u32) -> Option<u64>
        ensures { MatchOption result (NoDelay (meaning self.now) first last) (λ d. LeastFrom (meaning self.now) first last d) };

    ghost sized: { (s : Self) → length (meaning s).delays ≡ (meaning s).places };
}
