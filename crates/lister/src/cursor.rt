// Cursors: what walks along the prefixes of readings, and says how they go on.
ghost use Rattle.std.specs.Prelude.{ℕ, ◌<◌, List, length, take, Decides};
ghost use Rattle.lister.specs.Least.{Lawful};
ghost use Rattle.lister.specs.Cursors.{Followed, Searched, Wherever};

// A cursor stands in a script and walks along the prefixes of its readings (the lists of rule numbers), up to as many
// entries as it has room for. It promises nothing where it stands in no script.
pub trait Cursor {
    // Scripts: whatever says which lists are readings.
    ghost Script: { Type 0 };

    // Which lists are the readings of a script.
    ghost readings: { Script → List ℕ → Type 0 };

    // The cursor stands in the script, has room for so many entries, and has walked the prefix.
    ghost stands: { Self → Script → ℕ → List ℕ → Type 0 };

    // Readings are not empty, no prefixes of one another, and finitely many.
    ghost lawful: { (s : Self) → Wherever (stands s) (λ t room p. Lawful (readings t)) };

    // Goes back to the first n entries of what was walked; stays where it has no more.
    fn back(&mut self, n: usize)
        ensures { Wherever (stands self.old) (λ t room p. stands self.new t room (take n p)) };

    // Walks one rule further. False: it stays, since no reading begins so. True does not say that some reading does.
    fn follow(&mut self, rule: u16) -> bool
        ensures { Wherever (stands self.old) (λ t room p. length p < room → Followed (readings t) (stands self.new t room) p rule result) };

    // The least rule from low on with which some reading goes on behind what was walked; None where there is none.
    fn least(&mut self, low: u32) -> Option<u16>
        ensures { Wherever (stands self.old) (λ t room p. stands self.new t room p × Searched (readings t) p low result) };

    // Whether what was walked is a reading.
    fn whole(&mut self) -> bool
        ensures { Wherever (stands self.old) (λ t room p. stands self.new t room p × Decides result (readings t p)) };
}
