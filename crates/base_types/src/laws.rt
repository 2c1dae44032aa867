// Laws of counts, and of what objects tell, over two calls that follow one another.
ghost use Rattle.std.specs.Prelude.{◌≡◌, ◌+◌, ◌-◌, ◌^◌, ◌≤◌, ◌<◌, ◌++◌, ℕ, List};
ghost use Rattle.std.specs.declared.option.Option.{Option};
ghost use Rattle.base_types.specs.Counts.{raised, Rose};
ghost use Rattle.base_types.specs.Tellings.{Both, TakesFirst};

/// A count that is raised twice is as one that is raised once by both together.
pub fn raises_add_up()
    ensures { (count first second : ℕ) → raised (raised count first) second ≡ raised count (first + second) }
{}

/// A count that went up rose, and one that rose went up, unless it stood at its last value.
pub fn a_raised_count_rose()
    ensures rose { (before now : ℕ) → before < now → Rose before now }
    ensures up { (before now : ℕ) → before < 2 ^ 64 - 1 → Rose before now → before < now }
{}

/// A count that rose in one of two calls and fell in neither rose in both together.
pub fn rises_are_kept()
    ensures first { (before between now : ℕ) → Rose before between → between ≤ now → Rose before now }
    ensures second { (before between now : ℕ) → before ≤ between → Rose between now → Rose before now }
{}

/// Where each of two calls does to what is told what a function says, both together do one after the other.
pub fn calls_may_be_joined<T>()
    ensures { (first second : T → T) (old between new : Option T) → Both old between (λ x y. y ≡ first x) → Both between new (λ y z. z ≡ second y) → Both old new (λ x z. z ≡ second (first x)) }
{}

/// What was taken first in two calls was taken first, in that order, in both together.
pub fn takings_may_be_joined<T>()
    ensures { (old between new : Option (List T)) (first second : List T) → TakesFirst old between first → TakesFirst between new second → TakesFirst old new (first ++ second) }
{}
