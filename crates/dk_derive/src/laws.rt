//! What the definitions of derived variables come to.
ghost use Rattle.dk_derive.specs.Laws.{DerivedAreCounted, GivesDerived, MissingBasesGiveMissing, PartnersAreAlike, ValuesAreOfKinds, ValuesAreWithin};

/// What `derive` gives are base variables followed by what is derived of them, in kinds and forms.
pub fn derive_gives_derived()
    ensures { GivesDerived }
{}

/// q plain sequences and n plain whole numbers give 3 q + 5 q n derived variables, and likewise orig ones.
pub fn derived_are_counted()
    ensures { DerivedAreCounted }
{}

/// Where the values of the base variables are as many as these, and each is missing or of its variable's kind, so are the values of
/// all variables.
pub fn values_are_of_kinds()
    ensures { ValuesAreOfKinds }
{}

/// Of a sequence of n elements and a whole number i, the first and the last element are there where n is not 0; the element at i where
/// 0 <= i < n; the slices up to i and after i where -1 <= i < n; those before i and from i on where 0 <= i <= n.
pub fn values_are_within()
    ensures { ValuesAreWithin }
{}

/// What is derived of a missing sequence is missing, and so is what is derived by a missing index.
pub fn missing_bases_give_missing()
    ensures { MissingBasesGiveMissing }
{}

/// A variable's partner has its kind, and is a base variable exactly where it is one.
pub fn partners_are_alike()
    ensures { PartnersAreAlike }
{}
