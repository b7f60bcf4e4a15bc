//! The laws of circulations, each the contract of a function that does nothing (Ahuja, Magnanti, Orlin, Network
//! Flows, 1993: the circulation theorem of Hoffman, and the duality of minimum cost flows).

ghost use Rattle.mcf_lower.specs.Laws.{CutExcludes, WeakDuality, FitsCheapest};

/// A net with a cut has no circulation.
pub fn cut_excludes_circulation()
    ensures { CutExcludes }
{}

/// Whatever the numbers of the nodes, no circulation costs less than the sum, over the arcs, of the reduced cost
/// times `low` where it is 0 or more, and times `cap` where it is below 0.
pub fn weak_duality()
    ensures { WeakDuality }
{}

/// A circulation that some node numbers fit is a cheapest one.
pub fn fits_cheapest()
    ensures { FitsCheapest }
{}
