//! The laws of histories.

ghost use Rattle.history.specs.Laws.{HistoriesKeepPublished, OnlyPublicationsChangeLive, OpenFindsTheShelf};
ghost use Rattle.history.specs.Lookups.{LookupsGivePublished};

/// Makes the laws of histories known to a proof. It does nothing.
pub fn know_laws()
    ensures keep { HistoriesKeepPublished }
    ensures stay { OnlyPublicationsChangeLive }
    ensures opens { OpenFindsTheShelf }
    ensures lookups { LookupsGivePublished }
{}
