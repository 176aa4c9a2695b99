//! The law of lookups in runs.

ghost use Rattle.playing.specs.Laws.{GetsGivePublished};

/// Makes the law of lookups in runs known to a proof. It does nothing.
pub(crate) fn know_gets()
    ensures gets { GetsGivePublished }
{}
