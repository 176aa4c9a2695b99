//! Inner: the names of what a line can say.

ghost use Rattle.std.specs.Prelude.{◌≡◌, ◌≢◌, MatchOption};
ghost use Rattle.script.specs.Sayings.{name};

/// The first word of a line.
#[derive(Clone, Copy)]
pub(crate) enum Verb {
    Device,
    Format,
    Open,
    Begin,
    Add,
    Finish,
    Publish,
    Abandon,
    Get,
    Mark,
    Cut,
    Power,
    Scribble,
}

impl Verb {
    /// The verb with a name.
    pub(crate) fn named(word: &[u8]) -> Option<Verb>
        ensures { MatchOption result ((v : Verb) → word.now ≢ name v) (λ v. word.now ≡ name v) }
    {
        let verb = match word {
            b"device" => Verb::Device,
            b"format" => Verb::Format,
            b"open" => Verb::Open,
            b"begin" => Verb::Begin,
            b"add" => Verb::Add,
            b"finish" => Verb::Finish,
            b"publish" => Verb::Publish,
            b"abandon" => Verb::Abandon,
            b"get" => Verb::Get,
            b"mark" => Verb::Mark,
            b"cut" => Verb::Cut,
            b"power" => Verb::Power,
            b"scribble" => Verb::Scribble,
            _ => return None,
        };
        Some(verb)
    }
}
