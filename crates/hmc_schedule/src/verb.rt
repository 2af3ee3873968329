//! The first words of lines.

ghost use Rattle.std.specs.Prelude.{◌≡◌};
ghost use Rattle.hmc_schedule.specs.Verb.{word_of, verb_of};

/// A kind of step.
#[derive(Clone, Copy)]
pub enum Verb {
    Give,
    Send,
    Land,
    Shift,
    Spread,
    Bank,
    Registers,
    Lift,
    Take,
    Through,
    Unlock,
    Retire,
}

const VERBS: [Verb; 12] = [
    Verb::Give,
    Verb::Send,
    Verb::Land,
    Verb::Shift,
    Verb::Spread,
    Verb::Bank,
    Verb::Registers,
    Verb::Lift,
    Verb::Take,
    Verb::Through,
    Verb::Unlock,
    Verb::Retire,
];

impl Verb {
    fn word(self) -> &'static str
        ensures { result.now ≡ word_of self }
    {
        match self {
            Verb::Give => "give",
            Verb::Send => "send",
            Verb::Land => "land",
            Verb::Shift => "shift",
            Verb::Spread => "spread",
            Verb::Bank => "bank",
            Verb::Registers => "registers",
            Verb::Lift => "lift",
            Verb::Take => "take",
            Verb::Through => "through",
            Verb::Unlock => "unlock",
            Verb::Retire => "retire",
        }
    }
}

/// The kind of step with this word.
#[tactic(auto, unfolding(crate::specs::Verb::verb_of, crate::specs::Verb::verbs))]
pub fn verb_of(word: &[u8]) -> Option<Verb>
    ensures { result ≡ verb_of word.now }
{
    VERBS
        .iter()
        .copied()
        .find(|verb| verb.word().as_bytes() == word)
}
