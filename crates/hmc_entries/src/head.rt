//! The first words of entry lines.

ghost use Rattle.std.specs.Prelude.{◌≡◌};
ghost use Rattle.hmc_entries.specs.ParseHead.{head_word, head_of};

/// A kind of entry.
#[derive(Clone, Copy)]
pub enum Head {
    Gave,
    Sent,
    Landed,
    Shifted,
    Dropped,
    Spread,
    Executed,
    Lifted,
    Took,
    Discarded,
    Through,
    Unlocked,
    Retired,
    Passed,
    Idle,
}

const HEADS: [Head; 15] = [
    Head::Gave,
    Head::Sent,
    Head::Landed,
    Head::Shifted,
    Head::Dropped,
    Head::Spread,
    Head::Executed,
    Head::Lifted,
    Head::Took,
    Head::Discarded,
    Head::Through,
    Head::Unlocked,
    Head::Retired,
    Head::Passed,
    Head::Idle,
];

impl Head {
    fn word(self) -> &'static str
        ensures { result.now ≡ head_word self }
    {
        match self {
            Head::Gave => "gave",
            Head::Sent => "sent",
            Head::Landed => "landed",
            Head::Shifted => "shifted",
            Head::Dropped => "dropped",
            Head::Spread => "spread",
            Head::Executed => "executed",
            Head::Lifted => "lifted",
            Head::Took => "took",
            Head::Discarded => "discarded",
            Head::Through => "through",
            Head::Unlocked => "unlocked",
            Head::Retired => "retired",
            Head::Passed => "passed",
            Head::Idle => "idle",
        }
    }
}

/// The kind of entry with this word.
#[tactic(auto, unfolding(crate::specs::ParseHead::head_of, crate::specs::ParseHead::all_heads))]
pub fn head_of(word: &[u8]) -> Option<Head>
    ensures { result ≡ head_of word.now }
{
    HEADS
        .iter()
        .copied()
        .find(|head| head.word().as_bytes() == word)
}
