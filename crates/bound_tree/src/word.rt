/// The version of the format that has rows in its leaves.
pub(crate) const ROWS: u128 = 1;

/// The version of the format that has rows in slots.
pub(crate) const SLOTS: u128 = 2;

/// The words that the lines of a tree begin with.
#[derive(Clone, Copy, Debug, PartialEq, Eq)]
pub(crate) enum Word {
    Header,
    NoPlan,
    Plan,
    Buy,
    Split,
    Row,
    Bound,
    Empty,
    Winners,
}

impl Word {
    ghost use Rattle.std.specs.Prelude.{◌≡◌};
    ghost use Rattle.bound_tree.specs.LineWords.{word_text, word_of};

    /// The word as it is written.
    pub(crate) fn text(self) -> &'static str
        ensures { result.now ≡ word_text self }
    {
        match self {
            Word::Header => "tqd-tree",
            Word::NoPlan => "none",
            Word::Plan => "plan",
            Word::Buy => "buy",
            Word::Split => "split",
            Word::Row => "row",
            Word::Bound => "bound",
            Word::Empty => "empty",
            Word::Winners => "winners",
        }
    }

    /// The word that a text is, if it is one.
    #[tactic(auto, unfolding(crate::specs::LineWords::word_of))]
    pub(crate) fn of(text: &[u8]) -> Option<Word>
        ensures { result ≡ word_of text.now }
    {
        [
            Word::Header,
            Word::NoPlan,
            Word::Plan,
            Word::Buy,
            Word::Split,
            Word::Row,
            Word::Bound,
            Word::Empty,
            Word::Winners,
        ]
        .iter()
        .copied()
        .find(|word| text == word.text().as_bytes())
    }
}
