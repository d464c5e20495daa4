//! A bound on a response time.

ghost use Rattle.std.specs.Prelude.{◌≡◌, ◌-◌, ◌^◌};
ghost use Rattle.cpa_units.specs.Bounds.{RespectsLimit, bound_max, bound_plus};
ghost use Rattle.cpa_units.specs.Words.{IsWordable, word_of, bound_of_word, WordsComeBack, WordsKeepOrder};

/// A number of ticks, or no bound, which is above every number.
#[derive(Clone, Copy, Debug, PartialEq, Eq, PartialOrd, Ord)]
pub enum Bound {
    Within(u64),
    Overload,
}

impl Bound {
    /// The greater of two bounds.
    pub fn max(self, other: Bound) -> Bound
        ensures { result ≡ bound_max self other }
    {
        match (self, other) {
            (Bound::Within(a), Bound::Within(b)) => Bound::Within(a.max(b)),
            _ => Bound::Overload,
        }
    }

    /// The sum of two bounds, which is `Overload` or fits into 64 bits.
    pub fn plus(self, other: Bound) -> Bound
        requires { RespectsLimit (2 ^ 64 - 1) (bound_plus self other) }
        ensures { result ≡ bound_plus self other }
    {
        match (self, other) {
            (Bound::Within(a), Bound::Within(b)) => Bound::Within(a + b),
            _ => Bound::Overload,
        }
    }

    /// The bound as a word: its number, or the greatest word for an overload.
    pub fn word(self) -> u64
        requires { IsWordable self }
        ensures { result ≡ word_of self }
    {
        match self {
            Bound::Within(ticks) => ticks,
            Bound::Overload => u64::MAX,
        }
    }

    /// The bound that a word stands for.
    pub fn from_word(word: u64) -> Bound
        ensures { result ≡ bound_of_word word }
    {
        if word == u64::MAX {
            Bound::Overload
        } else {
            Bound::Within(word)
        }
    }
}

/// A word gives its bound back, and words are ordered as their bounds are.
pub fn words_have_laws()
    ensures back { WordsComeBack }
    ensures order { WordsKeepOrder }
{}
