//! The names of the commands, and what words each takes.

ghost use Rattle.std.specs.Prelude.{◌≡◌};
ghost use Rattle.cpa_words.specs.Words.{operands_of, takes_workers, verb_of};

/// A command's name.
#[derive(Clone, Copy, Debug, PartialEq, Eq)]
pub enum Verb {
    Analyse,
    Session,
    Simulate,
    Generate,
    Load,
    Hammer,
    Assign,
    Slack,
    Buffers,
    Audit,
}

impl Verb {
    /// The command of a name.
    pub fn read(word: &str) -> Option<Verb>
        ensures { result ≡ verb_of word.now }
    {
        if word == "analyse" {
            Some(Verb::Analyse)
        } else if word == "session" {
            Some(Verb::Session)
        } else if word == "simulate" {
            Some(Verb::Simulate)
        } else if word == "generate" {
            Some(Verb::Generate)
        } else if word == "load" {
            Some(Verb::Load)
        } else if word == "hammer" {
            Some(Verb::Hammer)
        } else if word == "assign" {
            Some(Verb::Assign)
        } else if word == "slack" {
            Some(Verb::Slack)
        } else if word == "buffers" {
            Some(Verb::Buffers)
        } else if word == "audit" {
            Some(Verb::Audit)
        } else {
            None
        }
    }

    /// How many operands it has.
    pub fn operands(self) -> usize
        ensures { result ≡ operands_of self }
    {
        match self {
            Verb::Analyse => 1,
            Verb::Session
            | Verb::Simulate
            | Verb::Generate
            | Verb::Load
            | Verb::Assign
            | Verb::Slack
            | Verb::Buffers => 2,
            Verb::Hammer | Verb::Audit => 3,
        }
    }

    /// Whether it takes the number of workers.
    pub fn takes_workers(self) -> bool
        ensures { result ≡ takes_workers self }
    {
        matches!(
            self,
            Verb::Analyse | Verb::Session | Verb::Load | Verb::Slack | Verb::Buffers
        )
    }
}
