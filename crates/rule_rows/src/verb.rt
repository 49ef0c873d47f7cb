//! The verbs of rows.

use anyhow::{Result, bail};

/// The rules of a sequence.
#[derive(Clone, Copy)]
pub enum Rule {
    W1,
    W2,
    W3,
    W4,
    W5,
    W6,
    W7,
    /// W1 to W7, one after another.
    EachWeak,
    /// W1 to W7 in a single pass.
    Weak,
    /// N1 and N2.
    Neutral,
    /// I1 and I2.
    Implicit,
    /// N1 to I2 in a single pass.
    NeutralToImplicit,
}

/// What comes out of a row.
#[derive(Clone, Copy)]
pub enum Verb {
    /// The paragraphs of a text (P1).
    Paragraphs,
    /// The level of a paragraph (P2, P3).
    Level,
    /// The partners of its isolate initiators and their PDIs (BD9).
    Partners,
    /// Its explicit levels and current classes (X1 to X9).
    Explicit,
    /// Its isolating run sequences (X10).
    Sequences,
    /// The position after each in its sequence (BD13).
    Successors,
    /// Its bracket pairs (BD16).
    Pairs,
    /// Its levels after W1 to I2, by one call for each group of rules.
    InOrder,
    /// Its resolved levels (P2 to I2).
    Levels,
    /// What one of these rules gives for a sequence.
    Rule(Rule),
}

impl Rule {
    /// Returns the rule, or the rules, with this name. Fails if there is none.
    fn of(name: &str) -> Result<Rule> {
        match name {
            "W1" => Ok(Rule::W1),
            "W2" => Ok(Rule::W2),
            "W3" => Ok(Rule::W3),
            "W4" => Ok(Rule::W4),
            "W5" => Ok(Rule::W5),
            "W6" => Ok(Rule::W6),
            "W7" => Ok(Rule::W7),
            "W1 to W7" => Ok(Rule::EachWeak),
            "weak" => Ok(Rule::Weak),
            "N1, N2" => Ok(Rule::Neutral),
            "I1, I2" => Ok(Rule::Implicit),
            "N1 to I2" => Ok(Rule::NeutralToImplicit),
            _ => bail!("no verb is {name}"),
        }
    }
}

impl Verb {
    /// Returns the verb with this name. Fails if there is none.
    pub fn of(name: &str) -> Result<Verb> {
        match name {
            "paragraphs" => Ok(Verb::Paragraphs),
            "level" => Ok(Verb::Level),
            "partners" => Ok(Verb::Partners),
            "explicit" => Ok(Verb::Explicit),
            "sequences" => Ok(Verb::Sequences),
            "successors" => Ok(Verb::Successors),
            "pairs" => Ok(Verb::Pairs),
            "W1 to I2" => Ok(Verb::InOrder),
            "levels" => Ok(Verb::Levels),
            rule => Ok(Verb::Rule(Rule::of(rule)?)),
        }
    }
}
