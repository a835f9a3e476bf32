//! A station sheet.
ghost use Rattle.std.specs.Prelude.{◌≡◌, ◌≤◌, [], ◌∷◌, length, vec_len};
ghost use Rattle.std.specs.List.{All};
ghost use Rattle.rule.specs.Ruled.{rule_formula};

use roster::{Post, Roster, Signal};
use rule::Rule;

/// The posts and signals of a site, and the rules that they monitor: one today, over all the signals.
#[derive(Drop)]
pub struct Sheet {
    pub(crate) roster: Roster,
    pub(crate) rules: Vec<Rule>,
    ghost one: { vec_len rules ≡ 1 },
    ghost over: { All (λ r. r.signals ≡ vec_len roster.signals) rules.items },
}

impl Sheet {
    ghost use Rattle.sheet.specs.Sheets.{draft_of};

    /// The posts, numbered from 1.
    pub fn posts(&self) -> &[Post]
        ensures items { result.now ≡ self.now.roster.posts.items }
        ensures few { length result.now ≤ 8 }
    {
        self.roster.posts()
    }

    /// The signals, numbered from 0, each with the number of the post that owns it.
    pub fn signals(&self) -> &[Signal]
        ensures items { result.now ≡ self.now.roster.signals.items }
        ensures few { length result.now ≤ 32 }
    {
        self.roster.signals()
    }

    /// The rules.
    pub fn rules(&self) -> &[Rule]
        ensures items { result.now ≡ self.now.rules.items }
        ensures one { length result.now ≡ 1 }
    {
        self.rules.as_slice()
    }

    /// The first rule, over all the signals.
    pub fn rule(&self) -> &Rule
        ensures formula { rule_formula result.now ∷ [] ≡ (draft_of self.now).rules }
        ensures signals { result.now.signals ≡ vec_len self.now.roster.signals }
    {
        &self.rules[0]
    }
}
