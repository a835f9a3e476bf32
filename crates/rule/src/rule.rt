//! A rule.
ghost use Rattle.std.specs.Prelude.{◌≡◌, ◌≤◌, true, length};
ghost use Rattle.temporal.specs.Parts.{parts};
ghost use Rattle.compact.specs.Compacts.{formula_of};
ghost use Rattle.rule.specs.Rules.{all_plain};

use crate::misfit::Misfit;
use crate::plain::are_plain;
use compact::{Compact, Workspace};
use parts::Table;
use std::alloc::{AllocError, Global};

/// How many signals there may be.
pub const SIGNALS: u8 = 32;

/// How many parts a rule may have.
pub const RULE_PARTS: usize = 64;

/// A shortened formula without open readings, of at most 64 parts, that names only signals below their number, at most 32.
#[derive(Drop)]
pub struct Rule {
    pub(crate) formula: Compact,
    pub(crate) signals: u8,
    ghost few: { signals ≤ 32 },
    ghost small: { length (parts (formula_of formula)) ≤ 64 },
    ghost plain: { all_plain signals (parts (formula_of formula)) ≡ true },
}

impl Rule {
    ghost use Rattle.std.specs.Prelude.{◌<◌, IfOk};
    ghost use Rattle.temporal.specs.Formula.{never};
    ghost use Rattle.temporal.specs.Obligation.{Obligation};
    ghost use Rattle.parts.specs.Places.{formula};
    ghost use Rattle.parts.specs.Tables.{parts_of};
    ghost use Rattle.rule.specs.Ruled.{Ruled, rule_formula};

    /// The rule `false` over no signals; all the memory is taken here.
    pub fn new(heap: Global) -> Result<Rule, AllocError>
        ensures { IfOk result (λ t. (rule_formula t ≡ never) × (t.signals ≡ 0)) }
    {
        let formula = Compact::new(heap)?;
        Ok(Rule {
            formula,
            signals: 0,
        })
    }

    /// How many signals it is over.
    pub fn signals(&self) -> u8
        ensures { result ≡ self.now.signals }
    {
        self.signals
    }

    /// Its formula, an obligation for tick 0.
    pub fn formula(&self) -> &Compact
        ensures formula { result.now ≡ self.now.formula }
        ensures owed { Obligation 0 (formula_of result.now) }
    {
        &self.formula
    }

    /// Becomes what another is.
    // No `Clone`: all its memory was taken when it was made.
    pub fn copy(&mut self, other: &Rule, space: &mut Workspace)
        ensures formula { rule_formula self.new ≡ rule_formula other.now }
        ensures signals { self.new.signals ≡ other.now.signals }
    {
        self.formula.copy(&other.formula, space);
        self.signals = other.signals;
    }

    /// Becomes the formula at a place of a table, over so many signals; else says why that is no rule.
    pub fn become_part(
        &mut self,
        table: &Table,
        at: u16,
        signals: u8,
        space: &mut Workspace,
    ) -> Result<(), Misfit>
        requires { at < length (parts_of table.now) }
        ensures { Ruled self.old self.new signals (formula (parts_of table.now) at) result }
    {
        if signals > SIGNALS {
            return Err(Misfit::Signals);
        }
        space.numbering.number(table, at);
        if space.numbering.out.used() > RULE_PARTS {
            return Err(Misfit::Parts);
        }
        if !are_plain(space.numbering.out.parts(), signals) {
            return Err(Misfit::Leaf);
        }
        self.formula.become_numbered(&mut space.numbering).unwrap();
        self.signals = signals;
        Ok(())
    }
}
