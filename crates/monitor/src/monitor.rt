//! The global monitor.
ghost use Rattle.std.specs.Prelude.{◌≡◌, true};
ghost use Rattle.temporal.specs.Parts.{parts};
ghost use Rattle.compact.specs.Compacts.{formula_of};
ghost use Rattle.rule.specs.Rules.{all_plain};

use crate::hold::Hold;
use crate::readings::{is_beyond, row_of};
use crate::verdict::Verdict;
use compact::{Compact, Workspace};
use progression::Row;
use rule::Rule;
use std::alloc::{AllocError, Global};

/// The last tick.
pub const LAST_TICK: u32 = 999_999;

/// It sees all signals: the rule, the obligation reached, the next tick and the tick that decided.
#[derive(Drop)]
pub struct Monitor {
    pub(crate) rule: Rule,
    pub(crate) obligation: Compact,
    pub(crate) next: u32,
    pub(crate) decided: Option<u32>,
    pub(crate) space: Workspace,
    ghost plain: { all_plain rule.signals (parts (formula_of obligation)) ≡ true },
}

impl Monitor {
    ghost use Rattle.std.specs.Prelude.{IfOk, OnErr};
    ghost use Rattle.rule.specs.Ruled.{rule_formula};
    ghost use Rattle.compact.specs.Compacts.{compact_parts};
    ghost use Rattle.monitor.specs.Monitoring.{Steps, decide, fresh, verdict_of};
    ghost use Rattle.monitor.specs.Monitors.{state_of};

    /// The deciding tick, where the obligation has a value once the step of the tick was made.
    fn decided_by(decided: Option<u32>, value: Option<bool>, tick: u32) -> Option<u32>
        ensures { result ≡ decide decided value tick }
    {
        decided.or(value.and(Some(tick)))
    }

    /// A monitor of a rule, before tick 0; all the memory is taken here.
    pub fn new(heap: Global, rule: &Rule) -> Result<Monitor, AllocError>
        ensures { IfOk result (λ m. state_of m ≡ fresh rule.now.signals (rule_formula rule.now)) }
    {
        let mut own = Rule::new(heap)?;
        let mut obligation = Compact::new(heap)?;
        let mut space = Workspace::new(heap)?;
        own.copy(rule, &mut space);
        obligation.copy(rule.formula(), &mut space);
        let decided = Self::decided_by(None, obligation.value(), 0);
        Ok(Monitor {
            rule: own,
            obligation,
            next: 0,
            decided,
            space,
        })
    }

    /// One step by a whole reading, which has bit j for signal j.
    pub fn step(&mut self, reading: u32) -> Result<(), Hold>
        ensures state { Steps (state_of self.old) reading (state_of self.new) result }
        ensures table { OnErr result (compact_parts self.new.obligation ≡ compact_parts self.old.obligation) }
    {
        if is_beyond(self.rule.signals(), reading) {
            return Err(Hold::Reading);
        }
        if self.next > LAST_TICK {
            return Err(Hold::Tick);
        }
        let row = Row {
            tick: self.next,
            signals: &row_of(reading),
        };
        self.obligation.step(&row, &mut self.space)?;
        self.decided = Self::decided_by(self.decided, self.obligation.value(), self.next);
        self.next += 1;
        Ok(())
    }

    /// The verdict.
    pub fn verdict(&self) -> Verdict
        ensures { result ≡ verdict_of (state_of self.now).obligation }
    {
        self.obligation.value().into()
    }

    /// The tick that decided, once there is a verdict.
    pub fn deciding_tick(&self) -> Option<u32>
        ensures { result ≡ (state_of self.now).decided }
    {
        self.decided
    }

    /// The tick of the next step.
    pub fn next_tick(&self) -> u32
        ensures { result ≡ (state_of self.now).next }
    {
        self.next
    }

    /// The obligation reached.
    pub fn obligation(&self) -> &Compact
        ensures { formula_of result.now ≡ (state_of self.now).obligation }
    {
        &self.obligation
    }
}
