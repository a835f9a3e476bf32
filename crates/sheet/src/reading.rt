//! A sheet while it is read.
ghost use Rattle.std.specs.Prelude.{◌≡◌, ◌≤◌, ◌==◌, length, OnOk, vec_len, vec_capacity};
ghost use Rattle.std.specs.List.{slice_split};
ghost use Rattle.sheet.specs.Texts.{after_line, after_lines, after_rule, line_holds, lines_holds, rule_holds};

use crate::rule_reader::RuleReader;
use crate::sheet::Sheet;
use roster::{Roster, SheetFault};
use rule::Rule;

/// What was read so far, with the memory of the rest: `spare` is that of the rule, until the rule line is read into `rules`.
#[derive(Drop)]
pub struct Reading {
    pub(crate) roster: Roster,
    pub(crate) spare: Option<Rule>,
    pub(crate) rules: Vec<Rule>,
    pub(crate) rule_reader: RuleReader,
    ghost room: { 1 ≤ vec_capacity rules },
}

impl Reading {
    ghost use Rattle.sheet.specs.Sheets.{Advances, Ready, draft_of, draft_so_far};

    /// Reads a rule line, by the text behind `rule` and a space.
    fn read_rule_line(&mut self, text: &[u8], line: usize) -> Result<(), SheetFault>
        requires { Ready self.old }
        ensures { Advances (rule_holds (draft_so_far self.old) line text.now) (after_rule (draft_so_far self.old) text.now) self.new result }
    {
        self.rule_reader
            .words
            .cut(text, self.roster.signals())
            .map_err(|_| SheetFault::Byte(line))?;
        if self.roster.posts().is_empty() {
            return Err(SheetFault::Form(line));
        }
        let mut rule = self.spare.take().ok_or(SheetFault::Form(line))?;
        let signals = self.roster.signals().len() as u8;
        self.rule_reader.read(&mut rule, signals, line)?;
        self.rules.push_reserved(rule);
        Ok(())
    }

    /// Reads a line.
    fn read_line(&mut self, text: &[u8], line: usize) -> Result<(), SheetFault>
        requires { Ready self.old }
        ensures { Advances (line_holds (draft_so_far self.old) line text.now) (after_line (draft_so_far self.old) text.now) self.new result }
    {
        match text.strip_prefix(b"rule ") {
            Some(rule) => self.read_rule_line(rule, line),
            None => self.roster.read_post(text, line, !self.rules.is_empty()),
        }
    }

    /// Reads the lines of a text without its last line end.
    pub(crate) fn read_lines(&mut self, text: &[u8]) -> Result<(), SheetFault>
        requires short { length text.now ≤ 4096 }
        requires ready { Ready self.old }
        ensures draft { Advances (lines_holds (draft_so_far self.old) 1 (slice_split (λ c. c == 10) text.now)) (after_lines (draft_so_far self.old) (slice_split (λ c. c == 10) text.now)) self.new result }
        ensures ruled { OnOk result (vec_len self.new.rules ≡ 1) }
    {
        // the next line's number, at last the one behind the last line, which `enumerate` would not give
        let mut number = 1;
        for line in text.split(|b| *b == b'\n') {
            self.read_line(line, number)?;
            number += 1;
        }
        if self.rules.is_empty() {
            return Err(SheetFault::Form(number));
        }
        Ok(())
    }

    /// The sheet that was read.
    pub(crate) fn finish(self) -> Sheet
        requires ready { Ready self }
        requires ruled { vec_len self.rules ≡ 1 }
        ensures { draft_of result ≡ draft_so_far self }
    {
        let Reading { roster, rules, .. } = self;
        Sheet { roster, rules }
    }
}
