//! A sheet before it is read.
ghost use Rattle.std.specs.Prelude.{◌≡◌, IfOk, IsSome, vec_len};
ghost use Rattle.sheet.specs.Texts.{blank};

use crate::reading::Reading;
use crate::rule_reader::RuleReader;
use crate::sheet::Sheet;
use roster::{Roster, SheetFault};
use rule::Rule;
use std::alloc::{AllocError, Global};

/// The most bytes of a sheet.
pub const MOST_BYTES: usize = 4096;

/// The memory of a sheet and of its reading; nothing was read.
#[derive(Drop)]
pub struct Blank {
    pub(crate) reading: Reading,
    ghost no_posts: { vec_len reading.roster.posts ≡ 0 },
    ghost no_signals: { vec_len reading.roster.signals ≡ 0 },
    ghost no_rule: { vec_len reading.rules ≡ 0 },
    ghost spare: { IsSome reading.spare },
}

impl Blank {
    ghost use Rattle.sheet.specs.Sheets.{Read, draft_so_far};

    /// A blank sheet; all the memory of a sheet and of its reading is taken here.
    pub fn new(heap: Global) -> Result<Blank, AllocError>
        ensures { IfOk result (λ b. draft_so_far b.reading ≡ blank) }
    {
        let roster = Roster::new(heap)?;
        let rule = Rule::new(heap)?;
        let rules = Vec::with_capacity(heap, 1)?;
        let rule_reader = RuleReader::new(heap)?;
        let reading = Reading {
            roster,
            spare: Some(rule),
            rules,
            rule_reader,
        };
        Ok(Blank { reading })
    }

    /// The sheet that a text is, or why it is held back.
    pub fn read(self, text: &[u8]) -> Result<Sheet, SheetFault>
        ensures { Read text.now result }
    {
        if text.len() > MOST_BYTES {
            return Err(SheetFault::Whole);
        }
        let lines = text.strip_suffix(b"\n").ok_or(SheetFault::Whole)?;
        let Blank { mut reading } = self;
        reading.read_lines(lines)?;
        Ok(reading.finish())
    }
}
