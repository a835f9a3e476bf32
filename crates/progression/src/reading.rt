//! What is known of the signals.
ghost use Rattle.std.specs.Prelude.{◌≡◌, ℕ, Bool, if◌then◌else◌, None, Option as Maybe, nat_eq};
ghost use Rattle.progression.specs.Readings.{ReadingsKeepMeaning, known_at};

/// Past readings, as far as they are known.
pub trait Known {
    ghost known: { Self → ℕ → ℕ → Maybe Bool };

    /// What a signal was at a tick.
    fn look_up(&self, signal: u8, tick: u32) -> Option<bool>
        ensures { result ≡ known self.now signal tick };
}

/// What is known of one tick: the signals by their numbers, on or off; those that are not known, and all others, stay open.
#[derive(Clone, Copy, PartialEq, Eq, Debug)]
pub struct Row<'a> {
    pub tick: u32,
    pub signals: &'a [Option<bool>],
}

impl Row<'_> {
    /// What a signal is at the row's tick.
    pub fn at(&self, signal: u8) -> Option<bool>
        ensures { result ≡ known_at self.now.signals.now signal }
    {
        self.signals.get(signal as usize).copied().flatten()
    }
}

impl Known for Row<'_> {
    ghost known = { λ r p s. (if nat_eq s r.tick then known_at r.signals.now p else None) };

    fn look_up(&self, signal: u8, tick: u32) -> Option<bool> {
        if tick == self.tick {
            self.at(signal)
        } else {
            None
        }
    }
}

/// A step by a row and a closing by what is known keep the meaning, on every run of which they are true.
pub fn readings_keep_meaning()
    ensures { ReadingsKeepMeaning }
{}
