//! Posts and signals.
ghost use Rattle.std.specs.Prelude.{◌≡◌, ◌<◌, ◌≤◌, length, IfOk, vec_len, vec_capacity};
ghost use Rattle.words.specs.Named.{name_bytes};
ghost use Rattle.roster.specs.Entries.{after_post, name_holds, no_entries, pieces, post_holds, signal_holds, signals_holds, stands as stands_in, with_post, with_signal, with_signals};

use crate::fault::SheetFault;
use crate::postline::{are_line_bytes, post_line};
use std::alloc::{AllocError, Global};
use words::{Name, Named, is_among};

/// The most posts of a sheet.
pub const MOST_POSTS: usize = 8;

/// The most signals of a sheet.
pub const MOST_SIGNALS: usize = 32;

/// A place of the site with its board.
// No `PartialEq` here and below: `Name` has none.
#[derive(Clone, Copy, Debug)]
pub struct Post {
    pub name: Name,
}

/// A switch, and the number of the post that owns it.
#[derive(Clone, Copy, Debug)]
pub struct Signal {
    pub name: Name,
    pub owner: u8,
}

// Two impls: that what stands on a sheet has a name is all that a post and a signal share.
impl Named for Post {
    ghost label = { λ p. name_bytes p.name };

    fn name(&self) -> &Name {
        &self.name
    }
}

impl Named for Signal {
    ghost label = { λ s. name_bytes s.name };

    fn name(&self) -> &Name {
        &self.name
    }
}

/// The posts, at most 8, and the signals, at most 32, in the order of the sheet.
#[derive(Drop)]
pub struct Roster {
    pub(crate) posts: Vec<Post>,
    pub(crate) signals: Vec<Signal>,
    ghost posts_room: { 8 ≤ vec_capacity posts },
    ghost signals_room: { 32 ≤ vec_capacity signals },
    ghost few_posts: { vec_len posts ≤ 8 },
    ghost few_signals: { vec_len signals ≤ 32 },
}

impl Roster {
    ghost use Rattle.roster.specs.Rosters.{Judged, NamedFresh, entries};

    /// No posts and no signals; all the memory is taken here.
    pub fn new(heap: Global) -> Result<Roster, AllocError>
        ensures { IfOk result (λ t. entries t ≡ no_entries) }
    {
        let posts = Vec::with_capacity(heap, MOST_POSTS)?;
        let signals = Vec::with_capacity(heap, MOST_SIGNALS)?;
        Ok(Roster { posts, signals })
    }

    /// The posts, numbered from 1.
    pub fn posts(&self) -> &[Post]
        ensures items { result.now ≡ self.now.posts.items }
        ensures few { length result.now ≤ 8 }
    {
        self.posts.as_slice()
    }

    /// The signals, numbered from 0.
    pub fn signals(&self) -> &[Signal]
        ensures items { result.now ≡ self.now.signals.items }
        ensures few { length result.now ≤ 32 }
    {
        self.signals.as_slice()
    }

    /// Whether a name stands on the sheet already.
    fn stands(&self, name: &[u8]) -> bool
        ensures { result ≡ stands_in (entries self.now) name.now }
    {
        is_among(name, self.posts()) || is_among(name, self.signals())
    }

    /// The name that a text is, where it may be added.
    // Here and below a text goes with its line: a fault has its whole place when it is made, and is carried up unchanged.
    fn fresh_name(&self, text: &[u8], line: usize) -> Result<Name, SheetFault>
        ensures { NamedFresh (name_holds (entries self.now) line text.now) text.now result }
    {
        let name = Name::try_from(text).map_err(|_| SheetFault::Name(line))?;
        if self.stands(text) {
            return Err(SheetFault::Again(line));
        }
        Ok(name)
    }

    /// Adds a post.
    fn add_post(&mut self, text: &[u8], line: usize) -> Result<(), SheetFault>
        requires { vec_len self.old.posts < 8 }
        ensures { Judged (name_holds (entries self.old) line text.now) (with_post (entries self.old) text.now) (entries self.new) result }
    {
        let name = self.fresh_name(text, line)?;
        self.posts.push_reserved(Post { name });
        Ok(())
    }

    /// Adds a signal of the last post.
    fn add_signal(&mut self, text: &[u8], line: usize) -> Result<(), SheetFault>
        ensures { Judged (signal_holds (entries self.old) line text.now) (with_signal (entries self.old) text.now) (entries self.new) result }
    {
        let name = self.fresh_name(text, line)?;
        if self.signals.len() >= MOST_SIGNALS {
            return Err(SheetFault::Signals(line));
        }
        let owner = self.posts.len() as u8;
        self.signals.push_reserved(Signal { name, owner });
        Ok(())
    }

    /// Adds the signals of the last post, parted by single spaces.
    fn add_signals(&mut self, text: &[u8], line: usize) -> Result<(), SheetFault>
        ensures { Judged (signals_holds (entries self.old) line (pieces 32 text.now)) (with_signals (entries self.old) (pieces 32 text.now)) (entries self.new) result }
    {
        for name in text.split(|b| *b == b' ') {
            self.add_signal(name, line)?;
        }
        Ok(())
    }

    /// Adds the post and the signals of a line that is no rule line, behind a rule line or not.
    pub fn read_post(&mut self, text: &[u8], line: usize, ruled: bool) -> Result<(), SheetFault>
        ensures { Judged (post_holds (entries self.old) ruled line text.now) (after_post (entries self.old) text.now) (entries self.new) result }
    {
        if !are_line_bytes(text) {
            return Err(SheetFault::Byte(line));
        }
        let post = post_line(text).ok_or(SheetFault::Form(line))?;
        if ruled {
            return Err(SheetFault::Form(line));
        }
        if self.posts.len() >= MOST_POSTS {
            return Err(SheetFault::Posts(line));
        }
        self.add_post(post.name, line)?;
        self.add_signals(post.signals, line)
    }
}
