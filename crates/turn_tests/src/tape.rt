//! What the threads of the tests share: a list of entries, each of a session that opened before.
ghost use Rattle.std.specs.Prelude.{◌≡◌, ◌<◌, [], ◌∷◌, ◌++◌, length, IfSome, IfNone};

use lb_turn::Standing;

/// How many entries a tape may have.
pub const MOST: usize = 8192;

/// One step of a session.
#[derive(Clone, Copy)]
pub enum Entry {
    /// The session of this number opens.
    Opens(u64),
    /// The session that opened at this place adds its entry of this number.
    Adds { opener: u64, number: u64 },
}

/// A list of entries, the oldest first.
#[derive(Drop)]
pub struct Tape {
    pub entries: Vec<Entry>,
}

impl Standing for Tape {
    ghost use Rattle.turn_tests.specs.Tape as tape;

    type Entry = Entry;

    ghost history = { λ t. t.entries.items };

    ghost root = { tape.root };

    ghost number = { λ t. 0 };

    ghost root_before = { tape.root_before };

    ghost root_stays = { tape.root_stays };
}

impl Tape {
    /// Puts an entry at the end, and answers its place. `None` where the tape is full or memory has run out; the tape is
    /// as before then.
    pub fn put(&mut self, entry: Entry) -> Option<u64>
        ensures some { IfSome result (λ place. (self.new.entries.items ≡ self.old.entries.items ++ entry ∷ []) × (place ≡ length self.old.entries.items) × (place < 8192)) }
        ensures none { IfNone result (self.new.entries.items ≡ self.old.entries.items) }
    {
        let place = self.entries.len();
        if place >= MOST {
            return None;
        }
        match self.entries.push(entry) {
            Ok(()) => Some(place as u64),
            Err(_) => None,
        }
    }
}
