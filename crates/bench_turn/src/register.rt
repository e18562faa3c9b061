//! What the workers share: a count of holds, and the marks with which they begin and end.
ghost use Rattle.std.specs.Prelude.{◌≡◌, ◌+◌, ◌<◌, ◌≤◌, [], ◌∷◌, ◌++◌, length, IfSome, IfNone};

use lb_turn::Standing;
use std::alloc::Global;

/// How many marks a register may have.
const MOST: usize = 1024;

/// What a worker notes.
#[derive(Clone, Copy)]
pub enum Mark {
    /// It begins.
    Begins,
    /// The worker that began at this place ends.
    Ends(u64),
}

/// A count of holds, and a history of marks.
#[derive(Drop)]
pub struct Register {
    counted: u64,
    marks: Vec<Mark>,
}

impl Standing for Register {
    ghost use Rattle.bench_turn.specs.Marks as marks;

    type Entry = Mark;

    ghost history = { λ r. r.marks.items };

    ghost root = { marks.root };

    ghost number = { λ r. 0 };

    ghost root_before = { marks.root_before };

    ghost root_stays = { marks.root_stays };
}

impl Register {
    /// A register with nothing in it.
    pub fn new(alloc: Global) -> Register
        ensures { result.marks.items ≡ [] }
    {
        Register {
            counted: 0,
            marks: Vec::new(alloc),
        }
    }

    /// How many holds were counted.
    pub fn counted(&self) -> u64 {
        self.counted
    }

    /// How many marks there are.
    pub fn len(&self) -> usize
        ensures { result ≡ length self.now.marks.items }
    {
        self.marks.len()
    }

    /// Counts one hold more, modulo 2^64.
    pub fn count(&mut self)
        ensures { self.new.marks.items ≡ self.old.marks.items }
    {
        self.counted = self.counted.wrapping_add(1);
    }

    /// Puts a mark at the end, and answers its place. `None` where the register is full or there is no memory.
    pub fn put(&mut self, mark: Mark) -> Option<u64>
        ensures some { IfSome result (λ place. (self.new.marks.items ≡ self.old.marks.items ++ mark ∷ []) × (place ≡ length self.old.marks.items) × (place < 1024)) }
        ensures none { IfNone result (self.new.marks.items ≡ self.old.marks.items) }
    {
        let place = self.marks.len();
        if place >= MOST {
            return None;
        }
        match self.marks.push(mark) {
            Ok(()) => Some(place as u64),
            Err(_) => None,
        }
    }
}
