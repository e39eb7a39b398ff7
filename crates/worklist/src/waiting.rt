ghost use Rattle.std.specs.Prelude.{◌≡◌, ℕ, ◌+◌, ◌^◌, ◌<◌, ◌≤◌};
ghost use Rattle.worklist.specs.Pending.{Pending, Popped};

// How many checks may wait.
const MOST: usize = 512;

// Checks that are to be looked at again, the last one first.
#[derive(Drop)]
pub struct Stack {
    pub checks: [u32; MOST],
    pub top: usize,
}

impl Stack {
    // With no check.
    pub fn new() -> Stack
        ensures { result.top ≡ 0 }
    {
        Stack {
            checks: [0; MOST],
            top: 0,
        }
    }

    // Puts a check on, if there is room.
    pub fn push(&mut self, c: usize)
        requires { (self.old.top ≤ 512) × (c < 2 ^ 32) }
        ensures pending { (n : ℕ) → Pending n self.old → c < n → Pending n self.new }
        ensures few { self.new.top ≤ self.old.top + 1 }
    {
        if self.top < MOST {
            self.checks[self.top] = c as u32;
            self.top += 1;
        }
    }

    // Takes the last check off.
    pub fn pop(&mut self) -> Option<usize>
        requires { self.old.top ≤ 512 }
        ensures { Popped self.old result self.new }
    {
        if self.top == 0 {
            return None;
        }
        self.top -= 1;
        Some(self.checks[self.top] as usize)
    }
}
