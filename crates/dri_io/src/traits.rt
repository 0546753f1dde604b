ghost use Rattle.std.specs.Prelude.{ℕ, ◌<◌, ◌≤◌, List, length, IfOk};
ghost use Rattle.std.specs.declared.option.Option.{Option};
ghost use Rattle.std.specs.Io.{ReadsAtMost, WritesAtMost};
ghost use Rattle.std.specs.Io.KnownBytes.{ReadConsumes, WriteAppends};
ghost use Rattle.dri_io.specs.Causes.{GivesOn, HasCause, TakesOn};

/// A read or a write that failed.
#[derive(Clone, Copy)]
pub struct Failed;

/// A source of bytes. It may tell what is left of it, and it counts its failed reads.
pub trait Source {
    /// What is left, where the source tells it.
    ghost left: { Self → Option (List ℕ) };

    /// How many reads have failed, up to the last value of a counter.
    ghost faults: { Self → ℕ };

    /// It gives all that is left without a fault, where that is known.
    ghost gives_all: { Self → Type 0 };

    /// Gives the first bytes of what is left, at most as many as there is room for, and none exactly where nothing is
    /// left. It fails only where the count of faults rose; what is left then stays.
    fn read(&mut self, into: &mut [u8]) -> Result<usize, Failed>
        requires { 0 < length into.old }
        ensures bound { ReadsAtMost result into.new }
        ensures bytes { ReadConsumes (left self.old) (left self.new) result into.new }
        ensures cause { HasCause (faults self.old) (faults self.new) result }
        ensures sure { gives_all self.old → GivesOn (gives_all self.new) (faults self.old) (faults self.new) result };
}

/// A sink of bytes. It may tell what it holds, and it counts its failed writes.
pub trait Sink {
    /// What it holds, where the sink tells it.
    ghost held: { Self → Option (List ℕ) };

    /// How many writes have failed, up to the last value of a counter.
    ghost faults: { Self → ℕ };

    /// It takes so many bytes more without a fault, where that is known.
    ghost takes: { Self → ℕ → Type 0 };

    /// Appends the first bytes of a piece, at least one. It fails only where the count of faults rose; nothing was
    /// appended then.
    fn write(&mut self, bytes: &[u8]) -> Result<usize, Failed>
        requires { 0 < length bytes.now }
        ensures bound { WritesAtMost result bytes.now }
        ensures some { IfOk result (λ n. 0 < n) }
        ensures bytes { WriteAppends (held self.old) (held self.new) result bytes.now }
        ensures cause { HasCause (faults self.old) (faults self.new) result }
        ensures room { (n : ℕ) → length bytes.now ≤ n → takes self.old n
            → TakesOn (takes self.new) n (faults self.old) (faults self.new) result };
}
