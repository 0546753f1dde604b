//! Worked journals: how many jobs they put and wait for.

ghost use Rattle.std.specs.Prelude.{◌≡◌};
ghost use Rattle.dri_meaning.specs.ExampleRuns.{covered_journal, dies_journal, one_triangle_journal};
ghost use Rattle.dri_meaning.specs.ExampleScenes.{covered, dies, one_triangle};
ghost use Rattle.dri_ring.specs.Counts.{ring_counts};

/// A frame of a clear, a triangle and a swap is three puts. Where two may wait the third finds the ring full, and where one may
/// the second does too. Of two changes of the windows between a clear and a swap the first waits for the clear, and a death
/// after both waits for both.
pub fn puts_and_idles()
    ensures full { ring_counts one_triangle 2 one_triangle_journal ≡ record { pending = 2; puts = 3; idles = 0; most = 2 } }
    ensures single { ring_counts one_triangle 1 one_triangle_journal ≡ record { pending = 1; puts = 3; idles = 0; most = 1 } }
    ensures roomy { ring_counts one_triangle 8 one_triangle_journal ≡ record { pending = 3; puts = 3; idles = 0; most = 3 } }
    ensures waited { ring_counts covered 8 covered_journal ≡ record { pending = 1; puts = 2; idles = 1; most = 1 } }
    ensures died { ring_counts dies 8 dies_journal ≡ record { pending = 0; puts = 2; idles = 1; most = 2 } }
{}
