//! What a token shows at run time: its context, and the word that a look found.
ghost use Rattle.std.specs.Prelude.{◌≡◌};
ghost use Rattle.dri_hwlock.specs.Tokens.{pass_token, late_token, late_word, hold_token, found_word, parting_token};

use crate::guarded::Guarded;
use crate::tokens::{Hold, Late, Parting, Pass};

impl<G: Guarded> Pass<G> {
    /// The context that it tries for, 1 to the number of passes.
    pub fn context(&self) -> u32
        ensures { result ≡ (pass_token self.now).context }
    {
        self.context
    }
}

impl<G: Guarded> Late<G> {
    /// The context of its pass.
    pub fn context(&self) -> u32
        ensures { result ≡ (late_token self.now).context }
    {
        self.context
    }

    /// The word that its light exchange found in place of its context.
    pub fn found(&self) -> u32
        ensures { result ≡ late_word self.now }
    {
        self.found
    }
}

impl<G: Guarded> Hold<G> {
    /// The context of its pass.
    pub fn context(&self) -> u32
        ensures { result ≡ (hold_token self.now).context }
    {
        self.grip.context
    }

    /// The free word that it found: a context, or 0.
    pub fn found(&self) -> u32
        ensures { result ≡ found_word self.now }
    {
        self.grip.found
    }
}

impl<G: Guarded> Parting<G> {
    /// The context of its pass.
    pub fn context(&self) -> u32
        ensures { result ≡ (parting_token self.now).context }
    {
        self.context
    }

    /// The word of its last look.
    pub fn word(&self) -> u32
        ensures { result ≡ (parting_token self.now).last_word }
    {
        self.word
    }
}
