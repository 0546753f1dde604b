//! A client's part. What it is doing and what it keeps changes by its own entries alone: each call that takes `&mut self`
//! is the step of one of them. The client's script isn't kept; who calls hands it in.

ghost use Rattle.std.specs.Prelude.{◌≡◌, ◌<◌, ◌≤◌, ℕ, IfOk};
ghost use Rattle.dri_core.specs.Privates.{opening_part};
ghost use Rattle.dri_client.specs.Activities.{phase_in};
ghost use Rattle.dri_client.specs.Kept.{IsKept};
ghost use Rattle.dri_client.specs.Parts.{Agrees, next_command};

mod prepare;
mod run;
mod take;
mod textures;

use crate::activity::Activity;
use dri_base::{ClientScript, Command, OutOfMemory, State};
use dri_context::{ContextState, Groups};
use dri_texheap::Placed;
use std::alloc::Global;
use std::marker::Model;

/// How many textures a client can have: their numbers are 1 to 64.
const TEXTURES: u32 = 64;

/// What a client keeps, but for its copies of its window's clips and origin.
#[derive(Drop)]
pub struct ClientPart {
    activity: Activity,
    place: u32,
    stamp: u32,
    context: ContextState,
    placed: Placed,
    local: u32,
}

impl Model for ClientPart {
    ghost use Rattle.dri_client.specs.Parts.{PartState};

    ghost Value = { PartState };

    ghost use Rattle.dri_client.specs.Kept.{state_of, IsPart};

    ghost view = { state_of };

    ghost invariant = { λ p. IsPart (state_of p) };
}

impl ClientPart {
    /// The part of a script's client as the run begins: with its first command next, the state that every script begins
    /// with, all of it dirty, no texture placed and no region shared. `region_size` counts the bytes of a region, at most 65,536.
    pub fn new(
        alloc: Global,
        script: &ClientScript,
        region_size: u32,
    ) -> Result<ClientPart, OutOfMemory>
        requires size { region_size ≤ 65536 }
        ensures size { IfOk result (λ p. p.placed.region_size ≡ region_size) }
        ensures part { IfOk result (λ p. Agrees p (opening_part script.now.commands)) }
        ensures kept { IfOk result (λ p. (regions : ℕ) → IsKept script.now regions p) }
    {
        let placed = Placed::new(alloc, TEXTURES, region_size)?;
        Ok(ClientPart {
            activity: Activity::first(script.commands.as_slice()),
            place: 1,
            stamp: 0,
            context: ContextState::new(),
            placed,
            local: 0,
        })
    }

    /// What it is doing.
    pub fn activity(&self) -> Activity
        ensures { phase_in result ≡ self.now.phase }
    {
        self.activity
    }

    /// The place of its next command in its script, counted from 1.
    pub fn place(&self) -> u32
        ensures place { result ≡ self.now.place }
        ensures started { 0 < self.now.place }
    {
        self.place
    }

    /// The stamp of its window, as it was told.
    pub fn stamp(&self) -> u32
        ensures { result ≡ self.now.stamp }
    {
        self.stamp
    }

    /// Its drawing state.
    pub fn state(&self) -> State
        ensures { result ≡ self.now.state }
    {
        self.context.state()
    }

    /// The groups of its state that the card may not have.
    pub fn dirty(&self) -> Groups
        ensures { result ≡ self.now.dirty }
    {
        self.context.dirty()
    }

    /// The next command of its script, where one is left.
    pub fn next_command(&self, script: &ClientScript) -> Option<Command>
        ensures { result ≡ next_command script.now self.now }
    {
        script
            .commands
            .as_slice()
            .get(self.place as usize - 1)
            .copied()
    }
}
