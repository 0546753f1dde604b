//! A scene's journal, replayed entry by entry without a card: the windows, the texture regions, what each client keeps, and
//! what is counted. Its type keeps that the entries taken are a hold-run of the scene, and that all of this is what they
//! leave. No entry's legality depends on a pixel, a register or a byte of texture memory, so none is kept.
//!
//! A step looks the entry's client up, and works on what is kept now, so its cost doesn't grow with the entries taken.

ghost use Rattle.std.specs.Prelude.{◌≡◌, ◌≤◌, ◌<◌, ◌&&◌, [], length, IfErr, IfOk, OnOk, OnErr, Some, true, slice_get, Contains};
ghost use Rattle.dri_base.specs.Ranges.{InRange, client_numbers, window_numbers};
ghost use Rattle.dri_client.specs.Kept.{IsKept};
ghost use Rattle.dri_client.specs.Parts.{Agrees};
ghost use Rattle.dri_clips.specs.SceneBoards.{IsBoardOf};
ghost use Rattle.dri_core.specs.Decide.{is_legal_entry};
ghost use Rattle.dri_core.specs.Runs.{HoldRun, client_of};
ghost use Rattle.dri_base.specs.Scenes.{script_of};
ghost use Rattle.dri_base.specs.declared.journal.Entry.TheVariants as Entry_is;
ghost use Rattle.dri_core.specs.Phases.{is_done};
ghost use Rattle.dri_journal.specs.Acts.{is_quiet, ran_by};
ghost use Rattle.dri_journal.specs.Deeds.{Does};
ghost use Rattle.dri_journal.specs.Reasons.{Fails, conditions, first_unmet, told_reason};
ghost use Rattle.dri_journal.specs.Remains.{AreOpening};
ghost use Rattle.std.specs.List.{list_all};
ghost use Rattle.dri_journal.specs.Replays.{MayTake, Steps, Took, allows, world_of};
ghost use Rattle.dri_meaning.specs.Reports.{is_whole, tally};
ghost use Rattle.dri_meaning.specs.Scripts.{ScriptInRange};

use crate::acting::{act, use_regions};
use crate::deed::{Deed, deed_by, deed_told, whole_window, windows_of};
use crate::judging;
use crate::marks::Marks;
use crate::refusal::{Refusal, StepFault};
use crate::tally::Tally;
use crate::windows::{change_windows, unmap_windows};
use dri_base::{ClientScript, Command, Entry, OutOfMemory, Scene};
use dri_client::{ClientPart, place_of};
use dri_clips::Board;
use dri_texheap::{Regions, Run};
use std::alloc::Global;
use std::marker::{Brand, Model};
use std::sync::ledger::Blank;

/// A replay of a scene's journal. Contracts see the scene and the entries that were taken.
#[derive(Drop)]
pub struct Replay<'a> {
    scene: &'a Scene,
    entries: Vec<Entry>,
    board: Board,
    regions: Regions,
    parts: Vec<ClientPart>,
    tally: Tally,
    marks: Marks,
}

impl<'a> Model for Replay<'a> {
    ghost use Rattle.dri_journal.specs.Remains.{IsFaithful};
    ghost use Rattle.dri_journal.specs.Replays.{ReplayState};

    ghost Value = { ReplayState };

    ghost view = { λ r. record { scene = r.scene.now; entries = r.entries.items } };

    ghost invariant = { λ r. IsFaithful r.scene.now r.entries.items r.board r.regions r.parts.items r.tally r.marks };
}

impl<'a> Replay<'a> {
    /// The replay of a scene in range, with no entry taken.
    pub fn new(alloc: Global, scene: &'a Scene) -> Result<Replay<'a>, OutOfMemory>
        requires { InRange scene.now }
        ensures { IfOk result (λ r. r ≡ record { scene = scene.now; entries = [] }) }
    {
        let board = Board::new(alloc, scene)?;
        let parts = parts_of(alloc, scene.clients.as_slice(), scene.region_size)?;
        let tally = Tally::new(alloc, scene.clients.len())?;
        Ok(Replay {
            scene,
            entries: Vec::new(alloc),
            board,
            regions: Regions::new(scene.regions),
            parts,
            tally,
            marks: Marks::opening(),
        })
    }

    /// The entries that were taken, in order. They are a hold-run of the scene.
    pub fn entries(&self) -> &[Entry]
        ensures same { result.now ≡ self.now.entries }
        ensures in_range { InRange self.now.scene }
        ensures run { HoldRun self.now.scene self.now.entries }
    {
        self.entries.as_slice()
    }

    /// How many frames the entries ran that begin with a clear.
    pub fn frames(&self) -> usize
        ensures { result ≡ (tally self.now.scene self.now.entries).frames }
    {
        self.tally.frames
    }

    /// How many of these frames stood.
    pub fn stood(&self) -> usize
        ensures { result ≡ (tally self.now.scene self.now.entries).stood }
    {
        self.tally.stood
    }

    /// Whether nothing is left to do: nobody holds, each client has ended or is dead, and all changes were made.
    pub fn is_whole(&self) -> bool
        ensures { result ≡ is_whole self.now.scene self.now.entries }
    {
        let is_unheld = self.marks.is_unheld();
        let are_done = are_done(self.parts.as_slice());
        let all_made = self.marks.made as usize == self.scene.changes.len();
        let rest = are_both(are_done, all_made);
        are_both(is_unheld, rest)
    }

    /// The windows as the entries leave them: their stack, clips and stamps.
    pub fn board(&self) -> &Board
        ensures { IsBoardOf self.now.scene (world_of self.now).stack (world_of self.now).stamps (world_of self.now).counter result.now }
    {
        &self.board
    }

    /// The script of a client of the scene. The window that it draws on is on the stack that the entries leave.
    pub fn script(&self, client: u32) -> &ClientScript
        requires { Contains (client_numbers self.now.scene.clients) client }
        ensures same { result.now ≡ script_of self.now.scene client }
        ensures range { ScriptInRange result.now }
        ensures window { Contains (window_numbers (world_of self.now).stack) result.now.window }
    {
        let at = place_of(self.scene.clients.as_slice(), client).unwrap();
        self.scene.clients.get(at)
    }

    /// What a client of the scene keeps of the others after the entries. Its copies of its clips and its corner are no part
    /// of that.
    pub fn part(&self, client: u32) -> &ClientPart
        requires { Contains (client_numbers self.now.scene.clients) client }
        ensures agrees { Agrees result.now ((world_of self.now).client client) }
        ensures kept { IsKept (script_of self.now.scene client) self.now.scene.regions result.now }
    {
        let at = place_of(self.scene.clients.as_slice(), client).unwrap();
        &self.parts[at]
    }

    /// Whether an entry is legal after those that were taken. Where it isn't, the reason is that of the first of its
    /// conditions that isn't met.
    pub fn judge(&self, entry: &Entry) -> Result<(), Refusal>
        ensures legal { allows result ≡ is_legal_entry self.now.scene (world_of self.now) entry.now }
        ensures why { IfErr result (Fails self.now.scene (world_of self.now) entry.now) }
    {
        if let Entry::Change { place } = *entry {
            return judging::change(self.marks, self.scene.changes.len(), place);
        }
        match place_of(self.scene.clients.as_slice(), client_of(entry)) {
            Some(at) => self.judge_client(at, entry),
            None => Err(Refusal::NoSuchClient),
        }
    }

    // Whether an entry of the client of the script at a place is legal, and the reason where it isn't.
    fn judge_client(&self, at: usize, entry: &Entry) -> Result<(), Refusal>
        requires { slice_get self.now.scene.clients at ≡ Some (script_of self.now.scene (client_of entry.now)) }
        ensures { told_reason result ≡ first_unmet (conditions self.now.scene (world_of self.now) entry.now) }
    {
        let script = self.scene.clients.get(at);
        let part = &self.parts[at];
        match *entry {
            Entry::Light { client } => judging::light(part, self.marks, client),
            Entry::Kernel { client, found } => judging::kernel(part, self.marks, client, found),
            Entry::Stale { client: _ } => judging::stale(part),
            Entry::Leave { client: _ } => judging::leave(part),
            Entry::Info { client: _ } => judging::info(part, self.marks),
            Entry::Emit { client: _, groups } => judging::emit(part, script, groups),
            Entry::Run { client: _, place } => judging::run(part, script, place),
            Entry::Gone { client: _ } => {
                judging::gone(part, script, self.marks, self.scene.turns.as_slice())
            }
            Entry::Place {
                client: _,
                texture,
                first,
                count,
            } => judging::place(part, script, &self.regions, texture, Run { first, count }),
            Entry::Change { place } => {
                judging::change(self.marks, self.scene.changes.len(), place)
            }
        }
    }

    /// Takes an entry that is legal after those that were taken, and tells what it does to the planes. Another is refused,
    /// with a reason; then, and where memory is wanting, nothing is changed.
    pub fn step(&mut self, alloc: Global, entry: &Entry) -> Result<Deed, StepFault>
        ensures { Steps self.old self.new entry.now result }
    {
        if let Err(refusal) = self.judge(entry) {
            return Err(StepFault::Refused(refusal));
        }
        match self.take(alloc, entry) {
            Ok(deed) => Ok(deed),
            Err(OutOfMemory) => Err(StepFault::OutOfMemory),
        }
    }

    // Takes a legal entry.
    fn take(&mut self, alloc: Global, entry: &Entry) -> Result<Deed, OutOfMemory>
        requires { MayTake self.old entry.now }
        ensures took { OnOk result (Took self.old self.new entry.now) }
        ensures deed { IfOk result (Does self.old.scene (world_of self.old) entry.now) }
        ensures err { OnErr result (self.new ≡ self.old) }
    {
        match *entry {
            Entry::Change { place } => self.change(alloc, place),
            Entry::Gone { client } => self.gone(alloc, client),
            _ => self.act(entry),
        }
    }

    // Takes an entry of a client that leaves the windows.
    fn act(&mut self, entry: &Entry) -> Result<Deed, OutOfMemory>
        requires legal { MayTake self.old entry.now }
        requires quiet { is_quiet entry.now ≡ true }
        ensures took { OnOk result (Took self.old self.new entry.now) }
        ensures deed { IfOk result (Does self.old.scene (world_of self.old) entry.now) }
        ensures err { OnErr result (self.new ≡ self.old) }
    {
        self.entries.reserve(1)?;
        let scene = self.scene;
        let client = client_of(entry);
        let at = place_of(scene.clients.as_slice(), client).unwrap();
        let script = scene.clients.get(at);
        let stamp = self.board.stamp(script.window);
        let is_new_owner = self.marks.owner != client + 1;
        let part = &mut self.parts[at];
        let command = part.next_command(script);
        use_regions(&mut self.regions, script, part, entry);
        act(part, script, entry, &self.regions, stamp, is_new_owner);
        let ran = ran_by(entry, command);
        self.tally.ran(at, ran);
        self.marks = self.marks.after(entry);
        self.entries.push_reserved(*entry);
        Ok(deed_by(ran))
    }

    // Takes the next change of the windows.
    fn change(&mut self, alloc: Global, place: u32) -> Result<Deed, OutOfMemory>
        requires { MayTake self.old (Entry_is.Change place) }
        ensures took { OnOk result (Took self.old self.new (Entry_is.Change place)) }
        ensures deed { IfOk result (Does self.old.scene (world_of self.old) (Entry_is.Change place)) }
        ensures err { OnErr result (self.new ≡ self.old) }
    {
        self.entries.reserve(1)?;
        let scene = self.scene;
        let change = scene.changes.get(self.marks.made as usize);
        let told = change_windows::<Brand>(Blank::new(1), alloc, &mut self.board, change)?;
        self.tally.cut(
            scene.clients.as_slice(),
            windows_of(&told),
            whole_window(change, &told),
        );
        self.marks = self.marks.after(&Entry::Change { place });
        self.entries.push_reserved(Entry::Change { place });
        Ok(deed_told(told))
    }

    // Takes the death of a client.
    fn gone(&mut self, alloc: Global, client: u32) -> Result<Deed, OutOfMemory>
        requires { MayTake self.old (Entry_is.Gone client) }
        ensures took { OnOk result (Took self.old self.new (Entry_is.Gone client)) }
        ensures deed { IfOk result (Does self.old.scene (world_of self.old) (Entry_is.Gone client)) }
        ensures err { OnErr result (self.new ≡ self.old) }
    {
        self.entries.reserve(1)?;
        let scene = self.scene;
        let at = place_of(scene.clients.as_slice(), client).unwrap();
        let touched = unmap_windows::<Brand>(Blank::new(1), alloc, &mut self.board, client)?;
        self.parts[at].gone();
        self.tally
            .cut(scene.clients.as_slice(), touched.windows.as_slice(), None);
        self.marks = self.marks.after(&Entry::Gone { client });
        self.entries.push_reserved(Entry::Gone { client });
        Ok(Deed::Touched(touched))
    }
}

// A part for each script, in the scripts' order, each as the run begins. `region_size` counts the bytes of a region.
fn parts_of(
    alloc: Global,
    scripts: &[ClientScript],
    region_size: u32,
) -> Result<Vec<ClientPart>, OutOfMemory>
    requires { region_size ≤ 65536 }
    ensures { IfOk result (λ parts. AreOpening region_size scripts.now parts.items) }
{
    let mut parts = Vec::with_capacity(alloc, scripts.len())?;
    for script in scripts {
        parts.push(ClientPart::new(alloc, script, region_size)?)?;
    }
    Ok(parts)
}

// Whether each client has ended or is dead.
fn are_done(parts: &[ClientPart]) -> bool
    ensures { result ≡ list_all (λ p. is_done p.phase) parts.now }
{
    for part in parts {
        if !judging::is_done(part) {
            return false;
        }
    }
    true
}

// Whether both are so.
fn are_both(first: bool, second: bool) -> bool
    ensures { result ≡ (first && second) }
{
    first && second
}

/// Whose entry it is; the server is 0.
pub fn client_of(entry: &Entry) -> u32
    ensures { result ≡ client_of entry.now }
{
    match *entry {
        Entry::Light { client } => client,
        Entry::Kernel { client, found: _ } => client,
        Entry::Stale { client } => client,
        Entry::Emit { client, groups: _ } => client,
        Entry::Place {
            client,
            texture: _,
            first: _,
            count: _,
        } => client,
        Entry::Run { client, place: _ } => client,
        Entry::Leave { client } => client,
        Entry::Info { client } => client,
        Entry::Change { place: _ } => 0,
        Entry::Gone { client } => client,
    }
}

// The command that an entry runs, where its client's next one is this.
fn ran_by(entry: &Entry, command: Option<Command>) -> Option<Command>
    ensures { result ≡ ran_by entry.now command }
{
    match *entry {
        Entry::Run {
            client: _,
            place: _,
        } => command,
        _ => None,
    }
}
