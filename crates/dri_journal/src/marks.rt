//! What of a world is one number each.

ghost use Rattle.std.specs.Prelude.{◌≡◌, ◌≤◌, Some, None, is_none};
ghost use Rattle.dri_base.specs.declared.scene.Scene.{Scene};
ghost use Rattle.dri_core.specs.EntryTable.{after_entry};
ghost use Rattle.dri_core.specs.Runs.{client_of};
ghost use Rattle.dri_core.specs.Worlds.{World, opening};
ghost use Rattle.dri_journal.specs.Remains.{AreMarksOf};

use dri_base::Entry;

/// Who holds, the context that the last hold left, the context that took the card over last, and how many changes were
/// made.
#[derive(Clone, Copy)]
pub struct Marks {
    pub holder: Option<u32>,
    pub left: u32,
    pub owner: u32,
    pub made: u32,
}

impl Marks {
    /// Those of the opening.
    pub fn opening() -> Marks
        ensures { (s : Scene) → AreMarksOf (opening s) result }
    {
        Marks {
            holder: None,
            left: 1,
            owner: 0,
            made: 0,
        }
    }

    /// Whether nobody holds.
    pub fn is_unheld(self) -> bool
        ensures { result ≡ is_none self.holder }
    {
        match self.holder {
            Some(_) => false,
            None => true,
        }
    }

    /// A client holds now.
    fn held_by(self, client: u32) -> Marks
        ensures { result ≡ record self { holder = Some client } }
    {
        Marks {
            holder: Some(client),
            ..self
        }
    }

    /// Nobody holds now, and the last hold left this context.
    fn free(self, left: u32) -> Marks
        ensures { result ≡ record self { holder = None; left = left } }
    {
        Marks {
            holder: None,
            left,
            ..self
        }
    }

    /// Those after an entry.
    pub fn after(self, entry: &Entry) -> Marks
        requires client { client_of entry.now ≤ 32 }
        requires made { self.made ≤ 4096 }
        ensures { (s : Scene) (w : World) → AreMarksOf w self → AreMarksOf (after_entry s w entry.now) result }
    {
        match *entry {
            Entry::Light { client } => self.held_by(client),
            Entry::Kernel { client, found: _ } => Marks {
                owner: client + 1,
                ..self.held_by(client)
            },
            Entry::Leave { client } => self.free(client + 1),
            Entry::Gone { client: _ } => self.free(0),
            Entry::Info { client: _ } => Marks { left: 1, ..self },
            Entry::Change { place: _ } => Marks {
                left: 1,
                made: self.made + 1,
                ..self
            },
            Entry::Stale { client: _ } => self,
            Entry::Emit {
                client: _,
                groups: _,
            } => self,
            Entry::Place {
                client: _,
                texture: _,
                first: _,
                count: _,
            } => self,
            Entry::Run {
                client: _,
                place: _,
            } => self,
        }
    }
}
