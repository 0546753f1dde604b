//! A node stands for a run: it keeps the items that make it, and what tells it from others. The journal tells the whole world
//! that the run leaves; the lock word, the queue and who is dying tell the rest of its core.

ghost use Rattle.std.specs.Prelude.{◌≡◌, ◌++◌, ◌∷◌, [], All, IfOk, map};
ghost use Rattle.std.specs.Arc.{arc_value};
ghost use Rattle.std.specs.Bool.{Decides};
ghost use Rattle.dri_base.specs.Ranges.{InRange, client_numbers};
ghost use Rattle.dri_base.specs.declared.command.Item.{Item};
ghost use Rattle.dri_explore.specs.Nodes.{IsAfter, IsNode, IsSameKey};
ghost use Rattle.dri_explore.specs.Runs.{core_by, course_of, run_by};
ghost use Rattle.dri_world.specs.Courses.{MayTake, core_of};

use crate::playing::replayed;
use crate::same::{are_entries, are_flags, are_numbers};
use dri_base::{Entries, Item, Items, Numbers, OutOfMemory, Scene, Sequence};
use dri_world::{Turned, World};
use std::alloc::Global;
use std::sync::Arc;

/// A run: the items that make it, its journal, the lock word as a number, the queue, and for each client, as they stand,
/// whether it is dying.
#[derive(Drop)]
pub(crate) struct Node {
    pub(crate) items: Items,
    pub(crate) journal: Entries,
    pub(crate) word: u32,
    pub(crate) queue: Numbers,
    pub(crate) dying: Sequence<bool>,
}

impl Node {
    /// The node of the run that these items make, with the world that they leave.
    pub(crate) fn new(
        alloc: Global,
        scene: &Scene,
        world: &World,
        items: Items,
    ) -> Result<Node, OutOfMemory>
        requires world { world.now ≡ course_of scene.now items }
        requires may { All (MayTake scene.now) items }
        ensures node { IfOk result (IsNode scene.now) }
        ensures items { IfOk result (λ node. node.items ≡ items) }
    {
        Ok(Node {
            items,
            journal: Entries::from_vec(Vec::from_slice(alloc, world.journal())?),
            word: world.word(),
            queue: Numbers::from_vec(Vec::from_slice(alloc, world.queue())?),
            dying: dying_in(alloc, scene, world)?,
        })
    }

    /// The node of the run with one item more; none where the item is passed over.
    pub(crate) fn after(
        &self,
        alloc: Global,
        scene: &Arc<Scene, Global>,
        item: Item,
    ) -> Result<Option<Node>, OutOfMemory>
        requires in_range { InRange (arc_value scene.now) }
        requires may { MayTake (arc_value scene.now) item }
        requires node { IsNode (arc_value scene.now) self.now }
        ensures { IfOk result (IsAfter (arc_value scene.now) self.now item) }
    {
        let mut world = replayed(alloc, scene, &self.items)?;
        match world.take(alloc, item)? {
            Turned::Did(_) => {
                let items = with(alloc, &self.items, item)?;
                let node = Node::new(alloc, scene, &world, items)?;
                Ok(Some(node))
            }
            Turned::Passed => Ok(None),
        }
    }

    /// Whether two nodes tell the same beside their items.
    pub(crate) fn is_same(&self, other: &Node) -> bool
        ensures { Decides result (IsSameKey self.now other.now) }
    {
        if self.word != other.word {
            return false;
        }
        if !are_numbers(self.queue.as_slice(), other.queue.as_slice()) {
            return false;
        }
        if !are_flags(self.dying.as_slice(), other.dying.as_slice()) {
            return false;
        }
        are_entries(self.journal.as_slice(), other.journal.as_slice())
    }
}

/// For each client, as they stand, whether it is dying.
fn dying_in(alloc: Global, scene: &Scene, world: &World) -> Result<Sequence<bool>, OutOfMemory>
    requires { scene.now ≡ world.now.scene }
    ensures { IfOk result (λ dying. dying ≡ map (core_of world.now).dying (client_numbers scene.now.clients)) }
{
    let mut dying = Sequence::new(alloc);
    for i in 0..scene.clients.len() {
        dying.push(world.is_dying(scene.clients.get(i).number))?;
    }
    Ok(dying)
}

/// The items with one more at the end.
fn with(alloc: Global, items: &Items, item: Item) -> Result<Items, OutOfMemory>
    ensures { IfOk result (λ more. more ≡ items.now ++ item ∷ []) }
{
    let mut more = Items::from_vec(Vec::from_slice(alloc, items.as_slice())?);
    more.push(item)?;
    Ok(more)
}
