//! A level: the runs of one number of events, but for those that leave what another leaves.

ghost use Rattle.std.specs.Prelude.{◌≡◌, ◌+◌, ◌<◌, ◌^◌, All, IfOk, length};
ghost use Rattle.std.specs.Arc.{arc_value};
ghost use Rattle.std.specs.Bool.{Decides};
ghost use Rattle.dri_base.specs.Ranges.{InRange};
ghost use Rattle.dri_explore.specs.Levels.{Follows, HasKey, IsLevel, IsNextLevel, IsPart, Keeps, KeepsNext};
ghost use Rattle.dri_explore.specs.Nodes.{IsNode};
ghost use Rattle.dri_explore.specs.Runs.{choices, run_by};
ghost use Rattle.dri_world.specs.Courses.{MayTake};

use crate::node::Node;
use dri_base::{Items, OutOfMemory, Scene, Sequence};
use dri_world::World;
use std::alloc::Global;
use std::sync::Arc;

/// How many events its runs have, and their nodes.
#[derive(Drop)]
pub(crate) struct Level {
    pub(crate) made: u32,
    pub(crate) nodes: Sequence<Node>,
}

impl Level {
    /// The level of the run with no events.
    pub(crate) fn opening(alloc: Global, scene: &Arc<Scene, Global>) -> Result<Level, OutOfMemory>
        requires { InRange (arc_value scene.now) }
        ensures level { IfOk result (IsLevel (arc_value scene.now)) }
        ensures made { IfOk result (λ level. level.made ≡ 0) }
    {
        let world = World::new(alloc, scene.clone()?)?;
        let node = Node::new(alloc, scene, &world, Items::new(alloc))?;
        let mut nodes = Sequence::new(alloc);
        nodes.push(node)?;
        Ok(Level { made: 0, nodes })
    }

    /// The level of the runs with one event more; none where it would have more nodes than the limit.
    pub(crate) fn next(
        &self,
        alloc: Global,
        scene: &Arc<Scene, Global>,
        items: &Items,
        limit: usize,
    ) -> Result<Option<Level>, OutOfMemory>
        requires in_range { InRange (arc_value scene.now) }
        requires items { items.now ≡ choices (arc_value scene.now) }
        requires level { IsLevel (arc_value scene.now) self.now }
        requires small { self.now.made + 1 < 2 ^ 32 }
        ensures { IfOk result (IsNextLevel (arc_value scene.now) self.now.made limit) }
    {
        let mut next = Level {
            made: self.made + 1,
            nodes: Sequence::new(alloc),
        };
        for i in 0..self.nodes.len() {
            if !next.follow(alloc, scene, self.nodes.get(i), items, limit)? {
                return Ok(None);
            }
        }
        Ok(Some(next))
    }

    // Puts the runs last that go on from a node by one event, and tells whether there was room for them.
    fn follow(
        &mut self,
        alloc: Global,
        scene: &Arc<Scene, Global>,
        node: &Node,
        items: &Items,
        limit: usize,
    ) -> Result<bool, OutOfMemory>
        requires in_range { InRange (arc_value scene.now) }
        requires may { All (MayTake (arc_value scene.now)) items.now }
        requires node { IsNode (arc_value scene.now) node.now }
        requires one_more { length (run_by (arc_value scene.now) node.now.items) + 1 ≡ self.old.made }
        requires part { IsPart (arc_value scene.now) self.old.made self.old.nodes }
        ensures { IfOk result (λ b. Follows b (arc_value scene.now) node.now items.now limit self.old self.new) }
    {
        for i in 0..items.len() {
            let next = node.after(alloc, scene, *items.get(i))?;
            if !self.put(next, limit)? {
                return Ok(false);
            }
        }
        Ok(true)
    }

    // Puts what comes next last, where something does, and tells whether there was room for it.
    fn put(&mut self, next: Option<Node>, limit: usize) -> Result<bool, OutOfMemory>
        ensures { IfOk result (λ b. KeepsNext b self.old self.new next limit) }
    {
        match next {
            Some(node) => self.add(node, limit),
            None => Ok(true),
        }
    }

    // Puts a node last, where none that is there tells the same, and tells whether there was room for it.
    fn add(&mut self, node: Node, limit: usize) -> Result<bool, OutOfMemory>
        ensures made { self.new.made ≡ self.old.made }
        ensures kept { IfOk result (λ b. Keeps b self.old.nodes self.new.nodes node limit) }
    {
        if self.has(&node) {
            return Ok(true);
        }
        if self.nodes.len() >= limit {
            return Ok(false);
        }
        self.nodes.push(node)?;
        Ok(true)
    }

    // Whether a node is there that tells the same.
    fn has(&self, node: &Node) -> bool
        ensures { Decides result (HasKey self.now.nodes node.now) }
    {
        for i in 0..self.nodes.len() {
            if self.nodes.get(i).is_same(node) {
                return true;
            }
        }
        false
    }
}
