//! Groups of clients that share one place in the rounds: one of them is current, until it leaves a hold in which it ran a
//! command or is gone. Rounds of groups are played until a whole round is passed over.

ghost use Rattle.std.specs.Prelude.{◌≡◌, ◌↔◌, [], ◌++◌, ◌∷◌, All, AllPairs, Contains, IfOk, IfSome, OnOk, map, not};
ghost use Rattle.std.specs.Arc.{arc_value};
ghost use Rattle.dri_base.specs.Ranges.{InRange, client_numbers};
ghost use Rattle.dri_core.specs.CoreRuns.{IsRun, world_of};
ghost use Rattle.dri_core.specs.Cores.{journal_of};
ghost use Rattle.dri_core.specs.Runs.{Whole};
ghost use Rattle.dri_many.specs.Groupings.{AreGroupings, IsGrouping};
ghost use Rattle.dri_world.specs.Courses.{IsSound};
ghost use Rattle.dri_world.specs.Currents.{is_member, is_over, standing};
ghost use Rattle.dri_world.specs.GroupRuns.{IsGrouped, PartiesOn, Party, current_after, in_groups, parties, ungrouped};
ghost use Rattle.dri_world.specs.Seats.{AreSeated, IsCurrentSeat, IsSmall, Seated};
ghost use Rattle.dri_world.specs.Segments.{IsSegmented};

use crate::rounds::is_move;
use crate::seat::{Seat, current_at, next_place, places};
use crate::turned::Turned;
use crate::world::World;
use dri_base::{OutOfMemory, Scene};
use dri_client::place_of;
use dri_driver::Phase;
use dri_many::{Grouping, Groupings};
use std::alloc::Global;
use std::sync::Arc;

/// The world that rounds of groups leave, from the opening of a scene without turns, once all clients have ended or are
/// dead and all changes were made. In a round each group takes one turn, by its current member, in the order of the
/// groups; then each client in no group does, rising; then the server. A group's members are current in the order of its
/// currents, and behind the last of these in the order of its members, round after round. A member that is made current
/// stays so until it leaves a hold in which it ran a command, or is gone; who has ended or is dead is passed over at once.
/// So in the journal the entries of a group's members are whole segments in that order.
pub fn run_groups(
    alloc: Global,
    scene: Arc<Scene, Global>,
    groups: &Groupings,
) -> Result<World, OutOfMemory>
    requires in_range { InRange (arc_value scene) }
    requires plain { (arc_value scene).turns ≡ [] }
    requires accepted { AreGroupings (arc_value scene) groups.now }
    ensures scene { IfOk result (λ w. w.scene ≡ arc_value scene) }
    ensures run { IfOk result (λ w. IsRun w.scene w.events) }
    ensures rounds { IfOk result (λ w. IsGrouped w.scene groups.now w.events) }
    ensures whole { IfOk result (λ w. Whole w.scene (journal_of w.events)) }
    ensures segments { IfOk result (λ w. All (λ g. IsSegmented w.scene g (journal_of w.events)) groups.now) }
{
    let mut world = World::new(alloc, scene)?;
    let mut seats = vec![in alloc; Seat {
        place: 0,
        ran: false
    }; groups.len()]?;
    let mut moves = true;
    while moves {
        moves = world.group_round(alloc, groups, &mut seats)?;
    }
    Ok(world)
}

impl World {
    // Plays one round of groups, and tells whether a turn of it made an event.
    fn group_round(
        &mut self,
        alloc: Global,
        groups: &Groupings,
        seats: &mut Vec<Seat>,
    ) -> Result<bool, OutOfMemory>
        requires sound { IsSound self.old }
        requires accepted { AreGroupings self.old.scene groups.now }
        requires seated { AreSeated self.old.scene groups.now self.old.events seats.old.items }
        ensures played { IfOk result (λ b. PartiesOn self.old self.new (parties self.old.scene groups.now) b) }
        ensures seated { OnOk result (AreSeated self.new.scene groups.now self.new.events seats.new.items) }
    {
        let grouped = self.group_turns(alloc, groups, seats)?;
        let alone = self.lone_turns(alloc, groups)?;
        let turned = self.server_turn(alloc)?;
        Ok(grouped | alone | is_move(&turned))
    }

    // A turn of each group, in their order.
    fn group_turns(
        &mut self,
        alloc: Global,
        groups: &Groupings,
        seats: &mut Vec<Seat>,
    ) -> Result<bool, OutOfMemory>
        requires sound { IsSound self.old }
        requires accepted { AreGroupings self.old.scene groups.now }
        requires seated { AreSeated self.old.scene groups.now self.old.events seats.old.items }
        ensures played { IfOk result (λ b. PartiesOn self.old self.new (map Party.Group groups.now) b) }
        ensures seated { OnOk result (AreSeated self.new.scene groups.now self.new.events seats.new.items) }
    {
        let mut moves = false;
        for i in 0..groups.len() {
            let mut seat = seats[i];
            moves |= self.group_turn(alloc, groups.get(i), &mut seat)?;
            seats[i] = seat;
        }
        Ok(moves)
    }

    // A turn of each client in no group, rising.
    fn lone_turns(&mut self, alloc: Global, groups: &Groupings) -> Result<bool, OutOfMemory>
        requires sound { IsSound self.old }
        ensures played { IfOk result (λ b. PartiesOn self.old self.new (map Party.Alone (ungrouped groups.now (client_numbers self.old.scene.clients))) b) }
    {
        let mut moves = false;
        for i in 0..self.scene.clients.len() {
            let number = self.scene.clients.get(i).number;
            if !in_groups(groups, number) {
                let turned = self.turn(alloc, number)?;
                moves |= is_move(&turned);
            }
        }
        Ok(moves)
    }

    // The turn of a group, by its current member.
    fn group_turn(
        &mut self,
        alloc: Global,
        grouping: &Grouping,
        seat: &mut Seat,
    ) -> Result<bool, OutOfMemory>
        requires sound { IsSound self.old }
        requires grouping { IsGrouping self.old.scene grouping.now }
        requires small { IsSmall grouping.now }
        requires seated { Seated self.old.scene grouping.now self.old.events seat.old }
        ensures played { IfOk result (λ b. PartiesOn self.old self.new (Party.Group grouping.now ∷ []) b) }
        ensures seated { OnOk result (Seated self.new.scene grouping.now self.new.events seat.new) }
    {
        let Some(member) = self.current(grouping, seat) else {
            return Ok(false);
        };
        match self.turn(alloc, member)? {
            Turned::Did(event) => {
                seat.go_on(grouping, event);
                Ok(true)
            }
            Turned::Passed => Ok(false),
        }
    }

    // The current member of a group, if there is one, after those who have ended or are dead were passed over.
    fn current(&self, grouping: &Grouping, seat: &mut Seat) -> Option<u32>
        requires grouping { IsGrouping self.now.scene grouping.now }
        requires small { IsSmall grouping.now }
        requires seated { Seated self.now.scene grouping.now self.now.events seat.old }
        ensures member { result ≡ current_after self.now.scene grouping.now self.now.events }
        ensures seated { Seated self.now.scene grouping.now self.now.events seat.new }
        ensures settled { IfSome result (λ c. IsCurrentSeat grouping.now (world_of self.now.scene self.now.events) (standing self.now.scene grouping.now (journal_of self.now.events)) seat.new) }
    {
        let reach = places(grouping) - seat.place + grouping.members.len();
        for passed in 0..reach {
            let member = current_at(grouping, seat.place);
            if !self.is_over(member) {
                return Some(member);
            }
            seat.place = next_place(grouping, seat.place);
        }
        None
    }

    // Whether a client has ended or is dead.
    fn is_over(&self, client: u32) -> bool
        requires { Contains (client_numbers self.now.scene.clients) client }
        ensures { result ≡ is_over (world_of self.now.scene self.now.events) client }
    {
        let Some(place) = place_of(self.scene.clients.as_slice(), client) else {
            unreachable!();
        };
        matches!(self.clients[place].phase(), Phase::Ended | Phase::Dead)
    }
}

/// Whether a client is in one of the groups.
fn in_groups(groups: &Groupings, client: u32) -> bool
    ensures { result ≡ in_groups groups.now client }
{
    groups.as_slice().iter().any(|g| is_member(g, client))
}

/// Whether a client is a member of the group.
fn is_member(grouping: &Grouping, client: u32) -> bool
    ensures { result ≡ is_member grouping.now client }
{
    grouping.members.as_slice().iter().any(|m| *m == client)
}
