//! Where a group stands: at which place of its order, and whether its current member ran a command in its hold.

ghost use Rattle.std.specs.Prelude.{◌≡◌, ◌<◌, ◌≤◌, ◌++◌, get_or, length};
ghost use Rattle.dri_base.specs.declared.journal.Entry.{Entry};
ghost use Rattle.dri_core.specs.Cores.{entry_of};
ghost use Rattle.dri_many.specs.Groupings.{most_currents, most_members};
ghost use Rattle.dri_world.specs.Seats.{IsSmall, moved_by, next_place, order_of, ran_by};

use dri_base::Event;
use dri_many::Grouping;

/// Where a group stands. The places of its order are those of its currents and then of its members, and behind the last
/// of them the members come again.
#[derive(Clone, Copy)]
pub(crate) struct Seat {
    pub(crate) place: usize,
    pub(crate) ran: bool,
}

impl Seat {
    /// Goes on by an event of the current member. Where it ends the member's segment, the next one is looked for behind it.
    pub(crate) fn go_on(&mut self, grouping: &Grouping, event: Event)
        requires small { IsSmall grouping.now }
        requires inside { self.old.place < length (order_of grouping.now) }
        ensures { self.new ≡ moved_by grouping.now self.old (entry_of event) }
    {
        let ends = match event {
            Event::LeaveLight { .. } | Event::LeaveKernel { .. } => self.ran,
            Event::Gone { .. } => true,
            _ => false,
        };
        self.ran = ran_after(self.ran, event);
        if ends {
            self.place = next_place(grouping, self.place);
        }
    }
}

/// The number of places.
pub(crate) fn places(grouping: &Grouping) -> usize
    requires small { IsSmall grouping.now }
    ensures { result ≡ length (order_of grouping.now) }
{
    grouping.currents.len() + grouping.members.len()
}

/// Who is made current at a place.
pub(crate) fn current_at(grouping: &Grouping, place: usize) -> u32
    requires { place < length (order_of grouping.now) }
    ensures { result ≡ get_or (order_of grouping.now) place 0 }
{
    let currents = grouping.currents.len();
    if place < currents {
        return *grouping.currents.get(place);
    }
    *grouping.members.get(place - currents)
}

/// The place behind a place.
pub(crate) fn next_place(grouping: &Grouping, place: usize) -> usize
    requires small { IsSmall grouping.now }
    requires inside { place < length (order_of grouping.now) }
    ensures { result ≡ next_place grouping.now place }
{
    let next = place + 1;
    if next == places(grouping) {
        return grouping.currents.len();
    }
    next
}

/// Whether a command ran in the hold, after an event of the holder.
fn ran_after(ran: bool, event: Event) -> bool
    ensures { result ≡ ran_by ran (entry_of event) }
{
    match event {
        Event::Run { .. } => true,
        Event::LeaveLight { .. } | Event::LeaveKernel { .. } | Event::Gone { .. } => false,
        _ => ran,
    }
}
