//! Groups as far as they were read, and how each line takes them on.

ghost use Rattle.dri_base.specs.Ranges.{client_numbers};
ghost use Rattle.std.specs.Prelude.{◌≡◌, Ok, OnOk};
ghost use Rattle.std.specs.Str.{bytes_eq};
ghost use Rattle.dri_many.specs.Readings.{Leads, after_bytes, after_current, after_group, after_line, are_new, are_there, has_number, is_end, is_grouped, no_group, opening, with_current, with_end, with_group};
ghost use Rattle.dri_many.specs.Soundness.{IsSound};

use crate::fault::Stop;
use crate::grouping::{Grouping, Groupings};
use crate::line::{client_in, clients_in, current_form, group_form};
use dri_base::{ClientScript, Numbers, Scene};
use dri_words::{Reason, is_passed_over};
use std::alloc::Global;

/// The most currents of all groups together.
const MOST_CURRENTS: u32 = 100_000;

/// Which lines are allowed next.
#[derive(Clone, Copy)]
pub enum Place {
    /// `many 1`
    Title,
    /// behind the title or a group's block: a group's block, `done`
    Groups,
    /// in a group's block: currents, `end`
    Block,
    /// behind `done`: nothing
    End,
}

/// Groups as far as they were read: the place in their text, the group whose block is being read, and how many currents
/// all groups have together.
#[derive(Drop)]
pub struct Reading {
    pub place: Place,
    pub groups: Groupings,
    pub group: Grouping,
    pub currents: u32,
}

/// A group without lines.
fn no_group(alloc: Global) -> Grouping
    ensures { result ≡ no_group }
{
    Grouping {
        members: Numbers::new(alloc),
        currents: Numbers::new(alloc),
    }
}

/// Before the first line.
pub fn opening(alloc: Global) -> Reading
    ensures { result ≡ opening }
{
    Reading {
        place: Place::Title,
        groups: Groupings::new(alloc),
        group: no_group(alloc),
        currents: 0,
    }
}

/// Whether one of the clients has this number.
fn has_client(number: u32, clients: &[ClientScript]) -> bool
    ensures { result ≡ has_number number (client_numbers clients.now) }
{
    clients.iter().map(|c| c.number).any(|n| n == number)
}

/// Whether the number is one of these.
fn has_number(number: u32, numbers: &[u32]) -> bool
    ensures { result ≡ has_number number numbers.now }
{
    numbers.iter().any(|n| *n == number)
}

/// Whether the client stands in one of the groups.
fn is_grouped(client: u32, groups: &[Grouping]) -> bool
    ensures { result ≡ is_grouped client groups.now }
{
    groups
        .iter()
        .any(|g| has_number(client, g.members.as_slice()))
}

/// Whether each is one of the clients.
fn are_there(clients: &[ClientScript], members: &[u32]) -> bool
    ensures { result ≡ are_there (client_numbers clients.now) members.now }
{
    for member in members {
        if !has_client(*member, clients) {
            return false;
        }
    }
    true
}

/// Whether none of them stands in a group, and none twice.
fn are_new(groups: &[Grouping], members: &[u32]) -> bool
    ensures { result ≡ are_new groups.now members.now }
{
    let mut rest = members;
    while let [member, more @ ..] = rest {
        if is_grouped(*member, groups) || has_number(*member, more) {
            return false;
        }
        rest = more;
    }
    true
}

/// A group's block begins. Unknown: a member isn't a client of the scene. Twice: one stands in a group already.
#[tactic(auto, unfolding(crate::specs::Readings::with_group))]
fn with_group(
    reading: &mut Reading,
    alloc: Global,
    scene: &Scene,
    members: Numbers,
) -> Result<(), Stop>
    ensures { Leads result (with_group scene.now reading.old members) reading.new }
{
    if !are_there(scene.clients.as_slice(), members.as_slice()) {
        return Err(Stop::Refused(Reason::Unknown));
    }
    if !are_new(reading.groups.as_slice(), members.as_slice()) {
        return Err(Stop::Refused(Reason::Twice));
    }
    reading.group = Grouping {
        members,
        currents: Numbers::new(alloc),
    };
    reading.place = Place::Block;
    Ok(())
}

/// A current more. Unknown: it is no member. Limit: it is the 100,001st of all groups.
#[tactic(auto, unfolding(crate::specs::Readings::with_current))]
fn with_current(reading: &mut Reading, client: u32) -> Result<(), Stop>
    ensures { Leads result (with_current reading.old client) reading.new }
{
    if !has_number(client, reading.group.members.as_slice()) {
        return Err(Stop::Refused(Reason::Unknown));
    }
    if MOST_CURRENTS <= reading.currents {
        return Err(Stop::Refused(Reason::Limit));
    }
    reading.group.currents.push(client)?;
    reading.currents += 1;
    Ok(())
}

/// A group's block ends, and joins the others.
fn with_end(reading: &mut Reading, alloc: Global) -> Result<(), Stop>
    ensures { Leads result (Ok (with_end reading.old)) reading.new }
{
    let group = std::mem::replace(&mut reading.group, no_group(alloc));
    reading.groups.push(group)?;
    reading.place = Place::Groups;
    Ok(())
}

/// A group's line: its form, then its ranges, then what it begins.
#[tactic(auto, unfolding(crate::specs::Readings::after_group))]
fn after_group(reading: &mut Reading, alloc: Global, scene: &Scene, line: &[u8]) -> Result<(), Stop>
    ensures { Leads result (after_group scene.now reading.old line.now) reading.new }
{
    let numbers = group_form(alloc, line)?;
    let members = clients_in(alloc, numbers.as_slice())?;
    with_group(reading, alloc, scene, members)
}

/// A current's line: its form, then its range, then what it adds.
#[tactic(auto, unfolding(crate::specs::Readings::after_current))]
fn after_current(reading: &mut Reading, line: &[u8]) -> Result<(), Stop>
    ensures { Leads result (after_current reading.old line.now) reading.new }
{
    let Some(number) = current_form(line) else {
        return Err(Stop::Refused(Reason::Shape));
    };
    let Some(client) = client_in(number) else {
        return Err(Stop::Refused(Reason::Range));
    };
    with_current(reading, client)
}

/// Whether a line is this one.
fn is_line(line: &[u8], wanted: &[u8]) -> bool
    ensures { result ≡ bytes_eq line.now wanted.now }
{
    line == wanted
}

/// What may stand at the reading's place: the title; a group or `done`; in a group's block a current or the end; behind
/// `done` nothing.
#[tactic(auto, unfolding(crate::specs::Readings::after_line))]
fn after_line(reading: &mut Reading, alloc: Global, scene: &Scene, line: &[u8]) -> Result<(), Stop>
    ensures { Leads result (after_line scene.now reading.old line.now reading.old.place) reading.new }
{
    match reading.place {
        Place::Title if is_line(line, b"many 1") => reading.place = Place::Groups,
        Place::Groups if is_line(line, b"done") => reading.place = Place::End,
        Place::Groups => return after_group(reading, alloc, scene, line),
        Place::Block if is_line(line, b"end") => return with_end(reading, alloc),
        Place::Block => return after_current(reading, line),
        Place::Title | Place::End => return Err(Stop::Refused(Reason::Shape)),
    }
    Ok(())
}

/// Takes on a line's bytes.
#[tactic(auto, unfolding(crate::specs::Readings::after_bytes))]
pub fn after_bytes(
    reading: &mut Reading,
    alloc: Global,
    scene: &Scene,
    line: &[u8],
) -> Result<(), Stop>
    requires { IsSound scene.now reading.old }
    ensures value { Leads result (after_bytes scene.now reading.old line.now) reading.new }
    ensures sound { OnOk result (IsSound scene.now reading.new) }
{
    if is_passed_over(line) {
        return Ok(());
    }
    after_line(reading, alloc, scene, line)
}

/// Whether the text is at its end.
pub fn is_end(place: Place) -> bool
    ensures { result ≡ is_end place }
{
    matches!(place, Place::End)
}
