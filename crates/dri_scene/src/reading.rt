//! A scene as far as it was read, and how each line takes it on.

ghost use Rattle.std.specs.Prelude.{◌≡◌, ◌≤◌, Ok, true, IfOk, OnOk};
ghost use Rattle.std.specs.Option.{option_copied};
ghost use Rattle.dri_words.specs.Parts.{parts_at};
ghost use Rattle.dri_base.specs.Ranges.{heap_bytes, owner_of};
ghost use Rattle.dri_base.specs.Scenes.{kills_in};
ghost use Rattle.dri_scene.specs.Readings.{Leads, no_script, opening, has_window, has_client, has_texture, with_window, owns, with_client, digit_value, image_bytes, with_texture, names_textures, with_command, with_change, names_client, kills_again, with_item, with_end, with_screen, with_heap, taken, after_words, after_bytes};
ghost use Rattle.dri_words.specs.Lines.{or_else, is_passed_over};
ghost use Rattle.dri_scene.specs.Soundness.{IsSound};

use crate::fault::Stop;
use crate::head_form::form_of;
use crate::line::{Line, line_in};
use crate::place::{Place, is_in_client, place_after};
use dri_base::{
    Bytes, Change, Changes, ClientScript, Clients, Command, Commands, Item, Items, MOST_CHANGES,
    MOST_COMMANDS, MOST_ITEMS, OutOfMemory, Rgb, Scene, Setting, TexShape, Texture, Textures,
    Window, Windows,
};
use dri_words::{Reason, is_passed_over};
use std::alloc::Global;

/// A scene as far as it was read: the place in its text, the client's block that is being read, how many commands all
/// clients have together, and the numbers of the last client and of its last texture, 0 where there is none.
#[derive(Drop)]
pub struct Reading {
    pub place: Place,
    pub scene: Scene,
    pub script: ClientScript,
    pub commands: u32,
    pub last_client: u32,
    pub last_texture: u32,
}

/// A block without lines.
fn no_script(alloc: Global) -> ClientScript
    ensures { result ≡ no_script }
{
    ClientScript {
        number: 0,
        window: 0,
        textures: Textures::new(alloc),
        commands: Commands::new(alloc),
    }
}

/// Before the first line.
pub fn opening(alloc: Global) -> Reading
    ensures value { result ≡ opening }
    ensures sound { IsSound result }
{
    Reading {
        place: Place::Title,
        scene: Scene {
            width: 0,
            height: 0,
            root: Rgb { r: 0, g: 0, b: 0 },
            regions: 0,
            region_size: 0,
            windows: Windows::new(alloc),
            clients: Clients::new(alloc),
            changes: Changes::new(alloc),
            turns: Items::new(alloc),
        },
        script: no_script(alloc),
        commands: 0,
        last_client: 0,
        last_texture: 0,
    }
}

/// Whether one of the windows has this number.
fn has_window(number: u32, windows: &[Window]) -> bool
    ensures { result ≡ has_window number windows.now }
{
    windows.iter().any(|w| w.number == number)
}

/// Whether one of the clients has this number.
fn has_client(number: u32, clients: &[ClientScript]) -> bool
    ensures { result ≡ has_client number clients.now }
{
    clients.iter().any(|c| c.number == number)
}

/// Whether one of the textures has this number.
fn has_texture(number: u32, textures: &[Texture]) -> bool
    ensures { result ≡ has_texture number textures.now }
{
    textures.iter().any(|t| t.number == number)
}

/// A window more. Twice: its number was given before.
#[tactic(auto, unfolding(crate::specs::Readings::with_window))]
fn with_window(reading: &mut Reading, window: Window) -> Result<(), Stop>
    ensures { Leads result (with_window reading.old window) reading.new }
{
    if has_window(window.number, reading.scene.windows.as_slice()) {
        return Err(Stop::Refused(Reason::Twice));
    }
    reading.scene.windows.push(window)?;
    Ok(())
}

/// Whether the window is there and has this owner.
fn owns(windows: &[Window], number: u32, client: u32) -> bool
    ensures { result ≡ owns windows.now number client }
{
    for window in windows {
        if window.number == number {
            return window.owner == client;
        }
    }
    false
}

/// A client's block begins. Unknown: the client doesn't own such a window. Order: its number isn't above the last.
#[tactic(auto, unfolding(crate::specs::Readings::with_client))]
fn with_client(reading: &mut Reading, alloc: Global, number: u32, window: u32) -> Result<(), Stop>
    ensures { Leads result (with_client reading.old number window) reading.new }
{
    if !owns(reading.scene.windows.as_slice(), window, number) {
        return Err(Stop::Refused(Reason::Unknown));
    }
    if number <= reading.last_client {
        return Err(Stop::Refused(Reason::Order));
    }
    reading.script = ClientScript {
        number,
        window,
        textures: Textures::new(alloc),
        commands: Commands::new(alloc),
    };
    reading.last_client = number;
    reading.last_texture = 0;
    Ok(())
}

/// The value of a hexadecimal digit.
fn digit_value(c: u8) -> u8
    ensures exact { result ≡ digit_value c }
    ensures small { result ≤ 15 }
{
    match c {
        b'0'..=b'9' => c - b'0',
        b'a'..=b'f' => c - b'a' + 10,
        _ => 0,
    }
}

/// The bytes of an image: two digits each, the higher first.
fn image_bytes(alloc: Global, digits: &[u8]) -> Result<Bytes, OutOfMemory>
    ensures { IfOk result (λ bytes. bytes ≡ image_bytes digits.now) }
{
    let mut bytes = Bytes::new(alloc);
    let mut rest = digits;
    while let [high, low, more @ ..] = rest {
        bytes.push(16 * digit_value(*high) + digit_value(*low))?;
        rest = more;
    }
    Ok(bytes)
}

/// The bytes of all regions together.
fn heap_bytes(scene: &Scene) -> u64
    ensures { result ≡ heap_bytes scene.now }
{
    u64::from(scene.regions) * u64::from(scene.region_size)
}

/// A texture more. Order: its number isn't above the last. Heap: it has more bytes than all regions together.
#[tactic(auto, unfolding(crate::specs::Readings::with_texture))]
fn with_texture(
    reading: &mut Reading,
    alloc: Global,
    number: u32,
    shape: TexShape,
    image: &[u8],
) -> Result<(), Stop>
    ensures { Leads result (with_texture reading.old number shape image.now) reading.new }
{
    if number <= reading.last_texture {
        return Err(Stop::Refused(Reason::Order));
    }
    if heap_bytes(&reading.scene) < image.len() as u64 / 2 {
        return Err(Stop::Refused(Reason::Heap));
    }
    let bytes = image_bytes(alloc, image)?;
    reading.script.textures.push(Texture {
        number,
        shape,
        bytes,
    })?;
    reading.last_texture = number;
    Ok(())
}

/// Whether the textures that a command names are there.
fn names_textures(textures: &[Texture], command: &Command) -> bool
    ensures { result ≡ names_textures textures.now command.now }
{
    match command {
        Command::Set(Setting::Bind(Some(texture))) => has_texture(*texture, textures),
        _ => true,
    }
}

/// A command more. Unknown: it binds a texture that isn't there. Limit: it is the 100,001st of all clients.
#[tactic(auto, unfolding(crate::specs::Readings::with_command))]
fn with_command(reading: &mut Reading, command: Command) -> Result<(), Stop>
    ensures { Leads result (with_command reading.old command) reading.new }
{
    if !names_textures(reading.script.textures.as_slice(), &command) {
        return Err(Stop::Refused(Reason::Unknown));
    }
    if MOST_COMMANDS <= reading.commands as usize {
        return Err(Stop::Refused(Reason::Limit));
    }
    reading.script.commands.push(command)?;
    reading.commands += 1;
    Ok(())
}

/// A change more. Unknown: its window isn't there. Limit: it is the 4,097th.
#[tactic(auto, unfolding(crate::specs::Readings::with_change))]
fn with_change(reading: &mut Reading, change: Change) -> Result<(), Stop>
    ensures { Leads result (with_change reading.old change) reading.new }
{
    if !has_window(change.window(), reading.scene.windows.as_slice()) {
        return Err(Stop::Refused(Reason::Unknown));
    }
    if MOST_CHANGES <= reading.scene.changes.len() {
        return Err(Stop::Refused(Reason::Limit));
    }
    reading.scene.changes.push(change)?;
    Ok(())
}

/// Whether the client that an item names is there; the server always is.
fn names_client(clients: &[ClientScript], item: &Item) -> bool
    ensures { result ≡ names_client clients.now item.now }
{
    match item {
        Item::Turn { actor } => *actor == 0 || has_client(*actor, clients),
        Item::Kill { client } => has_client(*client, clients),
    }
}

/// Whether one of the items kills a client.
fn kills_in(items: &[Item], client: u32) -> bool
    ensures { result ≡ kills_in items.now client }
{
    for item in items {
        match item {
            Item::Turn { .. } => {}
            Item::Kill { client: victim } => {
                if *victim == client {
                    return true;
                }
            }
        }
    }
    false
}

/// Whether an item kills a client that an item before kills.
fn kills_again(items: &[Item], item: &Item) -> bool
    ensures { result ≡ kills_again items.now item.now }
{
    match item {
        Item::Turn { .. } => false,
        Item::Kill { client } => kills_in(items, *client),
    }
}

/// An item more. Unknown: its client isn't there. Twice: a second kill of one client. Limit: it is the 1,000,001st.
#[tactic(auto, unfolding(crate::specs::Readings::with_item))]
fn with_item(reading: &mut Reading, item: Item) -> Result<(), Stop>
    ensures { Leads result (with_item reading.old item) reading.new }
{
    if !names_client(reading.scene.clients.as_slice(), &item) {
        return Err(Stop::Refused(Reason::Unknown));
    }
    if kills_again(reading.scene.turns.as_slice(), &item) {
        return Err(Stop::Refused(Reason::Twice));
    }
    if MOST_ITEMS <= reading.scene.turns.len() {
        return Err(Stop::Refused(Reason::Limit));
    }
    reading.scene.turns.push(item)?;
    Ok(())
}

/// A block is whole: a client's block joins the scene.
#[tactic(auto, unfolding(crate::specs::Readings::with_end))]
fn with_end(reading: &mut Reading, alloc: Global) -> Result<(), Stop>
    ensures { Leads result (Ok (with_end reading.old)) reading.new }
{
    if !is_in_client(reading.place) {
        return Ok(());
    }
    let script = std::mem::replace(&mut reading.script, no_script(alloc));
    reading.scene.clients.push(script)?;
    Ok(())
}

/// The reading takes the numbers of the screen's line.
fn with_screen(reading: &mut Reading, width: u32, height: u32, root: Rgb)
    ensures { reading.new ≡ with_screen reading.old width height root }
{
    reading.scene.width = width;
    reading.scene.height = height;
    reading.scene.root = root;
}

/// The reading takes the numbers of the heap's line.
fn with_heap(reading: &mut Reading, regions: u32, region_size: u32)
    ensures { reading.new ≡ with_heap reading.old regions region_size }
{
    reading.scene.regions = regions;
    reading.scene.region_size = region_size;
}

/// The reading takes on a line that may stand at its place.
#[tactic(auto, unfolding(crate::specs::Readings::taken))]
fn taken<'a>(reading: &mut Reading, alloc: Global, line: Line<'a>) -> Result<(), Stop>
    ensures { Leads result (taken reading.old line.entry) reading.new }
{
    match line {
        Line::Screen {
            width,
            height,
            root,
        } => {
            with_screen(reading, width, height, root);
            Ok(())
        }
        Line::Heap {
            regions,
            region_size,
        } => {
            with_heap(reading, regions, region_size);
            Ok(())
        }
        Line::Window(window) => with_window(reading, window),
        Line::Client { number, window } => with_client(reading, alloc, number, window),
        Line::Texture {
            number,
            shape,
            image,
        } => with_texture(reading, alloc, number, shape, image.as_slice()),
        Line::Command(command) => with_command(reading, command),
        Line::Change(change) => with_change(reading, change),
        Line::Item(item) => with_item(reading, item),
        Line::End => with_end(reading, alloc),
        Line::Title | Line::Server | Line::Turns | Line::Done => Ok(()),
    }
}

/// Takes on a line that isn't passed over: its form and place, then its ranges, then what it does to the scene.
#[tactic(auto, unfolding(crate::specs::Readings::after_words))]
fn after_words(reading: &mut Reading, alloc: Global, bytes: &[u8]) -> Result<(), Stop>
    requires { IsSound reading.old }
    ensures value { Leads result (after_words reading.old (parts_at 32 bytes.now)) reading.new }
    ensures sound { OnOk result (IsSound reading.new) }
{
    let Some(form) = form_of(bytes) else {
        return Err(Stop::Refused(Reason::Shape));
    };
    let Some(place) = place_after(reading.place, &form) else {
        return Err(Stop::Refused(Reason::Shape));
    };
    let Some(line) = line_in(form) else {
        return Err(Stop::Refused(Reason::Range));
    };
    taken(reading, alloc, line)?;
    reading.place = place;
    Ok(())
}

/// Takes on a line's bytes.
#[tactic(auto, unfolding(crate::specs::Readings::after_bytes))]
pub fn after_bytes(reading: &mut Reading, alloc: Global, bytes: &[u8]) -> Result<(), Stop>
    requires { IsSound reading.old }
    ensures value { Leads result (after_bytes reading.old bytes.now) reading.new }
    ensures sound { OnOk result (IsSound reading.new) }
{
    if is_passed_over(bytes) {
        return Ok(());
    }
    after_words(reading, alloc, bytes)
}
