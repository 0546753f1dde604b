//! The printer of a scene's text: a line for each part of the scene, in the order of the sections.

ghost use Rattle.std.specs.Prelude.{◌≡◌, ◌++◌, ◌∷◌, [], All, codes, decimal, map, IfOk, Ok, OnOk};
ghost use Rattle.std.specs.List.{flat_map};
ghost use Rattle.dri_base.specs.Ranges.{InRange};
ghost use Rattle.dri_scene.specs.Readings.{scene_of};
ghost use Rattle.dri_scene.specs.Stored.{IsColour, IsStoredClient, IsStoredCommand, IsStoredTexture};
ghost use Rattle.dri_scene.specs.Texts.{Adds, block_lines, change_words, client_lines, command_words, head_lines, item_words, scene_text, screen_words, texture_words, window_words};
ghost use Rattle.dri_words.specs.Lines.{line_bytes};
ghost use Rattle.dri_base.specs.declared.command.Change.TheVariants as Change;

use crate::print_command::push_command;
use crate::words::{Word, end_line, push_bytes, push_digits, push_image, push_line, push_words};
use dri_base::{
    Bytes, Change, Changes, ClientScript, Clients, Commands, Item, Items, OutOfMemory, Scene,
    Texture, Textures, Window, Windows,
};
use std::alloc::{AllocError, Global};

/// `window W X Y WIDTH HEIGHT RRGGBB OWNER up`, or `down`
fn push_window(text: &mut Vec<u8>, window: &Window) -> Result<(), AllocError>
    ensures text { OnOk result (Adds text.old.items (line_bytes (window_words window.now)) text.new.items) }
    ensures stored { OnOk result (IsColour window.now.background) }
{
    let words = [
        Word::Number(window.number),
        Word::Signed(window.x),
        Word::Signed(window.y),
        Word::Number(window.width),
        Word::Number(window.height),
        Word::Colour(window.background),
        Word::Number(window.owner),
        Word::Mapped(window.mapped),
    ];
    push_line(text, b"window", &words)
}

/// `texture T l8 WIDTH HEIGHT HEX`, or `rgb565`
fn push_texture(text: &mut Vec<u8>, texture: &Texture) -> Result<(), AllocError>
    ensures text { OnOk result (Adds text.old.items (line_bytes (texture_words texture.now)) text.new.items) }
    ensures stored { OnOk result (IsStoredTexture texture.now) }
{
    let words = [
        Word::Number(texture.number),
        Word::Format(texture.shape.format),
        Word::Number(texture.shape.width),
        Word::Number(texture.shape.height),
    ];
    push_bytes(text, b"texture")?;
    push_words(text, &words)?;
    push_image(text, &texture.bytes)?;
    end_line(text)
}

/// A name and a number
fn push_numbered(text: &mut Vec<u8>, name: &[u8], number: u32) -> Result<(), AllocError>
    ensures { OnOk result (Adds text.old.items (line_bytes (name.now ∷ decimal number ∷ [])) text.new.items) }
{
    push_line(text, name, &[Word::Number(number)])
}

/// A name and two numbers
fn push_twice_numbered(
    text: &mut Vec<u8>,
    name: &[u8],
    first: u32,
    second: u32,
) -> Result<(), AllocError>
    ensures { OnOk result (Adds text.old.items (line_bytes (name.now ∷ decimal first ∷ decimal second ∷ [])) text.new.items) }
{
    push_line(text, name, &[Word::Number(first), Word::Number(second)])
}

/// `move W X Y`
fn push_move(text: &mut Vec<u8>, window: u32, x: i32, y: i32) -> Result<(), AllocError>
    ensures { OnOk result (Adds text.old.items (line_bytes (change_words (Change.Move window x y))) text.new.items) }
{
    let words = [Word::Number(window), Word::Signed(x), Word::Signed(y)];
    push_line(text, b"move", &words)
}

/// `resize W WIDTH HEIGHT`
fn push_resize(text: &mut Vec<u8>, window: u32, width: u32, height: u32) -> Result<(), AllocError>
    ensures { OnOk result (Adds text.old.items (line_bytes (change_words (Change.Resize window width height))) text.new.items) }
{
    let words = [
        Word::Number(window),
        Word::Number(width),
        Word::Number(height),
    ];
    push_line(text, b"resize", &words)
}

/// A change's line.
fn push_change(text: &mut Vec<u8>, change: &Change) -> Result<(), AllocError>
    ensures { OnOk result (Adds text.old.items (line_bytes (change_words change.now)) text.new.items) }
{
    match change {
        Change::Map { window } => push_numbered(text, b"map", *window),
        Change::Unmap { window } => push_numbered(text, b"unmap", *window),
        Change::Move { window, x, y } => push_move(text, *window, *x, *y),
        Change::Resize {
            window,
            width,
            height,
        } => push_resize(text, *window, *width, *height),
        Change::Raise { window } => push_numbered(text, b"raise", *window),
        Change::Lower { window } => push_numbered(text, b"lower", *window),
    }
}

/// A line of a mark and a number, with no space between them.
fn push_marked(text: &mut Vec<u8>, mark: &[u8], number: u32) -> Result<(), AllocError>
    ensures { OnOk result (Adds text.old.items (line_bytes ((mark.now ++ decimal number) ∷ [])) text.new.items) }
{
    push_bytes(text, mark)?;
    push_digits(text, number)?;
    end_line(text)
}

/// An item's line.
fn push_item(text: &mut Vec<u8>, item: &Item) -> Result<(), AllocError>
    ensures { OnOk result (Adds text.old.items (line_bytes (item_words item.now)) text.new.items) }
{
    match item {
        Item::Turn { actor: 0 } => push_bytes(text, b"s\n"),
        Item::Turn { actor } => push_marked(text, b"", *actor),
        Item::Kill { client } => push_marked(text, b"x", *client),
    }
}

/// `screen W H RRGGBB`
fn push_screen(text: &mut Vec<u8>, scene: &Scene) -> Result<(), AllocError>
    ensures text { OnOk result (Adds text.old.items (line_bytes (screen_words scene.now)) text.new.items) }
    ensures stored { OnOk result (IsColour scene.now.root) }
{
    let words = [
        Word::Number(scene.width),
        Word::Number(scene.height),
        Word::Colour(scene.root),
    ];
    push_line(text, b"screen", &words)
}

/// The lines of the head.
fn push_head(text: &mut Vec<u8>, scene: &Scene) -> Result<(), AllocError>
    ensures text { OnOk result (Adds text.old.items (flat_map line_bytes (head_lines scene.now)) text.new.items) }
    ensures stored { OnOk result (IsColour scene.now.root) }
{
    push_bytes(text, b"dri 1\n")?;
    push_screen(text, scene)?;
    push_twice_numbered(text, b"heap", scene.regions, scene.region_size)
}

/// The lines of the windows.
fn push_windows(text: &mut Vec<u8>, windows: &Windows) -> Result<(), AllocError>
    ensures text { OnOk result (Adds text.old.items (flat_map (λ w. line_bytes (window_words w)) windows.now) text.new.items) }
    ensures stored { OnOk result (All (λ w. IsColour w.background) windows.now) }
{
    for window in windows.as_slice() {
        push_window(text, window)?;
    }
    Ok(())
}

/// The lines of a client's textures.
fn push_textures(text: &mut Vec<u8>, textures: &Textures) -> Result<(), AllocError>
    ensures text { OnOk result (Adds text.old.items (flat_map (λ t. line_bytes (texture_words t)) textures.now) text.new.items) }
    ensures stored { OnOk result (All IsStoredTexture textures.now) }
{
    for texture in textures.as_slice() {
        push_texture(text, texture)?;
    }
    Ok(())
}

/// The lines of a client's commands.
fn push_commands(text: &mut Vec<u8>, commands: &Commands) -> Result<(), AllocError>
    ensures text { OnOk result (Adds text.old.items (flat_map (λ c. line_bytes (command_words c)) commands.now) text.new.items) }
    ensures stored { OnOk result (All IsStoredCommand commands.now) }
{
    for command in commands.as_slice() {
        push_command(text, command)?;
    }
    Ok(())
}

/// The lines of a client's block.
fn push_client(text: &mut Vec<u8>, client: &ClientScript) -> Result<(), AllocError>
    ensures text { OnOk result (Adds text.old.items (flat_map line_bytes (client_lines client.now)) text.new.items) }
    ensures stored { OnOk result (IsStoredClient client.now) }
{
    push_twice_numbered(text, b"client", client.number, client.window)?;
    push_textures(text, &client.textures)?;
    push_commands(text, &client.commands)?;
    push_bytes(text, b"end\n")
}

/// The lines of the clients' blocks.
fn push_clients(text: &mut Vec<u8>, clients: &Clients) -> Result<(), AllocError>
    ensures text { OnOk result (Adds text.old.items (flat_map (λ c. flat_map line_bytes (client_lines c)) clients.now) text.new.items) }
    ensures stored { OnOk result (All IsStoredClient clients.now) }
{
    for client in clients.as_slice() {
        push_client(text, client)?;
    }
    Ok(())
}

/// The lines of the changes.
fn push_changes(text: &mut Vec<u8>, changes: &Changes) -> Result<(), AllocError>
    ensures { OnOk result (Adds text.old.items (flat_map (λ c. line_bytes (change_words c)) changes.now) text.new.items) }
{
    for change in changes.as_slice() {
        push_change(text, change)?;
    }
    Ok(())
}

/// The lines of the items.
fn push_items(text: &mut Vec<u8>, items: &Items) -> Result<(), AllocError>
    ensures { OnOk result (Adds text.old.items (flat_map (λ i. line_bytes (item_words i)) items.now) text.new.items) }
{
    for item in items.as_slice() {
        push_item(text, item)?;
    }
    Ok(())
}

/// The server's block, where there is a change.
fn push_server(text: &mut Vec<u8>, changes: &Changes) -> Result<(), AllocError>
    ensures { OnOk result (Adds text.old.items (flat_map line_bytes (block_lines (codes "server") (map change_words changes.now))) text.new.items) }
{
    if changes.is_empty() {
        return Ok(());
    }
    push_bytes(text, b"server\n")?;
    push_changes(text, changes)?;
    push_bytes(text, b"end\n")
}

/// The turns, where there is an item.
fn push_turns(text: &mut Vec<u8>, items: &Items) -> Result<(), AllocError>
    ensures { OnOk result (Adds text.old.items (flat_map line_bytes (block_lines (codes "turns") (map item_words items.now))) text.new.items) }
{
    if items.is_empty() {
        return Ok(());
    }
    push_bytes(text, b"turns\n")?;
    push_items(text, items)?;
    push_bytes(text, b"end\n")
}

/// The text of a scene, without lines that are passed over. A server or turns block stands exactly where its list isn't
/// empty. Read again, the text gives the scene.
pub fn print_scene(alloc: Global, scene: &Scene) -> Result<Bytes, OutOfMemory>
    requires { InRange scene.now }
    ensures text { IfOk result (λ bytes. bytes ≡ scene_text scene.now) }
    ensures read { IfOk result (λ bytes. scene_of bytes ≡ Ok scene.now) }
{
    let mut text = Vec::new(alloc);
    push_head(&mut text, scene)?;
    push_windows(&mut text, &scene.windows)?;
    push_clients(&mut text, &scene.clients)?;
    push_server(&mut text, &scene.changes)?;
    push_turns(&mut text, &scene.turns)?;
    push_bytes(&mut text, b"done\n")?;
    Ok(Bytes::from_vec(text))
}
