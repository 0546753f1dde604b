//! What is looked up in a scene: the place of a client's script, the shape and the bytes of a texture, and whether a
//! command is the last.

ghost use Rattle.std.specs.Prelude.{◌≡◌, ◌↔◌, Contains, IfSome, IsSome, Some, slice_get};
ghost use Rattle.dri_base.specs.Ranges.{client_numbers};
ghost use Rattle.dri_base.specs.Scenes.{script_in};
ghost use Rattle.dri_client.specs.Steps.{is_last_of};
ghost use Rattle.dri_client.specs.Textures.{bytes_in, shape_in};

use dri_base::{ClientScript, TexShape, Texture};
use dri_core::texture_in;

/// The place of a client's script among the scene's, where the scene has the client.
pub fn place_of(clients: &[ClientScript], number: u32) -> Option<usize>
    ensures there { IsSome result ↔ Contains (client_numbers clients.now) number }
    ensures script { IfSome result (λ i. slice_get clients.now i ≡ Some (script_in clients.now number)) }
    ensures number { IfSome result (λ i. slice_get (client_numbers clients.now) i ≡ Some number) }
{
    for (place, script) in clients.iter().enumerate() {
        if script.number == number {
            return Some(place);
        }
    }
    None
}

/// The shape of the texture with this number, where there is one.
pub(crate) fn shape_in(textures: &[Texture], number: u32) -> Option<TexShape>
    ensures { result ≡ shape_in textures.now number }
{
    Some(texture_in(textures, number)?.shape)
}

/// How many bytes a texture of a script has; none where it isn't there.
pub fn bytes_in(script: &ClientScript, texture: u32) -> usize
    ensures { result ≡ bytes_in script.now texture }
{
    match texture_in(script.textures.as_slice(), texture) {
        Some(texture) => texture.bytes.len(),
        None => 0,
    }
}

/// Whether a place is the last command's, or comes behind it.
pub(crate) fn is_last(script: &ClientScript, place: u32) -> bool
    ensures { result ≡ is_last_of script.now place }
{
    script.commands.len() <= place as usize
}
