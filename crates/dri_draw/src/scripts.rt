//! What is looked up in a scene of a client: its script, and the bytes of its textures.

ghost use Rattle.std.specs.Prelude.{◌≡◌, [], Some, None, IfSome, IfNone};
ghost use Rattle.dri_base.specs.Scenes.{bytes_of, script_in, textures_of};
ghost use Rattle.dri_base.specs.Texels.{texture_in};

use dri_base::{ClientScript, Scene};
use dri_core::texture_in;

/// The script of a client; none where the client isn't there, whose script has nothing in it.
pub fn script_in(scripts: &[ClientScript], client: u32) -> Option<&ClientScript>
    ensures there { IfSome result (λ script. script.now ≡ script_in scripts.now client) }
    ensures none { IfNone result (script_in scripts.now client ≡ record { number = client; window = 0; textures = []; commands = [] }) }
{
    for script in scripts {
        if script.number == client {
            return Some(script);
        }
    }
    None
}

/// The bytes of a client's texture; none where it isn't there.
pub fn texture_bytes(scene: &Scene, client: u32, number: u32) -> &[u8]
    ensures { result.now ≡ bytes_of (texture_in (textures_of scene.now client) number) }
{
    let Some(script) = script_in(scene.clients.as_slice(), client) else {
        return &[];
    };
    match texture_in(script.textures.as_slice(), number) {
        Some(texture) => texture.bytes.as_slice(),
        None => &[],
    }
}
