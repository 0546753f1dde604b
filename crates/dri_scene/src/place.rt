//! The sections of a text, in their order, as the places where a line may stand.

ghost use Rattle.std.specs.Prelude.{◌≡◌};
ghost use Rattle.dri_scene.specs.Places.{place_in_script, place_behind_clients, place_after, is_end, is_in_client};

use crate::form::{CommandForm, Form};

/// Which lines are allowed next.
#[derive(Clone, Copy)]
pub enum Place {
    /// `dri 1`
    Title,
    /// `screen`
    Screen,
    /// `heap`
    Heap,
    /// windows, and what may follow them: a client's block, the server's, the turns, `done`
    Windows,
    /// behind a client's block: a client's block, the server's, the turns, `done`
    Clients,
    /// in a client's block: textures, commands, `end`
    Textures,
    /// in a client's block, behind a command: commands, `end`
    Commands,
    /// in a client's block, behind a `die`: `end`
    Dead,
    /// in the server's block: changes, `end`
    Changes,
    /// behind the server's block: the turns, `done`
    Schedule,
    /// in the turns block: items, `end`
    Turns,
    /// behind the turns: `done`
    Done,
    /// behind `done`: nothing
    End,
}

/// Where a line of this form leads in a client's block, behind its textures.
#[tactic(auto, unfolding(crate::specs::Places::place_in_script))]
fn place_in_script(form: &Form<'_>) -> Option<Place>
    ensures { result ≡ place_in_script form.now }
{
    match form {
        Form::Command(CommandForm::Die) => Some(Place::Dead),
        Form::Command(_) => Some(Place::Commands),
        Form::End => Some(Place::Clients),
        _ => None,
    }
}

/// Where a line of this form leads behind the clients' blocks.
#[tactic(auto, unfolding(crate::specs::Places::place_behind_clients))]
fn place_behind_clients(form: &Form<'_>) -> Option<Place>
    ensures { result ≡ place_behind_clients form.now }
{
    match form {
        Form::Server => Some(Place::Changes),
        Form::Turns => Some(Place::Turns),
        Form::Done => Some(Place::End),
        _ => None,
    }
}

/// Where a line of this form leads, where it is allowed at the place.
#[tactic(auto, unfolding(crate::specs::Places::place_after))]
pub fn place_after(place: Place, form: &Form<'_>) -> Option<Place>
    ensures { result ≡ place_after place form.now }
{
    match (place, form) {
        (Place::Title, Form::Title) => Some(Place::Screen),
        (Place::Screen, Form::Screen { .. }) => Some(Place::Heap),
        (Place::Heap, Form::Heap { .. }) => Some(Place::Windows),
        (Place::Windows, Form::Window(_)) => Some(Place::Windows),
        (Place::Windows | Place::Clients, Form::Client { .. }) => Some(Place::Textures),
        (Place::Windows | Place::Clients, _) => place_behind_clients(form),
        (Place::Textures, Form::Texture(_)) => Some(Place::Textures),
        (Place::Textures | Place::Commands, _) => place_in_script(form),
        (Place::Dead, Form::End) => Some(Place::Clients),
        (Place::Changes, Form::Change(_)) => Some(Place::Changes),
        (Place::Changes, Form::End) => Some(Place::Schedule),
        (Place::Schedule, Form::Turns) => Some(Place::Turns),
        (Place::Schedule, Form::Done) => Some(Place::End),
        (Place::Turns, Form::Item(_)) => Some(Place::Turns),
        (Place::Turns, Form::End) => Some(Place::Done),
        (Place::Done, Form::Done) => Some(Place::End),
        _ => None,
    }
}

/// Whether the scene is whole.
pub fn is_end(place: Place) -> bool
    ensures { result ≡ is_end place }
{
    matches!(place, Place::End)
}

/// Whether an end here is that of a client's block.
pub fn is_in_client(place: Place) -> bool
    ensures { result ≡ is_in_client place }
{
    matches!(place, Place::Textures | Place::Commands | Place::Dead)
}
