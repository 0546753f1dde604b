//! How a place of a plane keeps a colour. What is kept may tell less than the colour that was written.

ghost use Rattle.std.specs.Prelude.{◌≡◌, List, map};
ghost use Rattle.dri_base.specs.declared.colour.Rgb.{Rgb};

use dri_base::Rgb;

/// A format of colours: what a place keeps, and the colour that it shows.
pub trait ColourFormat {
    type Kept: Copy;

    ghost shown: { Self.Kept → Rgb };

    ghost kept: { Rgb → Self.Kept };

    ghost all_shown: { List Self.Kept → List Rgb };

    /// The colour that a place shows.
    fn shown(place: Self::Kept) -> Rgb
        ensures { result ≡ shown place };

    /// What is kept of a colour.
    fn kept(colour: Rgb) -> Self::Kept
        ensures { result ≡ kept colour };

    /// Writes a colour into a place.
    fn keep(place: &mut Self::Kept, colour: Rgb)
        ensures { place.new ≡ kept colour };

    ghost each_shown: { (places : List Self.Kept) → all_shown places ≡ map shown places };
}

/// The colour as it is.
impl ColourFormat for Rgb {
    ghost use Rattle.dri_plane.specs.Formats.{each_as_it_is};

    type Kept = Rgb;

    ghost shown = { λ colour. colour };

    ghost kept = { λ colour. colour };

    ghost all_shown = { λ colours. colours };

    ghost each_shown = { each_as_it_is };

    #[inline(always)]
    fn shown(place: Rgb) -> Rgb {
        place
    }

    #[inline(always)]
    fn kept(colour: Rgb) -> Rgb {
        colour
    }

    // Channel by channel, so that none of them is shifted into a word first.
    #[inline(always)]
    fn keep(place: &mut Rgb, colour: Rgb) {
        place.r = colour.r;
        place.g = colour.g;
        place.b = colour.b;
    }
}
