//! Colours, scenes and lines that were worked by hand.

ghost use Rattle.std.specs.Prelude.{◌≡◌, [], ◌∷◌, Some, pos};
ghost use Rattle.dri_base.specs.Scenes.{script_of};
ghost use Rattle.dri_base.specs.declared.state.Setting.TheVariants.{Shade};
ghost use Rattle.dri_base.specs.declared.state.Shade.TheVariants.{Smooth};
ghost use Rattle.dri_card16.specs.Examples.{added, added_journal, one_pixel, red_to_green};
ghost use Rattle.dri_card16.specs.Packing.{kept, pack};
ghost use Rattle.dri_card16.specs.Sixteen.{after16, solo_frame16};
ghost use Rattle.dri_core.specs.ExampleParts.{rgb};
ghost use Rattle.dri_core.specs.Runs.{HoldRun, after};
ghost use Rattle.dri_core.specs.Solo.{solo_frame};

/// Red stands highest and blue lowest, and green has a bit more than each. White stays white, what the lowest bits alone tell is
/// left out and never rounded up, and the highest bits come again below.
pub fn colours()
    ensures red { pack (rgb 0xff 0 0) ≡ 0xf800 }
    ensures green { pack (rgb 0 0xff 0) ≡ 0x07e0 }
    ensures blue { pack (rgb 0 0 0xff) ≡ 0x001f }
    ensures white { kept (rgb 0xff 0xff 0xff) ≡ rgb 0xff 0xff 0xff }
    ensures lowest { kept (rgb 7 3 7) ≡ rgb 0 0 0 }
    ensures next { kept (rgb 8 4 8) ≡ rgb 8 4 8 }
    ensures highest { kept (rgb 0x80 0x80 0x80) ≡ rgb 0x84 0x82 0x84 }
    ensures again { kept (rgb 0x84 0x82 0x84) ≡ rgb 0x84 0x82 0x84 }
{}

/// The root of a screen of one pixel is packed.
pub fn root()
    ensures { (after16 one_pixel []).front 0 0 ≡ rgb 0 0 0x42 }
{}

/// Colours of 7, 3 and 7 are packed to black as soon as they are cleared, so that 1 more is black again. Where eight bits are kept
/// it is 8, 4 and 8, which sixteen bits would show.
pub fn each_time()
    ensures run { HoldRun added added_journal }
    ensures shown { (after16 added added_journal).front 0 0 ≡ rgb 0 0 0 }
    ensures alone { solo_frame16 (script_of added 1) 1 (pos 0) (pos 0) ≡ Some (rgb 0 0 0) }
    ensures eight_bits { (after added added_journal).front 0 0 ≡ rgb 8 4 8 }
{}

/// A line of four pixels: in the third vertex's colour where it is flat, and else from the first's to the second's, which it doesn't
/// reach. One that goes as far down as across goes by columns, not by rows. Where there are triangles alone nothing of it is drawn.
pub fn four_pixels()
    ensures first { solo_frame16 (red_to_green [] 0) 1 (pos 0) (pos 0) ≡ Some (rgb 0 0xff 0) }
    ensures last { solo_frame16 (red_to_green [] 0) 1 (pos 3) (pos 0) ≡ Some (rgb 0 0xff 0) }
    ensures end { solo_frame16 (red_to_green [] 0) 1 (pos 4) (pos 0) ≡ Some (rgb 0 0 0) }
    ensures below { solo_frame16 (red_to_green [] 0) 1 (pos 0) (pos 1) ≡ Some (rgb 0 0 0) }
    ensures smooth { solo_frame16 (red_to_green (Shade Smooth ∷ []) 0) 1 (pos 0) (pos 0) ≡ Some (rgb 0xde 0x1c 0) }
    ensures diagonal { solo_frame16 (red_to_green [] 64) 1 (pos 3) (pos 4) ≡ Some (rgb 0 0xff 0) }
    ensures above_it { solo_frame16 (red_to_green [] 64) 1 (pos 3) (pos 3) ≡ Some (rgb 0 0 0) }
    ensures triangles_alone { solo_frame (red_to_green [] 0) 1 (pos 0) (pos 0) ≡ Some (rgb 0 0 0) }
{}
