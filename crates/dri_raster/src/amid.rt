ghost use Rattle.dri_raster.specs.Reach.{CoveredIsAmid};

/// A covered centre lies between the corners: no bound that all three keep, on any side, is passed by it. It does nothing:
/// its contract is the law.
pub fn covered_is_amid()
    ensures { CoveredIsAmid }
{}
