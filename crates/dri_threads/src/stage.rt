//! What all actors share.

ghost use Rattle.std.specs.Prelude.{◌≡◌};

use crate::gate::Gate;
use dri_base::Scene;
use dri_hwlock::HwLock;
use dri_kernel::Kernel;
use dri_shared::Shared;
use std::alloc::Global;

/// What all actors of a run share, by reference: where memory comes from, the gate, the scene, the lock with the value
/// under it, and the kernel, in whose queue they wait for it.
#[derive(Drop)]
pub(crate) struct Stage<'a, T: Gate> {
    pub(crate) alloc: Global,
    pub(crate) gate: &'a T,
    pub(crate) scene: &'a Scene,
    pub(crate) hw: &'a HwLock<Shared>,
    pub(crate) kernel: &'a Kernel,
}

impl<'a, T: Gate> Stage<'a, T> {
    /// The stage of these parts.
    pub(crate) fn new(
        alloc: Global,
        gate: &'a T,
        scene: &'a Scene,
        hw: &'a HwLock<Shared>,
        kernel: &'a Kernel,
    ) -> Stage<'a, T>
        ensures scene { result.scene.now ≡ scene.now }
        ensures hw { result.hw.now ≡ hw.now }
    {
        Stage {
            alloc,
            gate,
            scene,
            hw,
            kernel,
        }
    }
}
