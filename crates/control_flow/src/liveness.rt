//! Which registers and which stack slots are live at which slots of the code, and of which the
//! numbers are tested.

ghost use Rattle.std.specs.Prelude.{ℕ, ◌↔◌, IsTrue, IfOk};
ghost use Rattle.control_flow.specs.Flows.{Fails, AreLiveMasks, AreTestedMasks};
ghost use Rattle.control_flow.specs.StackUse.{FrameAddressIsTaken};

use crate::errors::FlowError;
use crate::homes::HomeMask;
use crate::nodes::{reading_nodes, testing_nodes};
use crate::wanted::wanted_homes;
use image::Image;
use std::alloc::{AllocError, Global};

/// For each slot the registers and stack slots that are live there. `taken` says whether the
/// program takes a call frame's address.
pub fn live_homes(alloc: Global, image: &Image, taken: bool) -> Result<Vec<HomeMask>, AllocError>
    requires inside { (slot : ℕ) → ¬ Fails image.now FlowError.TargetOutside slot }
    requires taken { IsTrue taken ↔ FrameAddressIsTaken image.now }
    ensures { IfOk result (λ masks. AreLiveMasks image.now masks.items) }
{
    let nodes = reading_nodes(alloc, image, taken)?;
    wanted_homes(alloc, &nodes)
}

/// For each slot the registers and stack slots whose numbers are tested from there on.
pub fn tested_homes(alloc: Global, image: &Image, taken: bool) -> Result<Vec<HomeMask>, AllocError>
    requires inside { (slot : ℕ) → ¬ Fails image.now FlowError.TargetOutside slot }
    requires taken { IsTrue taken ↔ FrameAddressIsTaken image.now }
    ensures { IfOk result (λ masks. AreTestedMasks image.now masks.items) }
{
    let nodes = testing_nodes(alloc, image, taken)?;
    wanted_homes(alloc, &nodes)
}
