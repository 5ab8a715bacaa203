//! What is seen of each step of a run.
ghost use Rattle.std.specs.Prelude.{◌≡◌, ◌≤◌, [], IfOk, IfSome, map};
ghost use Rattle.isa_model.specs.declared.values.Cell.{Cell};
ghost use Rattle.checked_vm.specs.Machine.{state_of};
ghost use Rattle.coverage.specs.Steps.{operand_of, cells_by, cells_at, view_in, view_of, operand_in};

use checked_vm::{Core, Watcher, index_at};
use isa_model::{Cell, Insn, Place, Region, SignedSize, Value};
use std::alloc::{AllocError, Global};

/// A step that begins, and what it finds.
#[derive(Drop)]
pub struct StepTaken {
    pub slot: usize,
    /// The instruction that begins there.
    pub insn: Option<Insn>,
    /// Says what r0 to r10 hold before the step.
    pub registers: [Value; 11],
    /// The cells of the instruction's operand in memory before the step; none where it has none, or
    /// not all of them are there.
    pub cells: Vec<Cell>,
}

/// The place of an instruction's operand in memory, and how many bytes it has.
pub fn operand_of(insn: &Insn) -> Option<(Place, usize)>
    ensures place { result ≡ operand_of insn.now }
    ensures few { IfSome result (λ operand. operand.1 ≤ 8) }
{
    match insn {
        Insn::Load(size, _, place) => Some((*place, size.bytes())),
        Insn::LoadSx(size, _, place) => {
            let count = match size {
                SignedSize::S8 => 1,
                SignedSize::S16 => 2,
                SignedSize::S32 => 4,
            };
            Some((*place, count))
        }
        Insn::StoreConstant(size, place, _) => Some((*place, size.bytes())),
        Insn::Store(size, place, _) => Some((*place, size.bytes())),
        Insn::Atomic(width, _, _, place, _)
        | Insn::Exchange(width, place, _)
        | Insn::CompareExchange(width, place, _) => Some((*place, width.size().bytes())),
        _ => None,
    }
}

/// Bytes as cells.
fn cells_of(alloc: Global, bytes: &[u8]) -> Result<Vec<Cell>, AllocError>
    ensures { IfOk result (λ cells. cells.items ≡ map Cell.Byte bytes.now) }
{
    let mut cells = Vec::with_capacity(alloc, bytes.len())?;
    for byte in bytes {
        cells.push(Cell::Byte(*byte))?;
    }
    Ok(cells)
}

/// The cells at a pointer and an instruction's offset; none where not all are there.
fn cells_by(
    alloc: Global,
    core: &Core,
    packet: &[u8],
    value: Value,
    place: Place,
    count: usize,
) -> Result<Vec<Cell>, AllocError>
    requires { count ≤ 8 }
    ensures { IfOk result (λ cells. cells.items
        ≡ cells_by (state_of core.now packet.now) value place.offset count) }
{
    let Value::Ptr(region, offset) = value else {
        return Ok(Vec::new(alloc));
    };
    let at = index_at(region, offset, place);
    match region {
        Region::CallFrame(serial) => match core.read_frame(serial, at, count) {
            Ok(cells) => Vec::from_slice(alloc, cells),
            Err(_) => Ok(Vec::new(alloc)),
        },
        Region::Packet => match core.read_packet(packet, at, count) {
            Ok(bytes) => cells_of(alloc, bytes),
            Err(_) => Ok(Vec::new(alloc)),
        },
        Region::MapValue(index, serial) => match core.read_map_value(index, serial, at, count) {
            Ok(bytes) => cells_of(alloc, bytes),
            Err(_) => Ok(Vec::new(alloc)),
        },
        Region::Context | Region::PacketEnd | Region::Map(_) => Ok(Vec::new(alloc)),
    }
}

/// The cells of the instruction's operand in memory.
fn cells_at(
    alloc: Global,
    core: &Core,
    packet: &[u8],
    insn: Option<Insn>,
) -> Result<Vec<Cell>, AllocError>
    ensures { IfOk result (λ cells. cells.items
        ≡ cells_at (state_of core.now packet.now) (operand_in insn)) }
{
    let Some(insn) = insn else {
        return Ok(Vec::new(alloc));
    };
    match operand_of(&insn) {
        Some((place, count)) => {
            cells_by(alloc, core, packet, core.value(place.base), place, count)
        }
        None => Ok(Vec::new(alloc)),
    }
}

/// The step that begins in a state.
fn step_begun(
    alloc: Global,
    insns: &[Option<Insn>],
    core: &Core,
    packet: &[u8],
) -> Result<StepTaken, AllocError>
    ensures { IfOk result (λ step. view_of step
        ≡ view_in insns.now (state_of core.now packet.now)) }
{
    let insn = match insns.get(core.slot) {
        Some(insn) => *insn,
        None => None,
    };
    Ok(StepTaken {
        slot: core.slot,
        insn,
        registers: core.regs,
        cells: cells_at(alloc, core, packet, insn)?,
    })
}

/// Keeps the steps of a run.
#[derive(Drop)]
pub struct Recorder {
    alloc: Global,
    pub steps: Vec<StepTaken>,
    /// Says whether memory ran out: no step is kept from then on.
    pub is_full: bool,
}

impl Recorder {
    /// No steps yet.
    pub fn new(alloc: Global) -> Self
        ensures { result.steps.items ≡ [] }
    {
        Recorder {
            alloc,
            steps: Vec::new(alloc),
            is_full: false,
        }
    }

    /// The steps.
    pub fn into_steps(self) -> Vec<StepTaken>
        ensures { result ≡ self.steps }
    {
        let Recorder { steps, .. } = self;
        steps
    }
}

impl Watcher for Recorder {
    ghost use Rattle.coverage.specs.Steps.{HasRecorded};

    ghost has_seen = { λ recorder insns states. HasRecorded recorder insns states };

    fn see(&mut self, insns: &[Option<Insn>], core: &Core, packet: &[u8]) {
        if self.is_full {
            return;
        }
        match step_begun(self.alloc, insns, core, packet) {
            Ok(step) => {
                if self.steps.push(step).is_err() {
                    self.is_full = true;
                }
            }
            Err(_) => self.is_full = true,
        }
    }
}
