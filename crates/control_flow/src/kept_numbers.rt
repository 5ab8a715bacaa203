//! Which numbers a long search keeps. They are advice: whatever is kept, what is found is true.

ghost use Rattle.std.specs.Prelude.{◌≡◌, ◌<◌, ◌^◌, ℕ, IsTrue, IfOk};
ghost use Rattle.control_flow.specs.declared.errors.FlowError.{FlowError as TheError};
ghost use Rattle.control_flow.specs.Flows.{Fails};
ghost use Rattle.control_flow.specs.Liveness.{Home};
ghost use Rattle.control_flow.specs.Masks.{HasHome, AreWithin, mask_at};
ghost use Rattle.control_flow.specs.Nodes.{HasEdges, AreNodes};

use crate::accesses::registers_read;
use crate::deciding::{last_writes, mark_deciding};
use crate::functions::functions_of;
use crate::homes::{HomeMask, mask_of};
use crate::loops::Loops;
use crate::marks::is_marked;
use crate::masks::RegisterMask;
use crate::nodes::{Node, blank_node};
use crate::number_passes::{may_read, may_write};
use crate::slot_masks::SlotMask;
use crate::stack_accesses::homes_written;
use crate::wanted::wanted_homes;
use image::Image;
use isa_model::{Insn, Reg};
use std::alloc::{AllocError, Global};

/// Says how often more jumps are looked for that decide what is kept.
const ROUNDS: usize = 8;

/// For each slot the registers and stack slots whose numbers a long search keeps.
#[derive(Drop)]
pub struct KeptNumbers {
    masks: Vec<HomeMask>,
}

impl KeptNumbers {
    /// The registers whose numbers are kept at a slot.
    pub fn registers(&self, slot: usize) -> RegisterMask
        ensures { result ≡ (mask_at self.now.masks.items slot).registers }
    {
        mask_of(&self.masks, slot).registers
    }

    /// The stack slots whose numbers are kept at a slot.
    pub fn slots(&self, slot: usize) -> SlotMask
        ensures { result ≡ (mask_at self.now.masks.items slot).slots }
    {
        mask_of(&self.masks, slot).slots
    }
}

/// Returns whether it matters what an exit at a slot answers: to a caller, or in version 2, where
/// it has to be a known action.
fn answers(image: &Image, functions: &[usize], slot: usize) -> bool {
    image.version() == 2 || functions.get(slot) != Some(&0)
}

/// The registers in which an instruction takes pointers, the base of an access and what a helper
/// may take, and those that another call frame gets: the arguments of a local call, and what an
/// exit `answers`.
fn registers_taken(insn: &Insn, answers: bool) -> RegisterMask {
    let none = RegisterMask::none();
    match *insn {
        Insn::Load(_, _, place)
        | Insn::LoadSx(_, _, place)
        | Insn::StoreConstant(_, place, _)
        | Insn::Store(_, place, _)
        | Insn::Atomic(_, _, _, place, _)
        | Insn::Exchange(_, place, _)
        | Insn::CompareExchange(_, place, _) => none.with(place.base),
        Insn::CallHelper(_) => none.with(Reg::R1).with(Reg::R2).with(Reg::R3),
        Insn::CallLocal(_) => registers_read(insn),
        Insn::Exit => { if answers { none.with(Reg::R0) } else { none } }
        _ => none,
    }
}

/// The registers that an instruction wants: those that it takes, and what a conditional jump tests
/// if its slot is marked.
fn registers_wanted(insn: &Insn, answers: bool, is_marked: bool) -> RegisterMask {
    match insn {
        Insn::JumpIf(_, _) => {
            if is_marked {
                registers_read(insn)
            } else {
                RegisterMask::none()
            }
        }
        _ => registers_taken(insn, answers),
    }
}

/// The node of a slot. Numbers are taken to be read back from the stack through r10 alone.
fn keeping_node(image: &Image, functions: &[usize], slot: usize, marks: &[bool]) -> Node
    requires { slot < 2 ^ 63 }
    ensures { HasEdges image.now slot result }
{
    let node = blank_node(image, slot);
    match image.at(slot) {
        Some(insn) => Node {
            wants: HomeMask {
                registers: registers_wanted(
                    insn,
                    answers(image, functions, slot),
                    is_marked(marks, slot),
                ),
                slots: SlotMask::none(),
            },
            writes: homes_written(insn),
            from: may_read(insn, false),
            into: may_write(insn, false),
            ..node
        },
        None => node,
    }
}

/// The nodes of all slots, where the conditional jumps at the marked slots want what they test.
fn keeping_nodes(
    alloc: Global,
    image: &Image,
    functions: &[usize],
    marks: &[bool],
) -> Result<Vec<Node>, AllocError>
    ensures { IfOk result (λ nodes. AreNodes (HasEdges image.now) image.now nodes.items) }
{
    let mut nodes = Vec::with_capacity(alloc, image.slots())?;
    for slot in 0..image.slots() {
        nodes.push(keeping_node(image, functions, slot, marks))?;
    }
    Ok(nodes)
}

/// For each slot what flows into what instructions take, or into a conditional jump at a marked
/// slot.
fn kept_homes(
    alloc: Global,
    image: &Image,
    functions: &[usize],
    marks: &[bool],
) -> Result<Vec<HomeMask>, AllocError>
    requires { (slot : ℕ) → ¬ Fails image.now TheError.TargetOutside slot }
{
    let nodes = keeping_nodes(alloc, image, functions, marks)?;
    wanted_homes(alloc, &nodes)
}

/// The slots of loops and of called functions.
fn inside_of(alloc: Global, loops: &Loops, functions: &[usize]) -> Result<Vec<bool>, AllocError> {
    let mut inside = Vec::with_capacity(alloc, functions.len())?;
    for slot in 0..functions.len() {
        inside.push(is_marked(&loops.bodies, slot) || functions[slot] != 0)?;
    }
    Ok(inside)
}

/// For each slot what flows into what instructions take, into a jump that may leave a loop, or into
/// one that decides which number gets there.
fn kept_at_exits(
    alloc: Global,
    image: &Image,
    functions: &[usize],
    nodes: &[Node],
    loops: &Loops,
) -> Result<Vec<HomeMask>, AllocError>
    requires { (slot : ℕ) → ¬ Fails image.now TheError.TargetOutside slot }
{
    let inside = inside_of(alloc, loops, functions)?;
    let mut marks = loops.exits.clone()?;
    let mut kept = kept_homes(alloc, image, functions, &marks)?;
    for _ in 0..ROUNDS {
        let writes = last_writes(alloc, nodes, &kept)?;
        if !mark_deciding(nodes, &writes, &inside, &mut marks) {
            break;
        }
        kept = kept_homes(alloc, image, functions, &marks)?;
    }
    Ok(kept)
}

/// What flows into accesses and calls and into jumps that may leave a loop, or into accesses and
/// calls and into jumps on a loop, by slots.
#[derive(Drop)]
struct Flows {
    exits: Vec<HomeMask>,
    bodies: Vec<HomeMask>,
}

impl Flows {
    /// What flows there in a program with these loops.
    fn of(
        alloc: Global,
        image: &Image,
        functions: &[usize],
        nodes: &[Node],
        loops: &Loops,
    ) -> Result<Self, AllocError>
        requires { (slot : ℕ) → ¬ Fails image.now TheError.TargetOutside slot }
    {
        Ok(Flows {
            exits: kept_at_exits(alloc, image, functions, nodes, loops)?,
            bodies: kept_homes(alloc, image, functions, &loops.bodies)?,
        })
    }
}

/// What is kept at a slot; those of the tested numbers if it is `known` which these are.
fn kept_at(loops: &Loops, flows: &Flows, slot: usize, tested: HomeMask, known: bool) -> HomeMask
    ensures { IsTrue known → (h : Home) → HasHome result h → HasHome tested h }
{
    let is_inside = is_marked(&loops.bodies, slot) && !is_marked(&loops.heads, slot);
    let wanted = if is_inside {
        mask_of(&flows.bodies, slot)
    } else {
        mask_of(&flows.exits, slot)
    };
    if known {
        tested.without(tested.without(wanted))
    } else {
        wanted
    }
}

/// Which numbers a long search of a program keeps: what flows into an access, into another call
/// frame, or into a jump that may leave a loop or decides which number gets there; on a loop, its
/// head aside, what flows into any jump there. These are of the `tested` numbers if it is `known`
/// which these are.
pub fn kept_numbers(
    alloc: Global,
    image: &Image,
    tested: &[HomeMask],
    known: bool,
) -> Result<KeptNumbers, AllocError>
    requires { (slot : ℕ) → ¬ Fails image.now TheError.TargetOutside slot }
    ensures { IsTrue known → IfOk result (λ kept. AreWithin kept.masks.items tested.now) }
{
    let functions = functions_of(alloc, image)?;
    let nodes = keeping_nodes(alloc, image, &functions, &[])?;
    let loops = Loops::of(alloc, &nodes, &functions)?;
    let flows = Flows::of(alloc, image, &functions, &nodes, &loops)?;
    let mut masks = Vec::with_capacity(alloc, image.slots())?;
    for slot in 0..image.slots() {
        let tested = mask_of(tested, slot);
        masks.push(kept_at(&loops, &flows, slot, tested, known))?;
    }
    Ok(KeptNumbers { masks })
}
