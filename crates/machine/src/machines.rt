//! Machines, and their runs.

ghost use Rattle.std.specs.Prelude.{◌≡◌, ◌<◌, ◌≤◌, ◌^◌, length, IfOk, OnOk, OnErr, IfSome, option_copied};
ghost use Rattle.std.specs.List.{slice_get};
ghost use Rattle.std.specs.Io.KnownBytes.{Appends};
ghost use Rattle.exact_io.specs.Transfers.{AppendsBeginning};
ghost use Rattle.isa_model.specs.{max_packet};
ghost use Rattle.isa_model.specs.Code.Versions.{version_number};
ghost use Rattle.isa_model.specs.Machine.MachineStates.{AreBytes};
ghost use Rattle.isa_model.specs.Machine.MapContents.{at_key};
ghost use Rattle.maps.specs.Maps.{rows_of, contents_of};
ghost use Rattle.map_texts.specs.Listings.{ReadsBack, text_of};
ghost use Rattle.map_texts.specs.Reading.{error_of};
ghost use Rattle.machine.specs.Running.{ReturnsOutcome, RunsWithinBound};
ghost use Rattle.machine.specs.BetweenRuns.{row_at, content_at, ordered_at, AnswersUpdate, AnswersDelete, CopiesKeyValue};
ghost use Rattle.machine.specs.Texts.{FillsMaps};

use crate::VmError;
use bounds::Verified;
use isa_model::{Clock, FrameHead, MAX_KEY_SIZE, MapDef};
use map_texts::{MapTextError, fill_maps_by, write_maps};
use maps::Maps;
use std::alloc::Global;
use std::io;
use std::io::Write;
use std::marker::Model;
use word_machine::addresses::{CONTEXT, FRAME_END};
use word_machine::loaded::Loaded;
use word_machine::memory::Memory;
use word_machine::run::run;

/// Says how a run ended: the number in r0, and how many steps it took.
#[derive(Clone, Copy)]
pub struct Exit {
    pub r0: u64,
    pub steps: u32,
}

/// A machine that runs an accepted program. Every run exits within the program's bound.
///
/// Contracts see its program with the bound, and the maps' contents between runs.
#[derive(Drop)]
pub struct Machine {
    program: Loaded,
    memory: Memory,
    bound: u32,
    version: u8,
}

impl Model for Machine {
    ghost use Rattle.maps.specs.Maps.{contents_of};
    ghost use Rattle.machine.specs.Running.{Running};
    ghost use Rattle.machine.specs.Ready.{IsVersioned};

    ghost Value = { Running };

    ghost view = { λ machine. record {
      program = machine.program;
      bound = machine.bound;
      contents = contents_of machine.memory.maps;
    } };

    ghost invariant = { λ machine. IsVersioned machine.program machine.bound machine.version
        machine.memory };
}

// Makes known to proofs what the types of a head and a packet say.
fn in_range(head: FrameHead, packet: &[u8])
    ensures interface { head.interface < 2 ^ 32 }
    ensures queue { head.queue < 2 ^ 32 }
    ensures bytes { AreBytes packet.now }
{
    let _interface = head.interface;
    let _queue = head.queue;
    let _size = packet.len();
}

impl Machine {
    /// Takes the program's maps, and all memory that runs need.
    pub fn new(alloc: Global, verified: Verified, maps: Maps) -> Result<Self, VmError>
        requires rows { rows_of maps ≡ verified.program.maps }
        ensures made { IfOk result (λ machine. machine ≡ record {
          program = verified.program;
          bound = verified.bound;
          contents = contents_of maps;
        }) }
    {
        maps.say_fits();
        let bound = verified.bound();
        let version = verified.image().version();
        let Ok(program) = Loaded::new(alloc, verified.into_image()) else {
            return Err(VmError::Memory);
        };
        let Ok(memory) = Memory::new(alloc, maps) else {
            return Err(VmError::Memory);
        };
        Ok(Machine {
            program,
            memory,
            bound,
            version,
        })
    }

    /// Returns the maps.
    pub fn into_maps(self) -> Maps
        ensures rows { rows_of result ≡ self.program.maps }
        ensures contents { contents_of result ≡ self.contents }
    {
        let Machine {
            program: _,
            memory,
            bound: _,
            version: _,
        } = self;
        memory.maps
    }

    /// The most steps of a run.
    pub fn bound(&self) -> u32
        ensures bound { result ≡ self.now.bound }
        ensures runs { RunsWithinBound self.now }
    {
        self.bound
    }

    /// The number of the program's version.
    pub fn version(&self) -> u8
        ensures { result ≡ version_number self.now.program.version }
    {
        self.version
    }

    /// Returns how many maps the program has.
    pub fn map_count(&self) -> usize
        ensures { result ≡ length self.now.program.maps }
    {
        self.memory.maps.count()
    }

    /// A map's row.
    pub fn map_row(&self, map: usize) -> MapDef
        requires { map < length self.now.program.maps }
        ensures { result ≡ row_at self.now map }
    {
        self.memory.maps.row(map)
    }

    /// The value of a key between runs, if it has one.
    pub fn lookup(&self, map: usize, key: &[u8]) -> Option<&[u8]>
        requires map { map < length self.now.program.maps }
        requires key_size { length key.now ≡ (row_at self.now map).key_size }
        ensures found { option_copied result ≡ at_key key.now (content_at self.now map) }
        ensures size { IfSome result (λ value. length value.now
            ≡ (row_at self.now map).value_size) }
    {
        self.memory.maps.say_fits();
        self.memory.maps.lookup(map, key)
    }

    /// Writes the value of a key between runs, or adds the key. The answer is 0, or the error of
    /// the first test that fails, and then the machine stays as it is.
    pub fn update(&mut self, map: usize, key: &[u8], value: &[u8], flags: u64) -> u64
        requires map { map < length self.old.program.maps }
        requires key_size { length key.now ≡ (row_at self.old map).key_size }
        requires value_size { length value.now ≡ (row_at self.old map).value_size }
        ensures { AnswersUpdate map key.now value.now flags result self.old self.new }
    {
        self.memory.maps.say_fits();
        let answer = self.memory.maps.update(map, key, value, flags);
        self.memory.maps.say_fits();
        answer
    }

    /// Removes a key between runs. The answer is 0, or an error, and then the machine stays as it
    /// is.
    pub fn delete(&mut self, map: usize, key: &[u8]) -> u64
        requires map { map < length self.old.program.maps }
        requires key_size { length key.now ≡ (row_at self.old map).key_size }
        ensures { AnswersDelete map key.now result self.old self.new }
    {
        self.memory.maps.say_fits();
        let answer = self.memory.maps.delete(map, key);
        self.memory.maps.say_fits();
        answer
    }

    /// Copies the k-th key of a map with its value between runs, from 0, in the order of the
    /// report, and returns whether there is one. It takes no memory, but after a map has changed
    /// the first call takes time for all keys.
    pub fn copy_key_value(&mut self, map: usize, k: usize, key: &mut [u8], value: &mut [u8]) -> bool
        requires map { map < length self.old.program.maps }
        requires key_size { length key.old ≡ (row_at self.old map).key_size }
        requires value_size { length value.old ≡ (row_at self.old map).value_size }
        ensures copied { CopiesKeyValue (slice_get (ordered_at self.old map) k) result
            key.old key.new value.old value.new }
        ensures machine { self.new ≡ self.old }
    {
        self.memory.maps.say_fits();
        let mut front = [0; MAX_KEY_SIZE as usize];
        let key_values = self.memory.maps.order(map);
        let Some(found) = key_values.key_value(k, &mut front) else {
            return false;
        };
        key.copy_from_slice(&front[..key.len()]);
        value.copy_from_slice(found);
        true
    }

    /// Fills the maps between runs by the lines of a text, each an update with the flag ANY, up to
    /// the first line that is refused; what the lines before it did stays. It takes no memory.
    pub fn fill(&mut self, text: &[u8]) -> Result<(), MapTextError>
        ensures { FillsMaps text.now (error_of result) self.old self.new }
    {
        let filled = fill_maps_by(&mut self.memory.maps, text);
        self.memory.maps.say_fits();
        filled
    }

    /// Writes the lines of the maps between runs, as a report has them. It takes no memory.
    ///
    /// The writer's first error, of any kind, is the failure and is returned; a write of no byte is
    /// the failure `ErrorKind::WriteZero`. Nothing is tried again.
    pub fn list<W: Write>(&mut self, writer: &mut W) -> io::Result<()>
        ensures ok { OnOk result (Appends (W.contents writer.old) (W.contents writer.new)
            (text_of self.old.program.maps self.old.contents)) }
        ensures err { OnErr result
            (AppendsBeginning (W.contents writer.old) (W.contents writer.new)
            (text_of self.old.program.maps self.old.contents)) }
        ensures read_back { ReadsBack self.old.program.maps self.old.contents }
        ensures machine { self.new ≡ self.old }
    {
        write_maps(&mut self.memory.maps, writer)
    }

    /// Runs the program on a packet from the start, to its exit. It takes no memory.
    pub fn run<C: Clock>(&mut self, head: FrameHead, packet: &mut [u8], clock: &mut C) -> Exit
        requires { length packet.old ≤ max_packet }
        ensures outcome { ReturnsOutcome self.old head packet.old (C.at clock.old)
            result packet.new self.new.contents (C.at clock.new) }
        ensures program { self.new.program ≡ self.old.program }
        ensures bound { self.new.bound ≡ self.old.bound }
    {
        in_range(head, packet);
        self.memory.maps.say_fits();
        self.memory.interface = head.interface;
        self.memory.queue = head.queue;
        let mut regs = [0, CONTEXT, 0, 0, 0, 0, 0, 0, 0, 0, FRAME_END];
        let ended = run(&self.program, &mut regs, &mut self.memory, packet, clock);
        Exit {
            r0: ended.number,
            steps: ended.steps,
        }
    }
}
