//! Load and store instructions.

ghost use Rattle.std.specs.Prelude.{◌≡◌, ◌+◌, ◌<◌, ◌^◌};
ghost use Rattle.checked_vm.specs.Machine.{KeepsFrames, Performs};

use crate::core_state::Core;
use isa_model::numbers::unsigned;
use isa_model::{Insn, Place, Reg, SignedSize, Size, TrapReason, Value, Width};

impl Core {
    /// LDX MEM.
    #[tactic(auto, unfolding(isa_model::specs::Machine::Steps::act))]
    pub fn do_load(
        &mut self,
        packet: &[u8],
        size: Size,
        d: Reg,
        place: Place,
    ) -> Result<(), TrapReason>
        requires { self.old.slot + 1 < 2 ^ 64 }
        ensures kept { KeepsFrames self.old self.new }
        ensures done { Performs (Insn.Load size d place)
            result self.old packet.now self.new packet.now }
    {
        let value = self.load(packet, size, self.value(place.base), place)?;
        self.set_and_go_on(d, value, 1);
        Ok(())
    }

    /// LDX MEMSX.
    #[tactic(auto, unfolding(isa_model::specs::Machine::Steps::act))]
    pub fn do_load_sx(
        &mut self,
        packet: &[u8],
        size: SignedSize,
        d: Reg,
        place: Place,
    ) -> Result<(), TrapReason>
        requires { self.old.slot + 1 < 2 ^ 64 }
        ensures kept { KeepsFrames self.old self.new }
        ensures done { Performs (Insn.LoadSx size d place)
            result self.old packet.now self.new packet.now }
    {
        let value = self.load_signed(packet, size, self.value(place.base), place)?;
        self.set_and_go_on(d, value, 1);
        Ok(())
    }

    /// ST: the constant is sign-extended to 64 bits, and their low bytes are stored.
    #[tactic(auto, unfolding(isa_model::specs::Machine::Steps::act))]
    pub fn do_store_constant(
        &mut self,
        packet: &mut [u8],
        size: Size,
        place: Place,
        k: i32,
    ) -> Result<(), TrapReason>
        requires { self.old.slot + 1 < 2 ^ 64 }
        ensures kept { KeepsFrames self.old self.new }
        ensures done { Performs (Insn.StoreConstant size place k)
            result self.old packet.old self.new packet.new }
    {
        let value = Value::Num(unsigned(Width::Full64, k));
        self.store(packet, size, self.value(place.base), place, value)?;
        self.slot += 1;
        Ok(())
    }

    /// STX.
    #[tactic(auto, unfolding(isa_model::specs::Machine::Steps::act))]
    pub fn do_store(
        &mut self,
        packet: &mut [u8],
        size: Size,
        place: Place,
        source: Reg,
    ) -> Result<(), TrapReason>
        requires { self.old.slot + 1 < 2 ^ 64 }
        ensures kept { KeepsFrames self.old self.new }
        ensures done { Performs (Insn.Store size place source)
            result self.old packet.old self.new packet.new }
    {
        let value = self.value(source);
        self.store(packet, size, self.value(place.base), place, value)?;
        self.slot += 1;
        Ok(())
    }
}
