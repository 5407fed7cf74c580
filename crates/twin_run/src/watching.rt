//! What is seen of a run between its steps: whose step comes next, and what the machine and its memory hold.
ghost use Rattle.std.specs.Prelude.{◌≡◌, IfNone, IfSome, None, Some};
ghost use Rattle.ebc_width.specs.Width.{IsWidth};
ghost use Rattle.host_model.specs.RunState.{RunState};
ghost use Rattle.host_model.specs.World.{World};
ghost use Rattle.note_types.specs.Concrete.{rest_from};
ghost use Rattle.note_types.specs.declared.ending.Ending.TheVariants.{Running};
ghost use Rattle.twin_run.specs.Runner.{IsRunner, Runs, hosts_of};
ghost use Rattle.twin_run.specs.Watching.{has_c, is_hosts_turn};

use crate::runner::{AskedCall, Runner};
use frame_stack::FrameStack;
use note_types::{Notes, Script};

impl<const W: usize> Runner<W> {
    /// Whether the next step of a run that goes on is the host's. Else it is the machine's: an instruction.
    pub fn is_hosts_turn(&self, notes: &Notes, script: &Script) -> bool
        requires runs { Runs W notes.now script.now self.now }
        requires running { self.now.ending ≡ Running }
        ensures { (world : World) (r : RunState) → world.script ≡ script.now → IsRunner W world self.now r →
            result ≡ is_hosts_turn world r }
    {
        if self.machine.ip == self.machine.gate {
            return true;
        }
        if let Some(_) = self.asked {
            return true;
        }
        if self.is_called() {
            return true;
        }
        self.host.due(script, self.done)
    }

    /// The address of the next instruction.
    pub fn ip(&self) -> u64
        ensures { (world : World) (r : RunState) → IsRunner W world self.now r → result ≡ r.machine.ip }
    {
        self.machine.ip
    }

    /// The registers R0 to R7.
    pub fn registers(&self) -> [u64; 8]
        ensures { (world : World) (r : RunState) → IsRunner W world self.now r → result ≡ r.machine.registers }
    {
        self.machine.regs
    }

    /// Whether the flag C is set.
    pub fn has_c(&self) -> bool
        ensures { (world : World) (r : RunState) → IsRunner W world self.now r → result ≡ has_c r.machine }
    {
        self.machine.flags % 2 == 1
    }

    /// The frames of the host, the last one first, and the native call that is asked for in that one until the host accepts it.
    pub fn frames(&self) -> (Option<AskedCall>, &FrameStack)
        ensures { (world : World) (r : RunState) → IsRunner W world self.now r → hosts_of result.0 result.1.now ≡ r.hosts }
    {
        (self.asked, &self.frames)
    }

    /// The bytes from an address to the end of the object that holds it, as they lie: none exactly where no object does.
    pub fn bytes_from(&self, addr: u64) -> Option<&[u8]>
        ensures found { IfSome result (λ bytes. (world : World) (r : RunState) → IsRunner W world self.now r →
            rest_from r.machine addr ≡ Some bytes.now) }
        ensures none { IfNone result ((world : World) (r : RunState) → IsRunner W world self.now r → rest_from r.machine addr ≡ None) }
    {
        self.mem.bytes_from(addr)
    }
}
