//! Sessions: the pointers by which C holds programs that stay open.

ghost use Rattle.std.specs.Prelude.{◌≡◌, Option, None, Some};
ghost use Rattle.std.specs.Option.{option_map};
ghost use Rattle.machine.specs.Running.{Running};
ghost use Rattle.calls.specs.Ownership.{session_owns};

use crate::loose::Loose;
use machine::Machine;
use std::alloc::Global;
use std::marker::Model;
use std::mem::replace;
use std::ptr::null_mut;

/// Says what a session's pointer points to: nothing that C may read.
#[repr(C)]
pub struct Opaque {
    unused: u8,
}

/// A program that stays open, or nothing: then the pointer is null. Only the calls below change it,
/// and a copy of it is no second session.
///
/// Contracts see the machine that it holds.
#[repr(C)]
#[derive(Drop)]
pub struct Session {
    at: *mut Opaque,
    pub ghost held: { Option Running },
}

impl Model for Session {
    ghost also_owns = { λ s. session_owns s.held s.at };
}

unsafe impl Send for Session {}

impl Session {
    /// A session that holds nothing.
    pub fn closed() -> Session
        ensures { result.held ≡ None }
    {
        Session { at: null_mut() }
    }

    // A session that holds a machine.
    fn of_loose(machine: Loose<Machine, Global>) -> Session
        ensures { result.held ≡ Some machine.value }
    {
        let Loose { at, alloc: _ } = machine;
        Session {
            at: at as *mut Opaque,
        }
    }

    // The machine that a session holds.
    fn into_loose(self, alloc: Global) -> Option<Loose<Machine, Global>>
        ensures { option_map (λ l. l.value) result ≡ self.held }
    {
        let Session { at } = self;
        if at.is_null() {
            None
        } else {
            Some(Loose {
                at: at as *mut Machine,
                alloc,
            })
        }
    }

    /// Takes the machine out, if there is one, and leaves the session closed.
    pub fn take(&mut self, alloc: Global) -> Option<Box<Machine>>
        ensures machine { option_map (λ b. b.value) result ≡ self.old.held }
        ensures closed { self.new.held ≡ None }
    {
        let loose = replace(self, Session::closed()).into_loose(alloc)?;
        Some(loose.into_box())
    }

    /// Puts a machine into a session. One that was there is lost.
    pub fn put(&mut self, machine: Box<Machine>)
        ensures { self.new.held ≡ Some machine.value }
    {
        *self = Session::of_loose(Loose::of(machine));
    }
}
