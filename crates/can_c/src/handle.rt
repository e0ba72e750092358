ghost use Rattle.std.specs.Prelude.{◌≡◌, Option, Some, None, MatchOption, is_some};
ghost use Rattle.can_node.specs.Ports.{PortState};
ghost use Rattle.can_c.specs.Owned.{handle_owns, port_coded};

use crate::controller::Controller;
use std::alloc::Global;
use std::marker::Model;
use std::mem;
use std::ptr::null_mut;

/// Takes the port out of a handle, runs this code with it, puts it back, and returns the number of the resulting
/// status; that of [`Status::NoPort`] if there is no port. It is not a function that takes a closure: that could not
/// promise that nothing is written if the closure isn't called.
macro_rules! with_port {
    ($alloc:expr, $handle:expr, |$port:ident| $work:expr) => {
        match $handle.take($alloc) {
            None => Status::NoPort.code(),
            Some(mut $port) => {
                let status: Status = $work;
                $handle.put($alloc, $port);
                status.code()
            }
        }
    };
}

pub(crate) use with_port;

/// A controller on the heap, or none, as code that is not Rattle keeps it. All bytes 0 is a handle without a
/// controller. It is linear: the controller cannot be dropped unintentionally.
#[repr(C)]
pub struct Handle {
    at: *mut u8,
    live: bool,
    /// The state of the controller, if there is one.
    pub ghost held: { Option PortState } by { port_coded },
}

impl Model for Handle {
    ghost also_owns = { λ h. handle_owns h.live h.at h.held };
}

impl Handle {
    /// Returns a handle without a controller.
    pub fn empty() -> Handle
        ensures { result.held ≡ None }
    {
        Handle {
            at: null_mut(),
            live: false,
        }
    }

    /// Returns a handle that holds this controller.
    pub fn of(controller: Box<Controller>) -> Handle
        ensures { result.held ≡ Some controller.value }
    {
        let at = Box::into_raw(controller) as *mut u8;
        Handle { at, live: true }
    }

    /// Returns the controller that it holds, if there is one.
    pub fn into_box(self, alloc: Global) -> Option<Box<Controller>>
        ensures { MatchOption result (self.held ≡ None) (λ b. self.held ≡ Some b.value) }
    {
        let Handle { at, live } = self;
        if live {
            Some(unsafe { Box::from_raw(alloc, at as *mut Controller) })
        } else {
            None
        }
    }

    /// Returns whether it holds a controller.
    pub fn holds(&mut self, alloc: Global) -> bool
        ensures answer { result ≡ is_some self.old.held }
        ensures unchanged { self.new.held ≡ self.old.held }
    {
        match self.take(alloc) {
            None => false,
            Some(controller) => {
                self.put(alloc, controller);
                true
            }
        }
    }

    /// Takes the controller out, if there is one; afterwards the handle is empty.
    pub fn take(&mut self, alloc: Global) -> Option<Box<Controller>>
        ensures left { self.new.held ≡ None }
        ensures taken { MatchOption result (self.old.held ≡ None) (λ b. self.old.held ≡ Some b.value) }
    {
        mem::replace(self, Handle::empty()).into_box(alloc)
    }

    /// Puts a controller in, and frees the one that it held, if any.
    pub fn put(&mut self, alloc: Global, controller: Box<Controller>)
        ensures { self.new.held ≡ Some controller.value }
    {
        drop(mem::replace(self, Handle::of(controller)).into_box(alloc));
    }
}
