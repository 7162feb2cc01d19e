//! The handle by which a caller keeps an actor.

ghost use Rattle.std.specs.Prelude.{◌≡◌, Some, None, is_some, IfSome, IfNone};
ghost use Rattle.std.specs.declared.option.Option.{Option};
ghost use Rattle.std.specs.Coded.{coded_option};
ghost use Rattle.rp_handles.specs.declared.actor.Actor.{Actor};
ghost use Rattle.rp_handles.specs.contracts.actor.Actor.{the_row};

use crate::actor::Actor;
use crate::loose::Loose;
use std::alloc::Global;
use std::marker::Model;

/// A handle, in a C caller's memory: closed, or the address of an actor. A handle of zero bytes is
/// closed. The caller changes no byte of an open handle, and makes no copy of it.
#[repr(C)]
#[derive(Drop)]
pub struct Handle {
    /// Whether the handle keeps an actor.
    pub(crate) full: bool,
    /// The address of the actor.
    pub(crate) at: *mut u8,
    /// The actor.
    pub ghost kept: { Option Actor } by { coded_option the_row.coded },
    ghost agrees: { full ≡ is_some kept },
}

impl Model for Handle {
    ghost use Rattle.std.specs.contracts.impls.GlobalAllocator.TheImpl.{ghosts};
    ghost use Rattle.rp_handles.specs.contracts.actor.Actor.{the_row};
    ghost use Rattle.rp_handles.specs.Owning.{kept_at};

    ghost also_owns = { λ h.
        kept_at (ghosts.dealloc_token (record { memory = record { seal = tt } }))
        the_row h.at h.kept };
}

/// A handle that keeps nothing.
pub(crate) fn closed() -> Handle
    ensures { result.kept ≡ None }
{
    Handle {
        full: false,
        at: std::ptr::null_mut(),
    }
}

/// A handle of this actor.
pub(crate) fn of(actor: Box<Actor>) -> Handle
    ensures { result.kept ≡ Some actor.value }
{
    shut(Loose::of(actor))
}

/// The actor of a handle, or `None` if it is closed.
pub(crate) fn into_box(alloc: Global, handle: Handle) -> Option<Box<Actor>>
    ensures some { IfSome result (λ actor. handle.kept ≡ Some actor.value) }
    ensures none { IfNone result (handle.kept ≡ None) }
{
    Some(unshut(alloc, handle)?.into_box())
}

/// A handle that keeps what a box that was taken apart owns.
fn shut(actor: Loose<Actor, Global>) -> Handle
    ensures { result.kept ≡ Some actor.value }
{
    let Loose { at, alloc: _ } = actor;
    Handle {
        full: true,
        at: at.cast::<u8>(),
    }
}

/// What a handle keeps, or `None` if it is closed.
fn unshut(alloc: Global, handle: Handle) -> Option<Loose<Actor, Global>>
    ensures some { IfSome result (λ actor. handle.kept ≡ Some actor.value) }
    ensures none { IfNone result (handle.kept ≡ None) }
{
    let Handle { full, at } = handle;
    if full {
        Some(Loose {
            at: at.cast::<Actor>(),
            alloc,
        })
    } else {
        None
    }
}
