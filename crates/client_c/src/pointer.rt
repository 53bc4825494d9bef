//! A client's pointer, as C keeps it.
ghost use Rattle.std.specs.Prelude.{◌≡◌, Option, Some};
ghost use Rattle.std.specs.Coded.{codes};
ghost use Rattle.resp_value.specs.TreeCoding.{tree_code};
ghost use Rattle.client_library.specs.Handles.{Handle};

use client_library::ForeignClient;
use parts::Parts;
use std::alloc::Global;
use std::marker::Model;

mod parts;

/// A client's pointer, or any pointer while there is no client. With a client's pointer go the
/// client and the right to free its block.
#[repr(C)]
#[derive(Drop)]
pub struct ClientPointer {
    at: *mut u8,
    ghost client: { Option (Option Handle) } by { Prim.hlevel (codes, tree_code) },
}

impl Model for ClientPointer {
    ghost use Rattle.client_c.specs.Pointer.{pointed};

    ghost also_owns = { λ p. pointed p.at p.client };
}

impl ClientPointer {
    /// The client is C's from here on.
    pub fn of(client: Box<ForeignClient>) -> ClientPointer
        ensures { result.client ≡ Some client.value }
    {
        ClientPointer::from_parts(Parts::of(client))
    }

    fn from_parts(parts: Parts<ForeignClient, Global>) -> ClientPointer
        ensures { result.client ≡ Some parts.value }
    {
        let Parts { ptr, alloc: _ } = parts;
        ClientPointer { at: ptr as *mut u8 }
    }
}
