//! How stores and indexes over a device are opened, for what is generic over them.

use crate::plain::{index_over, open_index};
use crate::plain_index::PlainIndex;
use crate::plain_store::CheckedStore;
use access_method::Index;
use device::Device;
use index_model::Fault;
use page_store::Store;
use std::alloc::Global;

/// How stores and indexes over devices `D` are opened. What a test does with one is generic over this: a
/// function that holds one whose type it names takes the prover ten times as long.
pub trait Medium<D> {
    type Store: CheckedStore + Drop;

    type Index: PlainIndex + Drop;

    /// The store that is opened on a device, with so many frames. If it is refused, the device comes back.
    fn store(alloc: Global, device: D, frames: u32) -> Result<Self::Store, (Fault, D)>;

    /// An index over a store.
    fn index_over(alloc: Global, store: Self::Store) -> Result<Self::Index, Fault>;

    /// The index that is opened on a device.
    fn index(alloc: Global, device: D, frames: u32) -> Result<Self::Index, Fault>;

    fn device_of(store: Self::Store) -> D;

    fn device_under(index: Self::Index) -> D;
}

/// Stores and indexes as they are.
pub struct Opened;

impl<D: Device + Drop> Medium<D> for Opened {
    type Store = Store<D>;

    type Index = Index<Store<D>>;

    fn store(alloc: Global, device: D, frames: u32) -> Result<Store<D>, (Fault, D)> {
        match recovery::open(alloc, device, frames) {
            Ok(store) => Ok(store),
            Err(refused) => Err((refused.fault, refused.device)),
        }
    }

    fn index_over(alloc: Global, store: Store<D>) -> Result<Index<Store<D>>, Fault> {
        index_over(alloc, store)
    }

    fn index(alloc: Global, device: D, frames: u32) -> Result<Index<Store<D>>, Fault> {
        open_index(alloc, device, frames)
    }

    fn device_of(store: Store<D>) -> D {
        store.into_device()
    }

    fn device_under(index: Index<Store<D>>) -> D {
        index.into_device()
    }
}
