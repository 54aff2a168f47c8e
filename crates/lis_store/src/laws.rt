//! Laws on images that represent a state. Each is the contract of an empty function.

ghost use Rattle.lis_store.specs.Laws.{OneState, FittingStoresStand, FittingStoresTell, FittingStoresHold, FittingStoresCount, FittingStoresHaveAxioms, FittingStoresHaveTags, EmptyStoresAreSound, EmptyStoresFit, PlacedStand, ChangesStand, CreateIsAdd};

use lis_ports::Disk;

/// An image represents at most one state.
pub fn one_state()
    ensures { OneState }
{}

/// If a store fits a disk at a state, each image of the disk represents the state.
pub fn fitting_stores_stand<D: Disk>(disk: &D)
    ensures { FittingStoresStand (D.meaning disk.now) }
{}

/// If a store fits a disk at a state, its table is that of the state.
pub fn fitting_stores_tell<D: Disk>(disk: &D)
    ensures { FittingStoresTell (D.meaning disk.now) }
{}

/// If a store fits a disk at a state, the sizes of its records are those of the files.
pub fn fitting_stores_hold<D: Disk>(disk: &D)
    ensures { FittingStoresHold (D.meaning disk.now) }
{}

/// If a store fits a disk at a state, it has as many files, words, axioms and free blocks as the state.
pub fn fitting_stores_count<D: Disk>(disk: &D)
    ensures { FittingStoresCount (D.meaning disk.now) }
{}

/// If a store fits a disk at a state, its axioms are those of the state.
pub fn fitting_stores_have_axioms<D: Disk>(disk: &D)
    ensures { FittingStoresHaveAxioms (D.meaning disk.now) }
{}

/// If a store fits a disk at a state, the assigned words of each file are those that its record lists.
pub fn fitting_stores_have_tags<D: Disk>(disk: &D)
    ensures { FittingStoresHaveTags (D.meaning disk.now) }
{}

/// The metadata of an empty store is well formed.
pub fn empty_stores_are_sound()
    ensures { EmptyStoresAreSound }
{}

/// A store without words and files fits a disk that has a blank image.
pub fn empty_stores_fit<D: Disk>(disk: &D)
    ensures { EmptyStoresFit (D.meaning disk.now) }
{}

/// While contents are placed in free blocks, images represent the state as before.
pub fn placed_stand()
    ensures { PlacedStand }
{}

/// Images with blocks by which memory represents a state represent this state too.
pub fn changes_stand()
    ensures { ChangesStand }
{}

/// To create a file is to add one without bytes.
pub fn create_is_add()
    ensures { CreateIsAdd }
{}
