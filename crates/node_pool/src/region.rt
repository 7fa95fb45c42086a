//! One region of memory, as a row of places of one type. Each place is empty or holds a value.
ghost use Rattle.std.specs.Prelude.{◌≡◌, ℕ, ◌^◌, ◌<◌, List, Option, Some, None, length, replicate, get_or, slice_set, IfOk, ⊤};
ghost use Rattle.std.specs.Vec.Ownership.{FitsInBlock};
ghost use denote.RawPtr.{Ptr};
ghost use Rattle.node_pool.specs.Places.{AllHold, Holds};
ghost use Rattle.node_pool.specs.Regions.{owns_places, lends_places, may_free};

use std::alloc::{AllocError, Allocator};
use std::marker::{Model, PhantomData};
use std::mem::{align_of, size_of};

/// Where a region begins. It owns nothing.
pub(crate) struct Start<T> {
    address: *mut T,
}

impl<T> Clone for Start<T> {
    ghost is_clone = { λ a b. b ≡ a };

    ghost is_infallible = { λ _. ⊤ };

    fn clone(&self) -> Result<Start<T>, AllocError> {
        Ok(*self)
    }
}

impl<T> Copy for Start<T> {}

/// The owner of a region's places, which takes no memory itself: what each place holds, and where the
/// first lies, is known to the contracts alone.
pub(crate) struct Region<T> {
    of: PhantomData<*const T>,
    ghost first: { Ptr },
    ghost places: { List (Option T) },
}

impl<T> Model for Region<T> {
    ghost also_owns = { λ r. owns_places T.row r.first r.places };

    ghost also_shares = { λ r _ κ. lends_places T.row r.first r.places κ };
}

/// The right to give a region of `count` places back to the allocator `from`. It takes no memory itself.
pub(crate) struct Right<T, A: Allocator> {
    of: PhantomData<*const (T, A)>,
    ghost first: { Ptr },
    ghost count: { ℕ },
    ghost from: { A },
}

impl<T, A: Allocator> Model for Right<T, A> {
    ghost also_owns = { λ r. may_free T.row (A.dealloc_token r.from) r.first r.count };
}

/// Takes a region of `count` places, all of them empty.
pub(crate) fn take<T, A: Allocator>(
    alloc: &A,
    count: usize,
) -> Result<(Start<T>, Region<T>, Right<T, A>), AllocError>
    requires { FitsInBlock T.row count }
    ensures { IfOk result (λ r. (r.1.first ≡ r.0.address) × (r.1.places ≡ replicate count None) × (r.2.first ≡ r.0.address) × (r.2.count ≡ count) × (r.2.from ≡ alloc.now)) }
{
    match alloc.allocate(count * size_of::<T>(), align_of::<T>()) {
        Ok(block) => {
            let start = Start {
                address: block as *mut T,
            };
            Ok((start, Region { of: PhantomData }, Right { of: PhantomData }))
        }
        Err(error) => Err(error),
    }
}

/// Gives a region of `count` places back. What they hold is forgotten, and not dropped.
pub(crate) fn give_back<T, A: Allocator>(
    alloc: &A,
    start: Start<T>,
    count: usize,
    region: Region<T>,
    right: Right<T, A>,
)
    requires { (region.first ≡ start.address) × (length region.places ≡ count) × (right.first ≡ start.address) × (right.count ≡ count) × (right.from ≡ alloc.now) }
{
    let Region { of: _ } = region;
    let Right { of: _ } = right;
    unsafe {
        alloc.deallocate(
            start.address as *mut u8,
            count * size_of::<T>(),
            align_of::<T>(),
        );
    }
}

impl<T> Region<T> {
    /// Writes a value to the place `index`. What the place held is forgotten, and not dropped.
    pub(crate) fn write(&mut self, start: Start<T>, index: usize, value: T)
        requires { (start.address ≡ self.old.first) × (index < length self.old.places) }
        ensures { (self.new.first ≡ self.old.first) × (self.new.places ≡ slice_set self.old.places index (Some value)) }
    {
        unsafe { start.address.add(index).write(value) }
    }

    /// Lends the value that the place `index` holds.
    pub(crate) fn lend(&self, start: Start<T>, index: usize) -> &T
        requires { (start.address ≡ self.now.first) × Holds self.now.places index }
        ensures { get_or self.now.places index None ≡ Some result.now }
    {
        unsafe { &*start.address.add(index) }
    }
}

impl Region<u32> {
    /// That each place that holds a value holds a word, for the proofs of callers. It does nothing when it runs.
    pub(crate) fn word_laws(&self)
        ensures { AllHold (λ word. word < 2 ^ 32) self.now.places }
    {}
}
