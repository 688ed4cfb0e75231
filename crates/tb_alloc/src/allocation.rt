ghost use Rattle.std.specs.Prelude.{◌≡◌, ◌<◌, ◌^◌};
ghost use Rattle.tb_alloc.specs.Allocations.{end_of, is_live_heap, live_size};
ghost use Rattle.tb_alloc.specs.Check.{offset_in};
ghost use Rattle.tb_alloc.specs.Offset.{forward_in, back_in, moved_in};
ghost use Rattle.tb_alloc.specs.Free.{is_block};

use tb_perm::Span;

/// What an allocation is for.
#[derive(Clone, Copy, Debug, PartialEq, Eq)]
pub enum AllocKind {
    /// A variable of a frame.
    Stack,
    /// A block that the program has to free.
    Heap,
}

/// An allocation: `size` bytes from the address `base` on, which is a multiple of `align`. `made` is the
/// place of the source that made it. Once it is dead it stays dead.
#[derive(Clone, Copy, Debug, PartialEq, Eq)]
pub struct Allocation {
    pub base: u64,
    pub size: u32,
    pub align: u32,
    pub kind: AllocKind,
    pub made: Span,
    pub live: bool,
}

impl Allocation {
    /// Whether it is live and of the heap.
    pub fn is_live_heap(&self) -> bool
        ensures { result ≡ is_live_heap self.now }
    {
        match self.kind {
            AllocKind::Heap => self.live,
            AllocKind::Stack => false,
        }
    }

    /// The bytes that it holds while it is live.
    pub fn live_size(&self) -> u64
        ensures { result ≡ live_size self.now }
    {
        if self.live { self.size as u64 } else { 0 }
    }

    /// The place of the first of `size` bytes at an address, counted from the base; none where a byte lies
    /// outside.
    pub fn offset(&self, addr: u64, size: u128) -> Option<u32>
        ensures { result ≡ offset_in self.now addr size }
    {
        if addr < self.base {
            return None;
        }
        let offset = addr - self.base;
        if offset > self.size as u64 {
            return None;
        }
        if size > (self.size as u64 - offset) as u128 {
            return None;
        }
        Some(offset as u32)
    }

    /// The address at a signed distance from an address; none where one of the two lies outside the
    /// allocation, its end not counted as outside. Nothing wraps.
    pub fn moved(&self, addr: u64, distance: i128) -> Option<u64>
        requires { end_of self.now < 2 ^ 64 }
        ensures { result ≡ moved_in self.now addr distance }
    {
        if distance < 0 {
            self.back(addr, distance.unsigned_abs())
        } else {
            self.forward(addr, distance.unsigned_abs())
        }
    }

    /// The address so many bytes above an address.
    fn forward(&self, addr: u64, by: u128) -> Option<u64>
        requires { end_of self.now < 2 ^ 64 }
        ensures { result ≡ forward_in self.now addr by }
    {
        match self.offset(addr, by) {
            Some(_) => Some(addr + by as u64),
            None => None,
        }
    }

    /// The address so many bytes below an address.
    fn back(&self, addr: u64, by: u128) -> Option<u64>
        ensures { result ≡ back_in self.now addr by }
    {
        let Some(offset) = self.offset(addr, 0) else {
            return None;
        };
        if by > offset as u128 {
            return None;
        }
        Some(addr - by as u64)
    }

    /// Whether it is a block of the heap with this base, size and alignment.
    pub fn is_block(&self, addr: u64, size: u64, align: u64) -> bool
        ensures { result ≡ is_block self.now addr size align }
    {
        let is_heap = matches!(self.kind, AllocKind::Heap);
        is_heap && self.base == addr && self.size as u64 == size && self.align as u64 == align
    }
}
