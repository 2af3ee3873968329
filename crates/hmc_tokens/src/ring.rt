//! Rings that have room.

ghost use Rattle.std.specs.Prelude.{◌≡◌, ◌<◌, [], ◌∷◌, ◌++◌, length, drop};

use circular_buffer::HeapCircularBuffer;

/// Appends an item to a ring that has room for it.
///
/// It is generic, since the checker stops at a push whose refusal holds a packet or a flit.
pub fn append<T: Copy>(ring: &mut HeapCircularBuffer<T>, item: T)
    requires { length ring.old.items < ring.old.capacity }
    ensures items { ring.new.items ≡ ring.old.items ++ item ∷ [] }
    ensures capacity { ring.new.capacity ≡ ring.old.capacity }
{
    let Ok(()) = ring.try_push_back(item) else {
        unreachable!()
    };
}

/// Drops the first item of a ring that has one. No item is copied.
pub fn drop_first<T: Copy>(ring: &mut HeapCircularBuffer<T>)
    requires { 0 < length ring.old.items }
    ensures items { ring.new.items ≡ drop 1 ring.old.items }
    ensures capacity { ring.new.capacity ≡ ring.old.capacity }
{
    let len = ring.len();
    ring.truncate_front(len - 1);
}
