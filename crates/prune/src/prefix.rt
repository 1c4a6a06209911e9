//! The prefix of a vector that the kept elements make. Nothing is moved to a second vector, so no new memory is touched.
ghost use Rattle.std.specs.Prelude.{◌≡◌, ◌+◌, ◌<◌, ◌≤◌, ◌++◌, ◌∷◌, [], take, drop, slice_index_or, vec_len};

/// Moves the element at the index behind the first `prefix`, if it is not there yet. Those between may change their order;
/// those behind the index stay.
pub fn move_to_prefix<T>(elements: &mut Vec<T>, prefix: usize, index: usize)
    requires before { prefix ≤ index }
    requires there { index < vec_len elements.old }
    ensures prefix { (d : T) → take (prefix + 1) elements.new.items
        ≡ take prefix elements.old.items ++ slice_index_or elements.old.items index d ∷ [] }
    ensures rest { drop (index + 1) elements.new.items ≡ drop (index + 1) elements.old.items }
    ensures len { vec_len elements.new ≡ vec_len elements.old }
{
    if prefix != index {
        elements.swap(prefix, index);
    }
}
