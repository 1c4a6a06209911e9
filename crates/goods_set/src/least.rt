//! The smallest mask for a number of indices.

/// Calls a function that is generic over masks, behind its first type, on the least that holds so many indices.
#[macro_export]
macro_rules! on_least_mask {
    ($count:expr, $call:ident::<$first:ty>($($argument:expr),*)) => {
        match $count {
            0..=64 => $call::<$first, $crate::WordSet<1>>($($argument),*),
            65..=128 => $call::<$first, $crate::WordSet<2>>($($argument),*),
            129..=256 => $call::<$first, $crate::WordSet<4>>($($argument),*),
            257..=512 => $call::<$first, $crate::WordSet<8>>($($argument),*),
            513..=1024 => $call::<$first, $crate::WordSet<16>>($($argument),*),
            1025..=4096 => $call::<$first, $crate::WordSet<64>>($($argument),*),
            _ => $call::<$first, $crate::mask::LongMask>($($argument),*),
        }
    };
    ($count:expr, $call:ident($($argument:expr),*)) => {
        match $count {
            0..=64 => $call::<$crate::WordSet<1>>($($argument),*),
            65..=128 => $call::<$crate::WordSet<2>>($($argument),*),
            129..=256 => $call::<$crate::WordSet<4>>($($argument),*),
            257..=512 => $call::<$crate::WordSet<8>>($($argument),*),
            513..=1024 => $call::<$crate::WordSet<16>>($($argument),*),
            1025..=4096 => $call::<$crate::WordSet<64>>($($argument),*),
            _ => $call::<$crate::mask::LongMask>($($argument),*),
        }
    };
}
