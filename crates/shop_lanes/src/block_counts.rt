// Passes over a machine's rows with a literal number of positions, which unrolls their loops over blocks. Each number
// of blocks then has code of its own.

/// Does `$pass` with the literal number of positions as its first argument, for up to three blocks and, where `$each`
/// is 4, for four; else `$rest`.
macro_rules! at_few_blocks {
    ($positions:expr, $each:expr, $pass:ident($($argument:expr),*), $rest:expr) => {
        match $positions {
            8 => $pass::<B>(8, $($argument),*),
            16 => $pass::<B>(16, $($argument),*),
            24 => $pass::<B>(24, $($argument),*),
            32 if $each == 4 => $pass::<B>(32, $($argument),*),
            _ => $rest,
        }
    };
}

/// Does `$pass` with the literal number of positions as its first argument, for four to eight blocks; else `$rest`. So
/// it does in lanes of 64 bits: these are rare, and unrolled code for them is three times as long.
macro_rules! at_more_blocks {
    ($positions:expr, $pass:ident($($argument:expr),*), $rest:expr) => {
        match $positions {
            _ if are_wide(B::GREATEST) => $rest,
            32 => $pass::<B>(32, $($argument),*),
            40 => $pass::<B>(40, $($argument),*),
            48 => $pass::<B>(48, $($argument),*),
            56 => $pass::<B>(56, $($argument),*),
            64 => $pass::<B>(64, $($argument),*),
            _ => $rest,
        }
    };
}

pub(crate) use at_few_blocks;
pub(crate) use at_more_blocks;

/// Returns whether lanes that hold numbers up to `greatest` have 64 bits.
#[inline(always)]
pub fn are_wide(greatest: u64) -> bool {
    greatest > u32::MAX as u64
}
