// Blocks of eight numbers of 16, 32 or 64 bits. `Block` says what each function does.
ghost use Rattle.std.specs.Prelude.{◌-◌, ◌^◌};
ghost use Rattle.std.proofs.Common.{lit<};

use crate::blocks::{Block, Move};
use std::alloc::{AllocError as NoMemory, Global};
use std::simd::prelude::*;

/// Returns the numbers of `$block` moved among its lanes, at any width.
macro_rules! moved {
    ($block:expr, $how:expr) => {{
        let zeros = Simd::splat(0);
        match $how {
            Move::UpOne => $block.shuffle(zeros, [8, 0, 1, 2, 3, 4, 5, 6]),
            Move::UpTwo => $block.shuffle(zeros, [8, 8, 0, 1, 2, 3, 4, 5]),
            Move::UpFour => $block.shuffle(zeros, [8, 8, 8, 8, 0, 1, 2, 3]),
            Move::DownOne => $block.shuffle(zeros, [1, 2, 3, 4, 5, 6, 7, 8]),
            Move::DownTwo => $block.shuffle(zeros, [2, 3, 4, 5, 6, 7, 8, 8]),
            Move::DownFour => $block.shuffle(zeros, [4, 5, 6, 7, 8, 8, 8, 8]),
            Move::Halves => $block.swizzle([4, 5, 6, 7, 0, 1, 2, 3]),
            Move::Quarters => $block.swizzle([2, 3, 0, 1, 4, 5, 6, 7]),
            Move::Neighbours => $block.swizzle([1, 0, 2, 3, 4, 5, 6, 7]),
        }
    }};
}

/// Sets bit i of the answer if lane i of `$lanes` is marked, as defined by `Block::bits`.
macro_rules! bits {
    ($lanes:expr, $equal:expr, $number:expr) => {{
        let (lanes, number) = ($lanes, Simd::splat($number));
        if $equal {
            lanes.simd_eq(number).to_bitmask()
        } else {
            (lanes.simd_gt(Simd::splat(0)) & lanes.simd_le(number)).to_bitmask()
        }
    }};
}

/// A block of eight numbers of 16 bits.
#[derive(Clone, Copy)]
pub struct Block16(u16x8);

impl Block for Block16 {
    type Number = u16;

    ghost GREATEST = { 65535 };

    const GREATEST: u64 = u16::MAX as u64;

    ghost numbers = { λ block. block.0 };

    ghost value = { λ number. number };

    ghost has_numbers = { lit< tt };

    #[inline(always)]
    fn narrowed(number: u64) -> u16 {
        number as u16
    }

    #[inline(always)]
    fn widened(number: u16) -> u64 {
        u64::from(number)
    }

    fn row_of(alloc: Global, number: u64, count: usize) -> Result<Vec<u16>, NoMemory> {
        Ok(vec![in alloc; number as u16; count]?)
    }

    #[inline(always)]
    fn splat(number: u64) -> Self {
        Block16(u16x8::splat(number as u16))
    }

    #[inline(always)]
    fn read(row: &[u16], block: usize) -> Self {
        Block16(u16x8::from_slice(&row[8 * block..]))
    }

    #[inline(always)]
    fn store(written: Self, row: &mut [u16], block: usize) {
        written.0.copy_to_slice(&mut row[8 * block..]);
    }

    #[inline(always)]
    fn first(block: Self) -> u64 {
        let lanes = block.0.to_array();
        u64::from(lanes[0])
    }

    #[inline(always)]
    fn moved(block: Self, how: Move) -> Self {
        Block16(moved!(block.0, how))
    }

    #[inline(always)]
    fn sum(a: Self, b: Self) -> Self {
        Block16(a.0.strict_add(b.0))
    }

    #[inline(always)]
    fn difference(a: Self, b: Self) -> Self {
        Block16(a.0.simd_max(b.0).strict_sub(b.0))
    }

    #[inline(always)]
    fn greater(a: Self, b: Self) -> Self {
        Block16(a.0.simd_max(b.0))
    }

    #[inline(always)]
    fn lesser(a: Self, b: Self) -> Self {
        Block16(a.0.simd_min(b.0))
    }

    #[inline(always)]
    fn waiting(block: Self, heads: Self, least: Self) -> Self {
        Block16(heads.0.simd_ge(least.0).select(block.0, u16x8::splat(0)))
    }

    #[inline(always)]
    fn ahead(row: &[u16], block: usize, from: Self) -> Self {
        Block16(u16x8::from_slice(&row[8 * block..]) - from.0)
    }

    #[inline(always)]
    fn bits(block: Self, equal: bool, number: u64) -> u64 {
        bits!(block.0, equal, number as u16)
    }

    #[inline(always)]
    fn pair_bits(row: &[u16], pair: usize, equal: bool, number: u64) -> u64 {
        bits!(u16x16::from_slice(&row[16 * pair..]), equal, number as u16)
    }
}

/// A block of eight numbers of 32 bits.
#[derive(Clone, Copy)]
pub struct Block32(u32x8);

impl Block for Block32 {
    type Number = u32;

    ghost GREATEST = { 4294967295 };

    const GREATEST: u64 = u32::MAX as u64;

    ghost numbers = { λ block. block.0 };

    ghost value = { λ number. number };

    ghost has_numbers = { lit< tt };

    #[inline(always)]
    fn narrowed(number: u64) -> u32 {
        number as u32
    }

    #[inline(always)]
    fn widened(number: u32) -> u64 {
        u64::from(number)
    }

    fn row_of(alloc: Global, number: u64, count: usize) -> Result<Vec<u32>, NoMemory> {
        Ok(vec![in alloc; number as u32; count]?)
    }

    #[inline(always)]
    fn splat(number: u64) -> Self {
        Block32(u32x8::splat(number as u32))
    }

    #[inline(always)]
    fn read(row: &[u32], block: usize) -> Self {
        Block32(u32x8::from_slice(&row[8 * block..]))
    }

    #[inline(always)]
    fn store(written: Self, row: &mut [u32], block: usize) {
        written.0.copy_to_slice(&mut row[8 * block..]);
    }

    #[inline(always)]
    fn first(block: Self) -> u64 {
        let lanes = block.0.to_array();
        u64::from(lanes[0])
    }

    #[inline(always)]
    fn moved(block: Self, how: Move) -> Self {
        Block32(moved!(block.0, how))
    }

    #[inline(always)]
    fn sum(a: Self, b: Self) -> Self {
        Block32(a.0.strict_add(b.0))
    }

    #[inline(always)]
    fn difference(a: Self, b: Self) -> Self {
        Block32(a.0.simd_max(b.0).strict_sub(b.0))
    }

    #[inline(always)]
    fn greater(a: Self, b: Self) -> Self {
        Block32(a.0.simd_max(b.0))
    }

    #[inline(always)]
    fn lesser(a: Self, b: Self) -> Self {
        Block32(a.0.simd_min(b.0))
    }

    #[inline(always)]
    fn waiting(block: Self, heads: Self, least: Self) -> Self {
        Block32(heads.0.simd_ge(least.0).select(block.0, u32x8::splat(0)))
    }

    #[inline(always)]
    fn ahead(row: &[u32], block: usize, from: Self) -> Self {
        Block32(u32x8::from_slice(&row[8 * block..]) - from.0)
    }

    #[inline(always)]
    fn bits(block: Self, equal: bool, number: u64) -> u64 {
        bits!(block.0, equal, number as u32)
    }

    #[inline(always)]
    fn pair_bits(row: &[u32], pair: usize, equal: bool, number: u64) -> u64 {
        bits!(u32x16::from_slice(&row[16 * pair..]), equal, number as u32)
    }
}

/// A block of eight numbers of 64 bits.
#[derive(Clone, Copy)]
pub struct Block64(u64x8);

impl Block for Block64 {
    type Number = u64;

    ghost GREATEST = { 2 ^ 64 - 1 };

    const GREATEST: u64 = u64::MAX;

    ghost numbers = { λ block. block.0 };

    ghost value = { λ number. number };

    ghost has_numbers = { lit< tt };

    #[inline(always)]
    fn narrowed(number: u64) -> u64 {
        number
    }

    #[inline(always)]
    fn widened(number: u64) -> u64 {
        number
    }

    fn row_of(alloc: Global, number: u64, count: usize) -> Result<Vec<u64>, NoMemory> {
        Ok(vec![in alloc; number; count]?)
    }

    #[inline(always)]
    fn splat(number: u64) -> Self {
        Block64(u64x8::splat(number))
    }

    #[inline(always)]
    fn read(row: &[u64], block: usize) -> Self {
        Block64(u64x8::from_slice(&row[8 * block..]))
    }

    #[inline(always)]
    fn store(written: Self, row: &mut [u64], block: usize) {
        written.0.copy_to_slice(&mut row[8 * block..]);
    }

    #[inline(always)]
    fn first(block: Self) -> u64 {
        let lanes = block.0.to_array();
        lanes[0]
    }

    #[inline(always)]
    fn moved(block: Self, how: Move) -> Self {
        Block64(moved!(block.0, how))
    }

    #[inline(always)]
    fn sum(a: Self, b: Self) -> Self {
        Block64(a.0.strict_add(b.0))
    }

    #[inline(always)]
    fn difference(a: Self, b: Self) -> Self {
        Block64(a.0.simd_max(b.0).strict_sub(b.0))
    }

    #[inline(always)]
    fn greater(a: Self, b: Self) -> Self {
        Block64(a.0.simd_max(b.0))
    }

    #[inline(always)]
    fn lesser(a: Self, b: Self) -> Self {
        Block64(a.0.simd_min(b.0))
    }

    #[inline(always)]
    fn waiting(block: Self, heads: Self, least: Self) -> Self {
        Block64(heads.0.simd_ge(least.0).select(block.0, u64x8::splat(0)))
    }

    #[inline(always)]
    fn ahead(row: &[u64], block: usize, from: Self) -> Self {
        Block64(u64x8::from_slice(&row[8 * block..]) - from.0)
    }

    #[inline(always)]
    fn bits(block: Self, equal: bool, number: u64) -> u64 {
        bits!(block.0, equal, number)
    }

    #[inline(always)]
    fn pair_bits(row: &[u64], pair: usize, equal: bool, number: u64) -> u64 {
        bits!(u64x16::from_slice(&row[16 * pair..]), equal, number)
    }
}
