ghost use Rattle.std.specs.Prelude.{◌≡◌, ℕ, ◌+◌, ◌*◌, ◌≤◌, ◌^◌, ℤ, pos, ◌-ℤ◌};
ghost use Rattle.box_class.specs.Boxes.{size_of, union_of, waste_between, distance};

use crate::boxes::BoxKey;
use crate::methods::{area, height, penalty, union, width};

/// The numbers in which a split computes areas, exact up to a limit. Small areas fit narrow numbers, with which a
/// loop handles several pairs of keys at a time.
pub trait Area: Copy + Ord {
    /// Differences of areas, which may be below 0.
    type Waste: Copy + Ord;

    ghost limit: { ℕ };

    ghost area_of: { Self → ℕ };

    ghost waste_of: { Self.Waste → ℤ };

    /// The number of points of a box.
    fn of(key: BoxKey) -> Self
        requires { size_of key ≤ limit }
        ensures { area_of result ≡ size_of key };

    /// The area of two boxes' common bound, less both boxes' areas: below 0 if they overlap.
    fn waste(a: BoxKey, b: BoxKey) -> Self::Waste
        requires { size_of (union_of a b) ≤ limit }
        ensures { waste_of result ≡ waste_between a b };

    /// The area of a box of so many columns and rows, less that of a key.
    fn beside(columns: u64, rows: u64, key: BoxKey) -> Self::Waste
        requires small { columns * rows ≤ limit }
        requires key { size_of key ≤ limit }
        ensures { waste_of result ≡ pos (columns * rows) -ℤ pos (size_of key) };

    /// By how much a key enlarges a bound.
    fn gain(bound: BoxKey, key: BoxKey) -> Self
        requires { size_of (union_of bound key) ≤ limit }
        ensures { area_of result + size_of bound ≡ size_of (union_of bound key) };

    /// By how much two areas differ.
    fn apart(self, other: Self) -> Self
        ensures { area_of result ≡ distance (area_of self) (area_of other) };
}

impl Area for u32 {
    type Waste = i32;

    ghost limit = { 2 ^ 31 };

    ghost area_of = { λ n. n };

    ghost waste_of = { λ n. n };

    fn of(key: BoxKey) -> u32 {
        width(key) as u32 * height(key) as u32
    }

    fn waste(a: BoxKey, b: BoxKey) -> i32 {
        let both = i64::from(u32::of(union(a, b)));
        (both - i64::from(u32::of(a)) - i64::from(u32::of(b))) as i32
    }

    fn beside(columns: u64, rows: u64, key: BoxKey) -> i32 {
        ((columns * rows) as i64 - i64::from(u32::of(key))) as i32
    }

    fn gain(bound: BoxKey, key: BoxKey) -> u32 {
        u32::of(union(bound, key)) - u32::of(bound)
    }

    fn apart(self, other: u32) -> u32 {
        self.abs_diff(other)
    }
}

impl Area for u64 {
    type Waste = i64;

    ghost limit = { 2 ^ 62 };

    ghost area_of = { λ n. n };

    ghost waste_of = { λ n. n };

    fn of(key: BoxKey) -> u64 {
        width(key) * height(key)
    }

    fn waste(a: BoxKey, b: BoxKey) -> i64 {
        u64::of(union(a, b)) as i64 - u64::of(a) as i64 - u64::of(b) as i64
    }

    fn beside(columns: u64, rows: u64, key: BoxKey) -> i64 {
        (columns * rows) as i64 - u64::of(key) as i64
    }

    fn gain(bound: BoxKey, key: BoxKey) -> u64 {
        u64::of(union(bound, key)) - u64::of(bound)
    }

    fn apart(self, other: u64) -> u64 {
        self.abs_diff(other)
    }
}

impl Area for u128 {
    type Waste = i128;

    ghost limit = { 2 ^ 64 };

    ghost area_of = { λ n. n };

    ghost waste_of = { λ n. n };

    fn of(key: BoxKey) -> u128 {
        area(key)
    }

    fn waste(a: BoxKey, b: BoxKey) -> i128 {
        area(union(a, b)) as i128 - area(a) as i128 - area(b) as i128
    }

    fn beside(columns: u64, rows: u64, key: BoxKey) -> i128 {
        (u128::from(columns) * u128::from(rows)) as i128 - area(key) as i128
    }

    fn gain(bound: BoxKey, key: BoxKey) -> u128 {
        penalty(bound, key)
    }

    fn apart(self, other: u128) -> u128 {
        self.abs_diff(other)
    }
}
