//! Equality of verdicts, item by item: a list may hold a hundred thousand pairs, so each is compared in a loop.

ghost use Rattle.std.specs.Prelude.{◌≡◌, ◌↔◌, ◌&&◌, IsTrue};

use crate::kinds::Ty;
use crate::values::{Fault, Value};
use crate::verdicts::Verdict;

fn same_write(one: (u32, Value), other: (u32, Value)) -> bool
    ensures { IsTrue result ↔ (one ≡ other) }
{
    one.0 == other.0 && one.1 == other.1
}

fn same_new(one: (Ty, Value), other: (Ty, Value)) -> bool
    ensures { IsTrue result ↔ (one ≡ other) }
{
    one.0 == other.0 && one.1 == other.1
}

fn same_writes(one: &[(u32, Value)], other: &[(u32, Value)]) -> bool
    ensures { IsTrue result ↔ (one.now ≡ other.now) }
{
    if one.len() != other.len() {
        return false;
    }
    for i in 0..one.len() {
        if !same_write(one[i], other[i]) {
            return false;
        }
    }
    true
}

fn same_news(one: &[(Ty, Value)], other: &[(Ty, Value)]) -> bool
    ensures { IsTrue result ↔ (one.now ≡ other.now) }
{
    if one.len() != other.len() {
        return false;
    }
    for i in 0..one.len() {
        if !same_new(one[i], other[i]) {
            return false;
        }
    }
    true
}

fn same_value(one: Value, other: Value) -> bool
    ensures { IsTrue result ↔ (one ≡ other) }
{
    one == other
}

fn same_fault(one: Fault, other: Fault) -> bool
    ensures { IsTrue result ↔ (one ≡ other) }
{
    one == other
}

impl Verdict {
    /// Whether two verdicts are equal: in how they end, in their result or fault, and in each write and new variable.
    pub fn same(&self, other: &Verdict) -> bool
        ensures { IsTrue result ↔ (self.now ≡ other.now) }
    {
        match (self, other) {
            (
                Verdict::Commits {
                    writes,
                    news,
                    result,
                },
                Verdict::Commits {
                    writes: other_writes,
                    news: other_news,
                    result: other_result,
                },
            ) => {
                let wrote = same_writes(writes.as_slice(), other_writes.as_slice());
                let made = same_news(news.as_slice(), other_news.as_slice());
                let gave = same_value(*result, *other_result);
                wrote && made && gave
            }
            (Verdict::Throws(fault), Verdict::Throws(other_fault)) => {
                same_fault(*fault, *other_fault)
            }
            (Verdict::Blocks, Verdict::Blocks) => true,
            _ => false,
        }
    }
}
