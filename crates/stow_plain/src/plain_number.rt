//! The numbers of a plain store.
ghost use Rattle.std.specs.Prelude.{◌≡◌, ◌+◌, ◌≤◌, Some, None, if◌then◌else◌, nat_lt};
ghost use Rattle.stow_bytes.specs.Limits.{number_limit};
ghost use Rattle.stow_model.specs.Store as store;

use std::marker::Model;
use stow_bytes::limits::NUMBER_LIMIT;

/// A write number, a count or a quota: at most 9,223,372,036,854,775,807.
#[derive(Clone, Copy)]
pub struct PlainNumber {
    value: u64,
}

impl Model for PlainNumber {
    ghost use Rattle.std.specs.Prelude.{ℕ, ◌≤◌};
    ghost use Rattle.stow_bytes.specs.Limits.{number_limit};

    ghost Value = { ℕ };

    ghost view = { λ n. n.value };

    ghost invariant = { λ n. n.value ≤ number_limit };

    ghost inverse = { λ n. record { value = n } };
}

impl PlainNumber {
    /// This number.
    pub fn new(value: u64) -> PlainNumber
        requires { value ≤ number_limit }
        ensures { result ≡ value }
    {
        PlainNumber { value }
    }

    /// The number, in 64 bits.
    pub fn get(self) -> u64
        ensures value { result ≡ self }
        ensures within { result ≤ number_limit }
    {
        self.value
    }

    /// The next number, if there is one.
    pub fn next(self) -> Option<PlainNumber>
        ensures { result ≡ (if nat_lt self number_limit then Some (self + 1) else None) }
    {
        if self.value < NUMBER_LIMIT {
            Some(PlainNumber {
                value: self.value + 1,
            })
        } else {
            None
        }
    }

    /// A count, one higher, up to its limit.
    pub fn one_more(self) -> PlainNumber
        ensures { result ≡ store.one_more self }
    {
        match self.next() {
            Some(next) => next,
            None => self,
        }
    }
}
