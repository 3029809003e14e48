//! Requests for memory that are refused one at a time.
use stow_refusing::Plan;

/// How requests are answered where so many come before the refused one, or where that one has come.
pub(crate) fn plan_of(left: Option<u64>) -> Plan {
    match left {
        Some(left) => Plan::RefuseAt(left),
        None => Plan::Grant,
    }
}

/// How many come before the refused one after so many more, unless it has come.
pub(crate) fn left_after(left: Option<u64>, asked: u64) -> Option<u64> {
    match left {
        Some(left) if asked <= left => Some(left - asked),
        _ => None,
    }
}
