//! How many files had which fault.

ghost use Rattle.std.specs.Prelude.{◌≡◌, ◌++◌, OnOk};
ghost use Rattle.ssh_review.specs.FaultCounts.{faults_object, faults_with};

use crate::end::FileFault;
use crate::fields::{push_count_field, push_object};
use std::alloc::{AllocError, Global};

/// How many files had which fault.
#[derive(Clone, Copy, Debug, PartialEq, Eq)]
pub struct FaultCounts {
    /// A7.
    pub too_long: u64,
    /// A9.
    pub unread: u64,
}

impl FaultCounts {
    pub const NONE: FaultCounts = FaultCounts {
        too_long: 0,
        unread: 0,
    };

    /// The same with one more file: a fault of it is counted. A sum stops at 2^64 - 1.
    pub fn with_fault(self, fault: Option<FileFault>) -> FaultCounts
        ensures { result ≡ faults_with self fault }
    {
        match fault {
            None => self,
            Some(FileFault::TooLong) => FaultCounts {
                too_long: self.too_long.saturating_add(1),
                unread: self.unread,
            },
            Some(FileFault::Unread(_)) => FaultCounts {
                too_long: self.too_long,
                unread: self.unread.saturating_add(1),
            },
        }
    }
}

/// Appends an object with a field for each fault that files had.
#[tactic(auto, unfolding(crate::specs::FaultCounts::faults_object))]
pub(crate) fn push_faults_object(
    alloc: Global,
    out: &mut Vec<u8>,
    counts: FaultCounts,
) -> Result<(), AllocError>
    ensures { OnOk result (out.new.items ≡ out.old.items ++ faults_object counts) }
{
    let mut fields = Vec::new(alloc);
    push_count_field(&mut fields, b"A7", counts.too_long)?;
    push_count_field(&mut fields, b"A9", counts.unread)?;
    push_object(out, b"faults_by_code", &fields)?;
    Ok(())
}
