//! What the end of a file says about it.
ghost use Rattle.std.specs.Prelude.{◌≡◌};
ghost use Rattle.std.specs.Result.{result_err};
ghost use Rattle.rr_directory.specs.Reading.{checkpoint_fault, journal_fault, torn_len};

use crate::fault::FileFault;
use rr_journal::Stop;

/// Whether a node starts from a checkpoint whose reading stopped like this at the byte `at`;
/// `is_whole` says whether as many cells were read as its end states.
pub(crate) fn check_checkpoint(stop: Stop, is_whole: bool, at: u64) -> Result<(), FileFault>
    ensures { result_err result ≡ checkpoint_fault stop is_whole at }
{
    match stop {
        Stop::Damaged(fault) => Err(FileFault::Damaged { at, fault }),
        Stop::Torn => Err(FileFault::Torn),
        Stop::End if is_whole => Ok(()),
        Stop::End => Err(FileFault::NotWhole),
    }
}

/// Whether a node starts from a file of the journal, the last one or not, whose reading stopped
/// like this at the byte `at`.
pub(crate) fn check_journal(stop: Stop, is_last: bool, at: u64) -> Result<(), FileFault>
    ensures { result_err result ≡ journal_fault stop is_last at }
{
    match stop {
        Stop::Damaged(fault) => Err(FileFault::Damaged { at, fault }),
        Stop::Torn if is_last => Ok(()),
        Stop::Torn => Err(FileFault::Torn),
        Stop::End => Ok(()),
    }
}

/// How many bytes of a torn tail a file of `len` bytes has, if reading it stopped at the byte `at`.
pub(crate) fn torn_len(stop: Stop, len: u64, at: u64) -> u64
    ensures { result ≡ torn_len stop len at }
{
    match stop {
        Stop::Torn => len.saturating_sub(at),
        _ => 0,
    }
}
