//! A keeper over a file.

ghost use Rattle.std.specs.Prelude.{◌≡◌, codes, IfOk, IsErr, IsTrue};
ghost use Rattle.sqlite.specs.Files.{file_state};
ghost use Rattle.sqlite.specs.State.{HasCleanDisk};
ghost use Rattle.melon_sqlite.specs.Telling.{TellsIn};

use crate::keeper::{SqliteKeeper, keeper_error};
use crate::ours::is_ours;
use melon_outside::KeeperError;
use sqlite::{Connection, Error, ErrorCode, File, FileStore};
use std::fs;

/// The path of the log beside a database file.
fn log_path(rt: &HostRuntime, path: &str) -> Result<String, KeeperError> {
    let mut log = String::from_str(rt.alloc(), path)?;
    log.push_str("-wal")?;
    Ok(log)
}

/// Removes the log that an opening made which came to nothing.
fn remove_log(rt: &HostRuntime, log: &str, is_new: bool) {
    if is_new {
        let _ = fs::remove_file(rt, log);
    }
}

/// Whether another program has the file open.
fn is_busy(error: &Error) -> bool {
    match error {
        Error::SqliteFailure(ErrorCode::DatabaseBusy) => true,
        _ => false,
    }
}

/// Opens a keeper over the database file at a path, which it makes where there is none. Beside the
/// file lies its log, at the path with `-wal` behind it. A database that has anything but the two
/// tables is refused as it stands. No contract says what a file that is there holds.
pub fn open_file(rt: &HostRuntime, path: &str) -> Result<SqliteKeeper<FileStore<File>>, KeeperError>
    ensures tells { IfOk result (λ k. HasCleanDisk (file_state k.connection) → TellsIn k.fits (file_state k.connection)) }
    ensures fits { IfOk result (λ k. IsTrue k.fits) }
    ensures memory { path.now ≡ codes ":memory:" → IsErr result }
    ensures faults { IfOk result (λ k. k.faults ≡ 0) }
{
    let log = log_path(rt, path)?;
    let is_new = matches!(fs::exists(rt, log.as_str()), Ok(false));
    let connection = match Connection::open(rt, path) {
        Ok(connection) => connection,
        Err(error) => {
            if !is_busy(&error) {
                remove_log(rt, log.as_str(), is_new);
            }
            return Err(keeper_error(&error));
        }
    };
    if !is_ours(connection.schema()) {
        remove_log(rt, log.as_str(), is_new);
        return Err(KeeperError::Failed);
    }
    match SqliteKeeper::open(rt.alloc(), connection) {
        Ok(keeper) => {
            if keeper.fits() {
                Ok(keeper)
            } else {
                Err(KeeperError::Failed)
            }
        }
        Err(error) => Err(error),
    }
}
