//! Why a file of the database's folder isn't opened.

ghost use Rattle.std.specs.Prelude.{◌≡◌};

use super::RealFile;
use crate::obstacle::Obstacle;
use crate::purpose::Purpose;
use rpm_outside::Failed;
use std::io::ErrorKind;

/// Whether a call failed since this user, or a file system that is read alone, doesn't allow it.
fn is_forbidden(kind: ErrorKind) -> bool {
    matches!(
        kind,
        ErrorKind::PermissionDenied | ErrorKind::ReadOnlyFilesystem
    )
}

impl RealFile {
    /// What stood in the way of its opening, where that is known.
    pub fn obstacle(&self) -> Option<Obstacle> {
        self.obstacle
    }

    /// Refuses the file, and notes why.
    pub(super) fn refuse(&mut self, obstacle: Obstacle) -> Result<(), Failed>
        ensures { self.new.read ≡ self.old.read }
    {
        self.obstacle = Some(obstacle);
        Err(Failed)
    }

    /// Refuses a file that isn't read, and notes why, where the kind of the error says so.
    pub(super) fn refuse_reading(&mut self, kind: ErrorKind) -> Result<(), Failed>
        ensures { self.new.read ≡ self.old.read }
    {
        if is_forbidden(kind) {
            return self.refuse(Obstacle::NoRightToRead(self.name));
        }
        Err(Failed)
    }

    /// Refuses a file that isn't written, and notes why, where the kind of the error says so.
    pub(super) fn refuse_writing(&mut self, kind: ErrorKind) -> Result<(), Failed>
        ensures { self.new.read ≡ self.old.read }
    {
        if !is_forbidden(kind) {
            return Err(Failed);
        }
        match self.purpose {
            Purpose::Change => self.refuse(Obstacle::NoRightToWrite(self.name)),
            Purpose::Plain | Purpose::Keyed => self.refuse(Obstacle::NoRightToPrepare(self.name)),
        }
    }
}
