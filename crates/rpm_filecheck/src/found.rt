//! What was found in the packages so far.

ghost use Rattle.std.specs.Prelude.{◌≡◌, OnOk, Some};
ghost use Rattle.rpm_filecheck.specs.Prelude.{no_files, package_of, with_bad, with_header, with_package};
ghost use Rattle.rpm_filecheck.specs.inner.Gathered as model;

use crate::labels::{Labels, label_of};
use crate::owned::Owned;
use crate::paths::add_files;
use rpm_header::View;
use std::alloc::{AllocError, Global};
use std::marker::Model;

/// The owners of all paths, the labels of the packages, and the numbers of those that can't be read.
#[derive(Drop)]
pub struct Found {
    pub owned: Owned,
    pub labels: Labels,
    pub bad: Vec<u32>,
}

impl Model for Found {
    ghost Value = { model.GatheredFiles };

    ghost view = { λ s. record { paths = s.owned; labels = s.labels; bad = s.bad.items } };
}

impl Found {
    pub fn new(alloc: Global) -> Found
        ensures { result ≡ no_files }
    {
        Found {
            owned: Owned::new(alloc),
            labels: Labels::new(alloc),
            bad: Vec::new(alloc),
        }
    }

    /// Puts a number after those that can't be read.
    pub fn add_bad(&mut self, number: u32) -> Result<(), AllocError>
        ensures { OnOk result (self.new ≡ with_bad number self.old) }
    {
        self.bad.push(number)?;
        Ok(())
    }

    fn add_header(&mut self, alloc: Global, number: u32, view: &View<'_>) -> Result<(), AllocError>
        ensures { OnOk result (self.new ≡ with_header number view.now self.old) }
    {
        let label = label_of(alloc, view, number)?;
        self.labels.insert(number, label)?;
        add_files(alloc, &mut self.owned, number, view)
    }

    /// Adds the package that is read from a blob.
    pub fn add_blob(&mut self, alloc: Global, number: u32, blob: &[u8]) -> Result<(), AllocError>
        ensures { OnOk result (self.new ≡ with_package number (package_of (Some blob.now)) self.old) }
    {
        match View::parse(blob) {
            Ok(view) => self.add_header(alloc, number, &view),
            Err(_) => self.add_bad(number),
        }
    }
}
