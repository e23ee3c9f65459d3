//! The files of the machine.
use super::draft::DiskDraft;
use super::identity::lead_to_one;
use cps_tool::Sources;
use cps_words::Targets;
use std::fs::File;
use std::io::ErrorKind;
use std::{fs, io};

/// The files of the machine, by their paths.
#[derive(Clone, Copy)]
pub struct Disk<'a> {
    pub rt: &'a HostRuntime,
}

impl<'a> Sources for Disk<'a> {
    ghost use Rattle.std.specs.Prelude.{None};

    type Reader = File;

    // What a file of the machine has isn't known.
    ghost holds = { λ disk name. None };

    fn open(&self, name: &str) -> io::Result<File> {
        if fs::metadata(self.rt, name)?.is_dir() {
            return Err(io::Error::from(ErrorKind::IsADirectory));
        }
        File::open(self.rt, name)
    }
}

impl<'a> Targets for Disk<'a> {
    ghost use Rattle.std.specs.Prelude.{None};

    type Draft = DiskDraft<'a>;

    // Nor is it known which files were placed, which drafts stand, and where names lead.
    ghost placed = { λ disk. None };

    ghost waiting = { λ disk. None };

    ghost same = { λ disk one other. None };

    fn is_same(&self, one: &str, other: &str) -> bool {
        lead_to_one(self.rt, one, other)
    }

    fn create(&mut self, name: &str) -> io::Result<DiskDraft<'a>> {
        DiskDraft::new(self.rt, name)
    }

    fn place(&mut self, _name: &str, draft: DiskDraft<'a>) -> io::Result<()> {
        draft.place(self.rt)
    }

    fn discard(&mut self, _name: &str, draft: DiskDraft<'a>) {
        draft.discard(self.rt);
    }
}
