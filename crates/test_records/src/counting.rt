//! A disk of whose files nothing is told, and which keeps none: it counts its syncs where others see it.

use crate::watching::Marks;
use asl_term::copying::copy_text;
use asl_term::syntax::Text;
use mas_record_disk::disk::{Disk, DiskFail, Picked};
use std::sync::atomic::Ordering;

/// A disk that never fails.
#[derive(Drop)]
pub struct Counting<'a> {
    pub name: Option<Text>,
    pub marks: &'a Marks,
}

impl<'a> Disk for Counting<'a> {
    ghost use Rattle.test_records.specs.Untold as spec;

    ghost state = { λ d. spec.untold d.name };

    ghost counts_now = { λ d t name c le now. now };

    ghost only_now = { λ d name c left. left };

    ghost reads_now = { λ d name told. spec.not_told told };

    fn pick(&mut self, name: &Text, _make: bool) -> Result<Picked, DiskFail> {
        self.name = Some(copy_text(name.alloc(), name)?);
        Ok(Picked::Ready)
    }

    fn len(&mut self) -> Result<u64, DiskFail> {
        Ok(0)
    }

    fn read_at(&mut self, _at: u64, _out: &mut [u8]) -> Result<(), DiskFail> {
        Ok(())
    }

    fn write_at(&mut self, _at: u64, _bytes: &[u8]) -> Result<(), DiskFail> {
        Ok(())
    }

    fn cut(&mut self, _len: u64) -> Result<(), DiskFail> {
        Ok(())
    }

    fn sync(&mut self) -> Result<(), DiskFail> {
        self.marks.syncs.fetch_add(1, Ordering::SeqCst);
        Ok(())
    }
}
