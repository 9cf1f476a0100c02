//! A disk beside how it was at a moment of the past.

ghost use Rattle.std.specs.Prelude.{◌≡◌};
ghost use Rattle.mas_record_disk.specs.PastDisk as spec;

use crate::disk::{Disk, DiskFail, Picked};
use asl_term::syntax::Text;
use std::marker::{Brand, Model, PhantomData};

/// How a disk was at some moment. Each call picks it.
pub trait PastDisk {
    ghost use Rattle.mas_record_disk.specs.Disk.{DiskState};

    ghost past: { DiskState };
}

impl PastDisk for Brand {
    ghost use Rattle.mas_record_disk.specs.PastDisk.{no_past};

    ghost past = { no_past };
}

/// A disk that has come on from how it was then.
#[derive(Drop)]
pub struct Watched<K: PastDisk, D: Disk> {
    disk: D,
    of: PhantomData<K>,
}

impl<K: PastDisk, D: Disk> Model for Watched<K, D> {
    ghost use Rattle.mas_record_disk.specs.PastDisk.{CameFrom};

    ghost Value = { D };

    ghost coded = { D.code };

    ghost view = { λ w. w.disk };

    ghost invariant = { λ w. CameFrom K.past (D.state w.disk) };
}

impl<K: PastDisk, D: Disk> Watched<K, D> {
    /// From now on.
    pub fn new(disk: D) -> Watched<K, D>
        requires { spec.CameFrom K.past (D.state disk) }
        ensures { result ≡ disk }
    {
        Watched {
            disk,
            of: PhantomData,
        }
    }

    /// What holds of it, as a law.
    pub fn holds(&self)
        ensures { spec.CameFrom K.past (D.state self.now) }
    {
        let _ = &self.disk;
    }

    /// The disk alone.
    pub fn release(self) -> D
        ensures { result ≡ self }
    {
        let Watched { disk, of: _ } = self;
        disk
    }
}

/// What a crash may leave now, it may leave since any earlier moment.
fn counts_now<D: Disk>(disk: &D)
    ensures { spec.IsCounted (D.state disk.now) }
{}

impl<K: PastDisk, D: Disk> Disk for Watched<K, D> {
    ghost state = { D.state };

    ghost counts_now = { λ d t name c le now. D.counts_now d t name c le now };

    ghost only_now = { λ d name c left. D.only_now d name c left };

    ghost reads_now = { λ d name told. D.reads_now d name told };

    fn pick(&mut self, name: &Text, make: bool) -> Result<Picked, DiskFail> {
        let picked = self.disk.pick(name, make);
        counts_now(&self.disk);
        picked
    }

    fn len(&mut self) -> Result<u64, DiskFail> {
        let length = self.disk.len();
        counts_now(&self.disk);
        length
    }

    fn read_at(&mut self, at: u64, out: &mut [u8]) -> Result<(), DiskFail> {
        let done = self.disk.read_at(at, out);
        counts_now(&self.disk);
        done
    }

    fn write_at(&mut self, at: u64, bytes: &[u8]) -> Result<(), DiskFail> {
        let done = self.disk.write_at(at, bytes);
        counts_now(&self.disk);
        done
    }

    fn cut(&mut self, len: u64) -> Result<(), DiskFail> {
        let done = self.disk.cut(len);
        counts_now(&self.disk);
        done
    }

    fn sync(&mut self) -> Result<(), DiskFail> {
        let done = self.disk.sync();
        counts_now(&self.disk);
        done
    }
}
