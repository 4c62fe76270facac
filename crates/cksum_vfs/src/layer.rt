//! The layer, on or off.

ghost use Rattle.std.specs.Prelude.{◌≡◌, ◌∷◌, Some, IfOk, IfErr, vec_len};
ghost use Rattle.std.specs.Option.{option_map};
ghost use Rattle.std.proofs.Props.{props};
ghost use Rattle.vfs_model.specs.Stack.{IsPermitted};
ghost use Rattle.vfs_model.specs.declared.layer.Layer.TheVariants.{Cksum as CksumLayer};
ghost use Rattle.vfs_trait.specs.State.{NoneOpen};
ghost use Rattle.cksum_vfs.specs.Summed.{over, is_main, IsPage};

use crate::database::{Below, read_database, read_other, write_sealed};
use crate::sums::seal;
use std::alloc::Global;
use vfs_model::{Fid, Kind, Level, Name, Owner};
use vfs_trait::{Answer, Control, Vfs, VfsFault, checked_once};

/// Keeps a checksum in the last eight bytes of each page of a database. A layer that is off only hands down.
#[derive(Drop)]
pub struct Cksum<V: Vfs> {
    below: Below<V>,
    page: Option<Vec<u8>>,
    ghost room: { option_map (λ v. vec_len v) page ≡ below.size } by { Prim.hlevel props },
}

impl<V: Vfs> Cksum<V> {
    /// A layer with pages of this size. The page that it takes here is all the room that it ever takes; without memory the
    /// stack is given back.
    pub fn new(alloc: Global, inner: V, page: u32) -> Result<Cksum<V>, V>
        requires page { IsPage page }
        requires closed { NoneOpen (V.state inner) }
        requires permitted { IsPermitted (CksumLayer page ∷ (V.state inner).layers) }
        ensures on { IfOk result (λ layer. over layer.below.size (V.state layer.below.inner) ≡ over (Some page) (V.state inner)) }
        ensures back { IfErr result (λ back. back ≡ inner) }
    {
        checked_once();
        let mut room = Vec::new(alloc);
        match room.resize(page as usize, 0) {
            Ok(()) => Ok(Cksum {
                below: Below {
                    inner,
                    size: Some(page),
                },
                page: Some(room),
            }),
            Err(_) => Err(inner),
        }
    }

    /// A layer that is off.
    pub fn off(inner: V) -> Cksum<V>
        requires closed { NoneOpen (V.state inner) }
        ensures { over result.below.size (V.state result.below.inner) ≡ V.state inner }
    {
        Cksum {
            below: Below { inner, size: None },
            page: None,
        }
    }

    /// The stack below.
    pub fn below(&self) -> &V
        ensures { result.now ≡ self.now.below.inner }
    {
        &self.below.inner
    }
}

impl<V: Vfs> Vfs for Cksum<V> {
    ghost state = { λ c. over c.below.size (V.state c.below.inner) };

    #[tactic(auto, using(crate::proofs::Lifts::steady_over, crate::proofs::Lifts::caused_over, crate::proofs::Lifts::numbers_over, crate::proofs::Lifts::levels_over, crate::proofs::Lifts::open_leaves, crate::proofs::Lifts::open_follows, crate::proofs::Lifts::logs_over, crate::proofs::Lifts::stands_over, crate::proofs::Lifts::free_over, crate::proofs::Lifts::open_lengths_over, crate::proofs::Lifts::broken_over))]
    fn open(&mut self, name: &Name, kind: Kind) -> Result<Fid, VfsFault> {
        self.below.inner.open(name, kind)
    }

    #[tactic(auto, using(crate::proofs::Lifts::steady_over, crate::proofs::Lifts::caused_over, crate::proofs::Lifts::rests_over, crate::proofs::Lifts::files_left_over, crate::proofs::Lifts::no_change_follows, crate::proofs::Lifts::logs_over, crate::proofs::Lifts::stands_over))]
    fn exists(&mut self, name: &Name) -> Result<bool, VfsFault> {
        self.below.inner.exists(name)
    }

    #[tactic(auto, using(crate::proofs::Lifts::steady_over, crate::proofs::Lifts::closes_over, crate::proofs::Lifts::close_leaves, crate::proofs::Lifts::stands_over, crate::proofs::Lifts::close_lengths_over, crate::proofs::Lifts::broken_beside_over))]
    fn close(&mut self, fid: Fid) {
        self.below.inner.close(fid);
    }

    fn read(&mut self, fid: Fid, off: u64, buf: &mut [u8]) -> Result<usize, VfsFault> {
        match &mut self.page {
            Some(page) if is_main(self.below.inner.kind(fid)) => {
                read_database(&mut self.below, page, fid, off, buf)
            }
            _ => read_other(&mut self.below, fid, off, buf),
        }
    }

    fn write(&mut self, fid: Fid, off: u64, bytes: &[u8]) -> Result<(), VfsFault> {
        match &mut self.page {
            Some(page) if is_main(self.below.inner.kind(fid)) => {
                page.copy_from_slice(bytes);
                seal(page);
                write_sealed(&mut self.below, fid, off, bytes, page)
            }
            _ => write_sealed(&mut self.below, fid, off, bytes, bytes),
        }
    }

    #[tactic(auto, using(crate::proofs::Lifts::steady_over, crate::proofs::Lifts::caused_over, crate::proofs::Lifts::rests_but_over, crate::proofs::Lifts::cut_counts_over, crate::proofs::CallLemmas::cut_leaves, crate::proofs::Lifts::cut_follows, crate::proofs::Lifts::logs_over, crate::proofs::Lifts::stands_over, crate::proofs::CallLemmas::may_cut_below))]
    fn cut(&mut self, fid: Fid, len: u64) -> Result<(), VfsFault> {
        self.below.inner.cut(fid, len)
    }

    #[tactic(auto, using(crate::proofs::Lifts::steady_over, crate::proofs::Lifts::caused_over, crate::proofs::Lifts::rests_over, crate::proofs::Lifts::sync_leaves, crate::proofs::CallLemmas::tames_over, crate::proofs::Lifts::sync_follows, crate::proofs::Lifts::logs_over, crate::proofs::Lifts::stands_over))]
    fn sync(&mut self, fid: Fid) -> Result<(), VfsFault> {
        self.below.inner.sync(fid)
    }

    #[tactic(auto, using(crate::proofs::Lifts::steady_over, crate::proofs::Lifts::caused_over, crate::proofs::Lifts::rests_measured_over, crate::proofs::Lifts::measures_over, crate::proofs::CallLemmas::length_of_over, crate::proofs::Lifts::no_looser_leaves, crate::proofs::Lifts::no_change_follows, crate::proofs::Lifts::logs_over, crate::proofs::Lifts::stands_over))]
    fn length(&mut self, fid: Fid) -> Result<u64, VfsFault> {
        self.below.inner.length(fid)
    }

    #[tactic(auto, using(crate::proofs::Lifts::steady_over, crate::proofs::Lifts::caused_over, crate::proofs::Lifts::rests_over, crate::proofs::Lifts::delete_leaves, crate::proofs::Lifts::delete_follows, crate::proofs::Lifts::logs_over, crate::proofs::Lifts::stands_over, crate::proofs::Lifts::free_over))]
    fn delete(&mut self, name: &Name, kind: Kind) -> Result<(), VfsFault> {
        self.below.inner.delete(name, kind)
    }

    #[tactic(auto, using(crate::proofs::Lifts::steady_over, crate::proofs::Lifts::caused_over, crate::proofs::Lifts::rests_over, crate::proofs::Lifts::names_left_over, crate::proofs::Lifts::names_follow, crate::proofs::Lifts::logs_over, crate::proofs::Lifts::stands_over))]
    fn sync_names(&mut self) -> Result<(), VfsFault> {
        self.below.inner.sync_names()
    }

    #[tactic(auto, using(crate::proofs::Lifts::steady_over, crate::proofs::Lifts::opens_over, crate::proofs::Lifts::broken_over, crate::proofs::Lifts::files_left_over, crate::proofs::Lifts::logs_over, crate::proofs::Lifts::stands_over))]
    fn lock(&mut self, fid: Fid, owner: Owner, level: Level) -> Result<(), VfsFault> {
        self.below.inner.lock(fid, owner, level)
    }

    #[tactic(auto, using(crate::proofs::Lifts::steady_over, crate::proofs::Lifts::opens_over, crate::proofs::Lifts::broken_over, crate::proofs::Lifts::files_left_over, crate::proofs::Lifts::logs_over, crate::proofs::Lifts::stands_over))]
    fn unlock(&mut self, fid: Fid, owner: Owner, level: Level) {
        self.below.inner.unlock(fid, owner, level);
    }

    fn kind(&self, fid: Fid) -> Kind {
        self.below.inner.kind(fid)
    }

    fn reserved(&self, fid: Fid) -> bool {
        self.below.inner.reserved(fid)
    }

    #[tactic(auto, using(crate::proofs::Lifts::stands_over))]
    fn view_holds(&self) {
        self.below.inner.view_holds()
    }

    #[tactic(auto, using(crate::proofs::Lifts::steady_over, crate::proofs::Lifts::answers_over, crate::proofs::Lifts::levels_over, crate::proofs::Lifts::opens_over, crate::proofs::Lifts::broken_over, crate::proofs::Lifts::files_left_over, crate::proofs::Lifts::stands_over))]
    fn control(&mut self, control: Control) -> Result<Answer, VfsFault> {
        self.below.inner.control(control)
    }
}

/// Whether a file of this kind is a database.
fn is_main(kind: Kind) -> bool
    ensures { result ≡ is_main kind }
{
    matches!(kind, Kind::Main)
}
