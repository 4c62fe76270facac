//! The layer, on or off.

ghost use Rattle.std.specs.Prelude.{◌≡◌, ℕ, ◌≤◌, ◌∷◌, Some, None, IfOk, IfErr};
ghost use Rattle.vfs_model.specs.Stack.{IsPermitted};
ghost use Rattle.vfs_model.specs.declared.layer.Layer.TheVariants.{Trace as TraceLayer};
ghost use Rattle.vfs_trait.specs.State.{NoneOpen};
ghost use Rattle.trace_vfs.specs.Traced.{fresh, traced, is_own, handed_down};

use crate::outcomes::{counted, done, known, measured, opened};
use crate::recorder::{Recorder, note, taken};
use std::alloc::Global;
use vfs_model::{Fid, Kind, Level, Name, Owner};
use vfs_trait::{Answer, Call, Control, Outcome, Vfs, VfsFault};

/// Hands every call down, and keeps the last ones with what they were answered. A layer that is off only hands down.
#[derive(Drop)]
pub struct Trace<V: Vfs> {
    inner: V,
    kept: Option<Recorder>,
}

impl<V: Vfs> Trace<V> {
    /// A layer that keeps this many calls, from 1 to 65,536. All the room that it ever takes is taken here; without
    /// memory the stack is given back.
    pub fn new(alloc: Global, inner: V, entries: u32) -> Result<Trace<V>, V>
        requires entries { (1 ≤ entries) × (entries ≤ 65536) }
        requires closed { NoneOpen (V.state inner) }
        requires permitted { IsPermitted (TraceLayer ∷ (V.state inner).layers) }
        ensures on { IfOk result (λ layer. traced layer.kept (V.state layer.inner) ≡ traced (Some (fresh entries)) (V.state inner)) }
        ensures back { IfErr result (λ back. back ≡ inner) }
    {
        match Recorder::new(alloc, entries as usize) {
            Ok(recorder) => Ok(Trace {
                inner,
                kept: Some(recorder),
            }),
            Err(_) => Err(inner),
        }
    }

    /// A layer that is off.
    pub fn off(inner: V) -> Trace<V>
        requires closed { NoneOpen (V.state inner) }
        ensures { traced result.kept (V.state result.inner) ≡ V.state inner }
    {
        Trace { inner, kept: None }
    }

    /// The stack below.
    pub fn below(&self) -> &V
        ensures { result.now ≡ self.now.inner }
    {
        &self.inner
    }
}

impl<V: Vfs> Vfs for Trace<V> {
    ghost state = { λ t. traced t.kept (V.state t.inner) };

    #[tactic(auto, using(crate::proofs::Lifts::steady_over, crate::proofs::Lifts::caused_over, crate::proofs::Lifts::numbers_over, crate::proofs::Lifts::levels_over, crate::proofs::Lifts::leaves_over, crate::proofs::Lifts::open_follows, crate::proofs::Lifts::logs_over, crate::proofs::Lifts::stands_over, crate::proofs::Lifts::free_over, crate::proofs::Lifts::open_lengths_over, crate::proofs::Lifts::broken_over))]
    fn open(&mut self, name: &Name, kind: Kind) -> Result<Fid, VfsFault> {
        let answer = self.inner.open(name, kind);
        note(
            &mut self.kept,
            Call::Open { name: *name, kind },
            opened(&answer),
        );
        answer
    }

    #[tactic(auto, using(crate::proofs::Lifts::steady_over, crate::proofs::Lifts::caused_over, crate::proofs::Lifts::rests_over, crate::proofs::Lifts::no_change_follows, crate::proofs::Lifts::logs_over, crate::proofs::Lifts::stands_over))]
    fn exists(&mut self, name: &Name) -> Result<bool, VfsFault> {
        let answer = self.inner.exists(name);
        note(&mut self.kept, Call::Exists { name: *name }, known(&answer));
        answer
    }

    #[tactic(auto, using(crate::proofs::Lifts::steady_over, crate::proofs::Lifts::closes_over, crate::proofs::Lifts::leaves_over, crate::proofs::Lifts::stands_over, crate::proofs::Lifts::close_lengths_over, crate::proofs::Lifts::broken_beside_over))]
    fn close(&mut self, fid: Fid) {
        self.inner.close(fid);
    }

    #[tactic(auto, using(crate::proofs::Lifts::steady_over, crate::proofs::Lifts::read_caused_over, crate::proofs::Lifts::rests_over, crate::proofs::Lifts::no_change_follows, crate::proofs::Lifts::logs_over, crate::proofs::Lifts::stands_over))]
    fn read(&mut self, fid: Fid, off: u64, buf: &mut [u8]) -> Result<usize, VfsFault> {
        let len = buf.len() as u64;
        let answer = self.inner.read(fid, off, buf);
        note(
            &mut self.kept,
            Call::Read { fid, off, len },
            counted(&answer),
        );
        answer
    }

    #[tactic(auto, using(crate::proofs::Lifts::steady_over, crate::proofs::Lifts::write_caused_over, crate::proofs::Lifts::rests_but_over, crate::proofs::Lifts::write_counts_over, crate::proofs::Lifts::leaves_over, crate::proofs::Lifts::write_follows, crate::proofs::Lifts::logs_over, crate::proofs::Lifts::stands_over, crate::proofs::Lifts::checked_below))]
    fn write(&mut self, fid: Fid, off: u64, bytes: &[u8]) -> Result<(), VfsFault> {
        let len = bytes.len() as u64;
        let answer = self.inner.write(fid, off, bytes);
        note(&mut self.kept, Call::Write { fid, off, len }, done(&answer));
        answer
    }

    #[tactic(auto, using(crate::proofs::Lifts::steady_over, crate::proofs::Lifts::caused_over, crate::proofs::Lifts::rests_but_over, crate::proofs::Lifts::cut_counts_over, crate::proofs::Lifts::leaves_over, crate::proofs::Lifts::cut_follows, crate::proofs::Lifts::logs_over, crate::proofs::Lifts::stands_over, crate::proofs::Lifts::checked_below))]
    fn cut(&mut self, fid: Fid, len: u64) -> Result<(), VfsFault> {
        let answer = self.inner.cut(fid, len);
        note(&mut self.kept, Call::Cut { fid, len }, done(&answer));
        answer
    }

    #[tactic(auto, using(crate::proofs::Lifts::steady_over, crate::proofs::Lifts::caused_over, crate::proofs::Lifts::rests_over, crate::proofs::Lifts::leaves_over, crate::proofs::Lifts::tames_over, crate::proofs::Lifts::sync_follows, crate::proofs::Lifts::logs_over, crate::proofs::Lifts::stands_over))]
    fn sync(&mut self, fid: Fid) -> Result<(), VfsFault> {
        let answer = self.inner.sync(fid);
        note(&mut self.kept, Call::Sync { fid }, done(&answer));
        answer
    }

    #[tactic(auto, using(crate::proofs::Lifts::steady_over, crate::proofs::Lifts::caused_over, crate::proofs::Lifts::leaves_over, crate::proofs::Lifts::no_change_follows, crate::proofs::Lifts::logs_over, crate::proofs::Lifts::stands_over, crate::proofs::Lifts::rests_measured_over, crate::proofs::Lifts::measures_over))]
    fn length(&mut self, fid: Fid) -> Result<u64, VfsFault> {
        let answer = self.inner.length(fid);
        note(&mut self.kept, Call::Length { fid }, measured(&answer));
        answer
    }

    #[tactic(auto, using(crate::proofs::Lifts::steady_over, crate::proofs::Lifts::caused_over, crate::proofs::Lifts::rests_over, crate::proofs::Lifts::leaves_over, crate::proofs::Lifts::delete_follows, crate::proofs::Lifts::logs_over, crate::proofs::Lifts::stands_over, crate::proofs::Lifts::free_over))]
    fn delete(&mut self, name: &Name, kind: Kind) -> Result<(), VfsFault> {
        let answer = self.inner.delete(name, kind);
        note(
            &mut self.kept,
            Call::Delete { name: *name, kind },
            done(&answer),
        );
        answer
    }

    #[tactic(auto, using(crate::proofs::Lifts::steady_over, crate::proofs::Lifts::caused_over, crate::proofs::Lifts::rests_over, crate::proofs::Lifts::names_left_over, crate::proofs::Lifts::names_follow, crate::proofs::Lifts::logs_over, crate::proofs::Lifts::stands_over))]
    fn sync_names(&mut self) -> Result<(), VfsFault> {
        let answer = self.inner.sync_names();
        note(&mut self.kept, Call::SyncNames, done(&answer));
        answer
    }

    #[tactic(auto, using(crate::proofs::Lifts::steady_over, crate::proofs::Lifts::opens_over, crate::proofs::Lifts::logs_over, crate::proofs::Lifts::stands_over, crate::proofs::Lifts::broken_over))]
    fn lock(&mut self, fid: Fid, owner: Owner, level: Level) -> Result<(), VfsFault> {
        let answer = self.inner.lock(fid, owner, level);
        note(
            &mut self.kept,
            Call::Lock { fid, owner, level },
            done(&answer),
        );
        answer
    }

    #[tactic(auto, using(crate::proofs::Lifts::steady_over, crate::proofs::Lifts::opens_over, crate::proofs::Lifts::logs_over, crate::proofs::Lifts::stands_over, crate::proofs::Lifts::broken_over))]
    fn unlock(&mut self, fid: Fid, owner: Owner, level: Level) {
        self.inner.unlock(fid, owner, level);
        note(
            &mut self.kept,
            Call::Unlock { fid, owner, level },
            Outcome::Ok,
        );
    }

    fn kind(&self, fid: Fid) -> Kind {
        self.inner.kind(fid)
    }

    fn reserved(&self, fid: Fid) -> bool {
        self.inner.reserved(fid)
    }

    #[tactic(auto, using(crate::proofs::Lifts::stands_over))]
    fn view_holds(&self) {
        self.inner.view_holds()
    }

    #[tactic(auto, using(crate::proofs::Lifts::steady_over, crate::proofs::Lifts::levels_over, crate::proofs::Lifts::opens_over, crate::proofs::Lifts::stands_over, crate::proofs::Lifts::answers_off, crate::proofs::Lifts::answers_own, crate::proofs::Lifts::answers_down, crate::proofs::Lifts::broken_over))]
    fn control(&mut self, control: Control) -> Result<Answer, VfsFault> {
        match &mut self.kept {
            None => self.inner.control(control),
            Some(recorder) if is_own(control) => {
                self.inner.view_holds();
                taken(recorder)
            }
            Some(_) => self.inner.control(handed_down(control)),
        }
    }
}

/// Whether a layer that is on answers a control by itself.
fn is_own(control: Control) -> bool
    ensures { result ≡ is_own control }
{
    matches!(control, Control::TakeTrace { layer: 1 })
}

/// What the layers below are asked: trace layers are counted from there, and the number 0 stays.
fn handed_down(control: Control) -> Control
    ensures { result ≡ handed_down control }
{
    match control {
        Control::TakeTrace { layer } => Control::TakeTrace {
            layer: layer.saturating_sub(1),
        },
        other => other,
    }
}
