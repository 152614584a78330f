//! The loop of an upgrade: compares a frame with the one that the run gives, and writes the latter.
ghost use Rattle.std.specs.Prelude.{◌≡◌, ◌≤◌, ℕ, List, [], ◌∷◌, length, OnOk, IfErr};
ghost use Rattle.det_io.specs.Sink.{Grew};
ghost use Rattle.det_io.specs.Traffic.{ShelfTraffic, SinkTraffic};
ghost use Rattle.det_io.specs.Traffic.{shelf_run, sink_run, failure_in, failure_of};
ghost use Rattle.record_grammar.specs.declared.item.Item.TheVariants as items;
ghost use Rattle.record_grammar.specs.Spelling.{spelled};
ghost use Rattle.record_reader.specs.Frames.{StandsFor, slot_of};
ghost use Rattle.recorder.specs.run_writer.Recording.{Cuts};
ghost use Rattle.rerun.specs.upgrader.UpgradeStart.{IsBegun, header_of};
ghost use Rattle.rerun.specs.upgrader.UpgradeEnds.{IsUpgraded};
ghost use Rattle.rerun.specs.upgrader.Frames.{unless_last};
ghost use Rattle.rerun.specs.checker.RerunFrames.{input_of};

use crate::checker::{FramePair, FrameRoom};
use crate::upgrader::Original;
use copies::{CheckVerdict, Difference};
use det_io::{Failure, Sink, Slots, Stopped};
use det_values::{Format, Frame, reduce_to_format};
use job::{Job, Pool};
use record_grammar::RecordFault;
use record_view::FrameView;
use recorder::run_writer::Recording;
use std::alloc::AllocError;

/// How far a record was compared, and the memory for the next comparison.
#[derive(Drop)]
struct Upgrade {
    /// The format of the record.
    format: Format,
    /// The number of frames that were compared and agree.
    compared: u32,
    /// How many of these frames are Run frames.
    cycles: u32,
    room: FrameRoom,
}

impl Upgrade {
    ghost use Rattle.std.specs.Prelude.{◌<◌, ◌≤◌, ◌++◌, length, IfOk};
    ghost use Rattle.det_values.specs.Frames.{in_format};
    ghost use Rattle.det_values.specs.declared.frames.CycleInput.{CycleInput as Input};
    ghost use Rattle.det_values.specs.declared.frames.Frame.{Frame as FrameValue};
    ghost use Rattle.record_grammar.specs.Spelling.{spelled_frame};
    ghost use Rattle.record_view.specs.Shows.{IsFrameSpelling};
    ghost use Rattle.copies.specs.FirstDifference.{frame_difference};
    ghost use Rattle.rerun.specs.checker.FramePair.{rerun_frame_in};
    ghost use Rattle.rerun.specs.checker.RerunFrames.{IsEngineAfter, CanCome, IsPlaced, input_of};
    ghost use Rattle.rerun.specs.checker.RerunFrames.{rerun_frame};
    ghost use Rattle.rerun.specs.upgrader.UpgradeStart.{in_format_of};
    ghost use Rattle.rerun.specs.upgrader.Frames.{Counted, GoesOn, Takes};

    /// Encodes the frame that the run gives, for the next write, and compares it with the one that
    /// was read. They are compared as the format of the record keeps them. The frame is encoded
    /// before its draws are taken away, so no frame is copied.
    fn compare<J: Job, P: Pool<J>>(
        &mut self,
        recording: &mut Recording<J>,
        pool: &mut P,
        view: FrameView,
        bytes: &[u8],
    ) -> Result<FramePair, AllocError>
        requires behind { (given : List Input) × IsEngineAfter J.meaning recording.old given }
        requires comes { (read : FrameValue) × IsFrameSpelling view read bytes.now
            × CanCome recording.old.engine.cycles (length recording.old.profile.events) read }
        requires placed { IsPlaced view.place (in_format_of self.old.format
            recording.old.profile) }
        ensures read { IfOk result (λ compared. (read : FrameValue)
            → IsFrameSpelling view read bytes.now → compared.read ≡ read) }
        ensures given { IfOk result (λ compared. (given : List Input) (read : FrameValue)
            → IsEngineAfter J.meaning recording.old given → IsFrameSpelling view read bytes.now
            → rerun_frame_in compared ≡ in_format self.old.format
            (rerun_frame J.meaning recording.old.profile given read)) }
        ensures spelled { OnOk result ((given : List Input) (read : FrameValue)
            → IsEngineAfter J.meaning recording.old given → IsFrameSpelling view read bytes.now
            → recording.new.buffer.items ≡ spelled_frame recording.old.profile.format
            (rerun_frame J.meaning recording.old.profile given read)) }
        ensures behind { OnOk result ((given : List Input) (read : FrameValue)
            → IsEngineAfter J.meaning recording.old given → IsFrameSpelling view read bytes.now
            → IsEngineAfter J.meaning recording.new (given ++ input_of read)) }
        ensures profile { recording.new.profile ≡ recording.old.profile }
        ensures counts { (self.new.format ≡ self.old.format)
            × (self.new.compared ≡ self.old.compared) × (self.new.cycles ≡ self.old.cycles) }
    {
        let mut given = self.room.give(recording, pool, view, bytes)?;
        recording.spell(&given)?;
        reduce_to_format(self.format, &mut given);
        self.room.compare(view, bytes, given)
    }

    /// Counts a frame that agrees.
    fn count(&mut self, read: &Frame)
        requires few { self.old.compared < 4294967295 }
        requires cycles { self.old.cycles ≤ self.old.compared }
        ensures counted { Counted read.now self.old self.new }
        ensures format { self.new.format ≡ self.old.format }
    {
        self.compared += 1;
        self.cycles += upgraded_cycles(read);
    }

    /// Compares a frame that was read with the one that the run gives. If they agree, the latter is
    /// written, except Terminate. If they differ, the difference is returned and nothing is
    /// written.
    fn take<J: Job, P: Pool<J>, K: Sink>(
        &mut self,
        recording: &mut Recording<J>,
        pool: &mut P,
        view: FrameView,
        bytes: &[u8],
        sink: &mut K,
    ) -> Result<Option<Difference>, Failure>
        requires behind { (given : List Input) × IsEngineAfter J.meaning recording.old given }
        requires comes { (read : FrameValue) × IsFrameSpelling view read bytes.now
            × CanCome recording.old.engine.cycles (length recording.old.profile.events) read }
        requires placed { IsPlaced view.place (in_format_of self.old.format
            recording.old.profile) }
        requires few { self.old.compared < 4294967295 }
        requires cycles { self.old.cycles ≤ self.old.compared }
        ensures takes { (given : List Input) (read : FrameValue)
            → IsEngineAfter J.meaning recording.old given → IsFrameSpelling view read bytes.now
            → Takes result (frame_difference self.old.compared read (in_format self.old.format
            (rerun_frame J.meaning recording.old.profile given read)))
            (unless_last read (spelled_frame recording.old.profile.format
            (rerun_frame J.meaning recording.old.profile given read)))
            (GoesOn J.meaning given read recording.new self.old self.new)
            (sink_run K.took K.faults sink.old sink.new) }
        ensures format { self.new.format ≡ self.old.format }
        ensures profile { recording.new.profile ≡ recording.old.profile }
        ensures traffic { SinkTraffic (sink_run K.took K.faults sink.old sink.new)
            (failure_of result) }
    {
        let compared = self.compare(recording, pool, view, bytes)?;
        if let Some(at) = compared.difference(self.compared) {
            return Ok(Some(at));
        }
        let FramePair { read, .. } = compared;
        self.count(&read);
        write_upgraded_frame(recording, &read, sink)?;
        self.room.take_back(recording, read);
        Ok(None)
    }
}

/// 1 for a Run frame, else 0.
fn upgraded_cycles(frame: &Frame) -> u32
    ensures cycles { result ≡ length (input_of frame.now) }
    ensures most { result ≤ 1 }
{
    match frame {
        Frame::Run(_) => 1,
        Frame::Register | Frame::Discover | Frame::Init(_) | Frame::Terminate => 0,
    }
}

/// Writes the buffer of the recording, which holds this frame, unless the frame is Terminate.
/// Terminate is written only once the record was read to its end.
fn write_upgraded_frame<J: Job, K: Sink>(
    recording: &mut Recording<J>,
    frame: &Frame,
    sink: &mut K,
) -> Result<(), Failure>
    ensures took { OnOk result (Grew (K.took sink.old) (K.took sink.new)
        (unless_last frame.now recording.old.buffer.items)) }
    ensures cut { IfErr result (λ failure. Cuts failure (K.took sink.old) (K.took sink.new)
        (unless_last frame.now recording.old.buffer.items)) }
    ensures engine { recording.new.engine ≡ recording.old.engine }
    ensures profile { recording.new.profile ≡ recording.old.profile }
    ensures traffic { SinkTraffic (sink_run K.took K.faults sink.old sink.new)
        (failure_of result) }
{
    match frame {
        Frame::Terminate => Ok(()),
        Frame::Register | Frame::Discover | Frame::Init(_) | Frame::Run(_) => {
            recording.write(sink)
        }
    }
}

/// Writes the header of a run.
fn write_upgraded_header<J: Job, K: Sink>(
    recording: &mut Recording<J>,
    sink: &mut K,
) -> Result<(), Failure>
    ensures took { OnOk result (Grew (K.took sink.old) (K.took sink.new)
        (spelled recording.old.profile [])) }
    ensures cut { IfErr result (λ failure. Cuts failure (K.took sink.old) (K.took sink.new)
        (spelled recording.old.profile [])) }
    ensures engine { recording.new.engine ≡ recording.old.engine }
    ensures profile { recording.new.profile ≡ recording.old.profile }
    ensures traffic { SinkTraffic (sink_run K.took K.faults sink.old sink.new)
        (failure_of result) }
{
    recording.spell_header()?;
    recording.write(sink)
}

/// Runs a job on a pool over the inputs of a record's runs, and writes the record of that run in
/// format 2: the header, then each frame of the record that is what the inputs give. The two are
/// compared as the record's format keeps them, so draws are compared only if it is format 2. At the
/// first difference the upgrade ends: nothing is written in its place, and nothing more is read.
/// Only the header was read before the call.
///
/// Terminate is written once the record was read to its end and is whole. `Refused` has the
/// record's fault if there is no difference before it. After an error neither the recording nor the
/// original may be used.
pub fn upgrade_run<J: Job, P: Pool<J>, S: Slots, K: Sink>(
    recording: &mut Recording<J>,
    pool: &mut P,
    original: &mut Original,
    shelf: &mut S,
    sink: &mut K,
) -> Result<CheckVerdict, Stopped<RecordFault>>
    requires { IsBegun J.meaning recording.old original.old (S.sees shelf.old) }
    // For the bytes that were read before the call.
    ensures upgraded { (read : List ℕ)
        → StandsFor original.old.frames read
        (items.Header (header_of original.old recording.old.profile) ∷ [])
        → IsUpgraded J.meaning (header_of original.old recording.old.profile) read
        (slot_of original.old.frames) (shelf_run S.sees S.stays shelf.old shelf.new)
        (sink_run K.took K.faults sink.old sink.new) result }
    ensures shelf_traffic { ShelfTraffic (shelf_run S.sees S.stays shelf.old shelf.new)
        (failure_in result) }
    ensures sink_traffic { SinkTraffic (sink_run K.took K.faults sink.old sink.new)
        (failure_in result) }
{
    write_upgraded_header(recording, sink)?;
    let mut upgrade = Upgrade {
        format: original.format,
        compared: 0,
        cycles: 0,
        room: FrameRoom::new(recording.alloc()),
    };
    'reading: loop {
        let Some(view) = original.frames.next(shelf)? else {
            recording.close(sink)?;
            return Ok(CheckVerdict::Genuine {
                cycles: upgrade.cycles,
            });
        };
        let bytes = original.frames.bytes(view);
        if let Some(at) = upgrade.take(recording, pool, view, bytes, sink)? {
            return Ok(CheckVerdict::Departs(at));
        }
    }
}
