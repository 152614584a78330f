//! `Recording`: a run, and the record that is written of it call by call.
ghost use Rattle.std.specs.Prelude.{◌≡◌};

use crate::run_writer::counts::Counts;
use crate::run_writer::frame_parts::{count_blocks, write_parts};
use crate::run_writer::run_frames::{long_run, refusals};
use cycle_engine::{Desk, Engine};
use det_io::{Failure, Sink, write_all};
use det_values::{CycleInput, DrawnElements, Frame, Profile, RunFrame};
use job::{Job, Pool};
use record_codec::{encode_frame, encode_header, encode_init_head, encode_run, encode_run_ends};
use std::alloc::{AllocError, Global};

/// An engine, the profile of its run, and the counts of the record that was written so far.
#[derive(Drop)]
pub struct Recording<J: Job> {
    alloc: Global,
    engine: Engine<J>,
    desk: Desk<J>,
    profile: Profile,
    /// The bytes that `write` writes.
    buffer: Vec<u8>,
    counts: Counts,
}

impl<J: Job> Recording<J> {
    ghost use Rattle.std.specs.Prelude.{◌≡◌, ◌<◌, ◌≤◌, ◌+◌, List, [], ◌∷◌, ◌++◌, map, length};
    ghost use Rattle.std.specs.Prelude.{true, false, OnOk, IfOk, IfErr, take, drop};
    ghost use Rattle.std.specs.List.{All};
    ghost use Rattle.det_values.specs.declared.frames.CycleInput.{CycleInput as Input};
    ghost use Rattle.det_values.specs.Spelling.{spelled_all};
    ghost use Rattle.det_values.specs.declared.format.Format.TheVariants.{Two};
    ghost use Rattle.det_io.specs.Sink.{Grew};
    ghost use Rattle.det_io.specs.Traffic.{SinkTraffic, sink_run, failure_of};
    ghost use Rattle.cycle_engine.specs.Engine.{StandsFor as EngineStands};
    ghost use Rattle.cycle_engine.specs.Frames.{frame_of, state_of, runs};
    ghost use Rattle.record_grammar.specs.Spelling.{CanSpell, spelled, spelled_frame};
    ghost use Rattle.record_codec.specs.FinishedRun.{finished_run};
    ghost use Rattle.recorder.specs.run_writer.Record.{opening, record_with, Counted};
    ghost use Rattle.recorder.specs.run_writer.Recording.{IsNew, IsRecordingAfter, Cuts, Ran};
    ghost use Rattle.recorder.specs.run_writer.Recording.{Keeps, counts_after};

    /// A recording of this engine's run, before anything of it is written. It allocates nothing.
    pub fn new(alloc: Global, engine: Engine<J>, profile: Profile) -> Recording<J>
        requires stands { EngineStands J.meaning profile engine [] }
        requires going { engine.stopped ≡ false }
        ensures new { IsNew J.meaning result }
        ensures profile { result.profile ≡ profile }
        ensures engine { result.engine ≡ engine }
    {
        Recording {
            alloc,
            engine,
            desk: Desk::new(alloc),
            profile,
            buffer: Vec::new(alloc),
            counts: Counts {
                cycles: 0,
                refused: 0,
                bytes: 0,
            },
        }
    }

    /// Writes the header and the frames Register, Discover and Init. After a failure the recording
    /// must not be used.
    pub fn open<K: Sink>(&mut self, sink: &mut K) -> Result<(), Failure>
        requires new { IsNew J.meaning self.old }
        ensures opened { OnOk result (IsRecordingAfter J.meaning self.new []
            × Grew (K.took sink.old) (K.took sink.new) (opening J.meaning self.old.profile)) }
        ensures cut { IfErr result (λ failure. Cuts failure (K.took sink.old) (K.took sink.new)
            (opening J.meaning self.old.profile)) }
        ensures profile { self.new.profile ≡ self.old.profile }
        ensures traffic { SinkTraffic (sink_run K.took K.faults sink.old sink.new)
            (failure_of result) }
    {
        self.encode_opening()?;
        self.write(sink)
    }

    /// Runs the next cycle on a pool, writes its frame and returns it. A refused cycle counts as a
    /// cycle too. After a failure the recording must not be used. At `OutOfMemory` nothing of the
    /// frame was written.
    pub fn cycle<P: Pool<J>, K: Sink>(
        &mut self,
        pool: &mut P,
        input: CycleInput,
        sink: &mut K,
    ) -> Result<RunFrame, Failure>
        requires stands { (given : List Input) × IsRecordingAfter J.meaning self.old given }
        requires few { self.old.engine.cycles < 1000000 }
        requires known { All (λ s. s.event < length self.old.profile.events) input.samples }
        ensures ran { IfOk result (λ run. (given : List Input)
            → IsRecordingAfter J.meaning self.old given
            → Ran J.meaning self.old.profile given input self.new run
            (K.took sink.old) (K.took sink.new)) }
        ensures cut { IfErr result (λ failure. (given : List Input)
            → IsRecordingAfter J.meaning self.old given → Cuts failure (K.took sink.old) (K.took
            sink.new)
            (spelled_frame self.old.profile.format (Frame.Run
            (frame_of J.meaning self.old.profile given
            (state_of J.meaning self.old.profile given) input)))) }
        ensures cycles { OnOk result (self.new.engine.cycles ≡ self.old.engine.cycles + 1) }
        ensures profile { self.new.profile ≡ self.old.profile }
        ensures traffic { SinkTraffic (sink_run K.took K.faults sink.old sink.new)
            (failure_of result) }
    {
        let run = self.run_cycle(pool, input)?;
        self.counts.cycles = self.engine.cycles();
        self.counts.refused += refusals(&run);
        self.write_run(&run, sink)?;
        Ok(run)
    }

    /// Runs the next cycle on a pool and returns its frame, which is neither written nor counted.
    /// After an error the recording must not be used.
    pub fn run_cycle<P: Pool<J>>(
        &mut self,
        pool: &mut P,
        input: CycleInput,
    ) -> Result<RunFrame, AllocError>
        requires stands { (given : List Input)
            × EngineStands J.meaning self.old.profile self.old.engine given }
        requires going { self.old.engine.stopped ≡ false }
        requires few { self.old.engine.cycles < 1000000 }
        requires known { All (λ s. s.event < length self.old.profile.events) input.samples }
        ensures frame { IfOk result (λ run. (given : List Input)
            → EngineStands J.meaning self.old.profile self.old.engine given
            → run ≡ frame_of J.meaning self.old.profile given
            (state_of J.meaning self.old.profile given) input) }
        ensures stands { OnOk result ((given : List Input)
            → EngineStands J.meaning self.old.profile self.old.engine given
            → EngineStands J.meaning self.old.profile self.new.engine (given ++ input ∷ [])) }
        ensures going { OnOk result (self.new.engine.stopped ≡ false) }
        ensures cycles { OnOk result (self.new.engine.cycles ≡ self.old.engine.cycles + 1) }
        ensures spelled { IfOk result (λ run. CanSpell self.old.profile.format
            (length self.old.profile.events) (Frame.Run run)) }
        ensures keeps { self.new ≡ record self.old { engine = self.new.engine } }
    {
        self.engine.cycle(&mut self.desk, pool, input)
    }

    /// Takes back a run that is no longer needed, to use its memory again. The memory of its
    /// outcome stays here. Its input is returned, for the next input to be read into.
    pub fn take_back(&mut self, run: RunFrame) -> CycleInput
        ensures { self.new ≡ self.old }
    {
        self.desk.take_back(run)
    }

    /// The frame Init, with the elements as they are now. It is that of the record only before the
    /// first cycle. Nothing is written.
    pub fn init(&self) -> Result<Frame, AllocError>
        ensures { IfOk result (λ frame. frame ≡ Frame.Init
            (map (J.meaning.shown self.now.engine.job) self.now.engine.state.elements)) }
    {
        Ok(Frame::Init(self.engine.shown(self.alloc)?))
    }

    /// Encodes the header into the buffer, from which `write` writes it.
    pub fn spell_header(&mut self) -> Result<(), AllocError>
        ensures bytes { OnOk result (self.new.buffer.items ≡ spelled self.old.profile []) }
        ensures keeps { Keeps self.old self.new }
    {
        self.buffer.clear();
        encode_header(&self.profile, &mut self.buffer)
    }

    /// Encodes a frame into the buffer, from which `write` writes it.
    pub fn spell(&mut self, frame: &Frame) -> Result<(), AllocError>
        requires { CanSpell self.old.profile.format (length self.old.profile.events) frame.now }
        ensures bytes { OnOk result (self.new.buffer.items
            ≡ spelled_frame self.old.profile.format frame.now) }
        ensures keeps { Keeps self.old self.new }
    {
        self.buffer.clear();
        self.append(frame)
    }

    /// Ends the run, writes Terminate, and returns the counts of the whole record. Afterwards the
    /// recording must not be used.
    pub fn close<K: Sink>(&mut self, sink: &mut K) -> Result<Counts, Failure>
        ensures closed { IfOk result (λ counts. (given : List Input)
            → IsRecordingAfter J.meaning self.old given
            → Counted counts (runs J.meaning self.old.profile given)
            (record_with J.meaning self.old.profile given true)) }
        ensures took { OnOk result (Grew (K.took sink.old) (K.took sink.new)
            (spelled_frame self.old.profile.format Frame.Terminate)) }
        ensures cut { IfErr result (λ failure. Cuts failure (K.took sink.old) (K.took sink.new)
            (spelled_frame self.old.profile.format Frame.Terminate)) }
        ensures profile { self.new.profile ≡ self.old.profile }
        ensures engine { self.new.engine ≡ record self.old.engine { stopped = true } }
        ensures traffic { SinkTraffic (sink_run K.took K.faults sink.old sink.new)
            (failure_of result) }
    {
        self.engine.stop();
        self.spell(&Frame::Terminate)?;
        self.write(sink)?;
        Ok(self.counts)
    }

    /// The counts of the record so far.
    pub fn counts(&self) -> Counts
        ensures { result ≡ self.now.counts }
    {
        self.counts
    }

    /// The number of elements. It is the same in every cycle.
    pub fn elements(&self) -> usize
        ensures count { result ≡ length self.now.engine.state.elements }
        ensures few { result ≤ 65536 }
    {
        self.engine.elements()
    }

    /// The number of events in the profile.
    pub fn events(&self) -> u16
        ensures number { result ≡ length self.now.profile.events }
        ensures most { result ≤ 256 }
    {
        self.profile.events.len() as u16
    }

    /// The allocator of the recording.
    pub fn alloc(&self) -> Global {
        self.alloc
    }

    /// Encodes the header and the frames up to Init into the buffer.
    fn encode_opening(&mut self) -> Result<(), AllocError>
        ensures bytes { OnOk result (self.new.buffer.items ≡ spelled self.old.profile
            (Frame.Register ∷ Frame.Discover
            ∷ Frame.Init (map (J.meaning.shown self.old.engine.job) self.old.engine.state.elements)
            ∷ [])) }
        ensures keeps { Keeps self.old self.new }
    {
        self.spell_header()?;
        self.append(&Frame::Register)?;
        self.append(&Frame::Discover)?;
        self.append_init()
    }

    /// Appends the frame Init, with the elements as they are now, to the buffer. The elements are
    /// encoded without a copy of the list.
    fn append_init(&mut self) -> Result<(), AllocError>
        ensures bytes { OnOk result (self.new.buffer.items ≡ self.old.buffer.items
            ++ spelled_frame self.old.profile.format (Frame.Init
            (map (J.meaning.shown self.old.engine.job) self.old.engine.state.elements))) }
        ensures keeps { Keeps self.old self.new }
    {
        encode_init_head(self.engine.elements() as u32, &mut self.buffer)?;
        self.engine.put_elements(&mut self.buffer)?;
        Ok(())
    }

    /// Appends a frame to the buffer.
    fn append(&mut self, frame: &Frame) -> Result<(), AllocError>
        requires { CanSpell self.old.profile.format (length self.old.profile.events) frame.now }
        ensures bytes { OnOk result (self.new.buffer.items
            ≡ self.old.buffer.items ++ spelled_frame self.old.profile.format frame.now) }
        ensures keeps { Keeps self.old self.new }
    {
        let events = self.profile.events.len() as u16;
        encode_frame(self.profile.format, events, frame, &mut self.buffer)
    }

    /// Encodes the frame of a run into the buffer.
    fn spell_run(&mut self, run: &RunFrame) -> Result<(), AllocError>
        requires { CanSpell self.old.profile.format (length self.old.profile.events)
            (Frame.Run run.now) }
        ensures bytes { OnOk result (self.new.buffer.items
            ≡ spelled_frame self.old.profile.format (Frame.Run run.now)) }
        ensures keeps { Keeps self.old self.new }
    {
        self.buffer.clear();
        let events = self.profile.events.len() as u16;
        encode_run(self.profile.format, events, run, &mut self.buffer)
    }

    /// Writes the frame of a run and counts its bytes.
    fn write_run<K: Sink>(&mut self, run: &RunFrame, sink: &mut K) -> Result<(), Failure>
        requires { CanSpell self.old.profile.format (length self.old.profile.events)
            (Frame.Run run.now) }
        ensures took { OnOk result (Grew (K.took sink.old) (K.took sink.new)
            (spelled_frame self.old.profile.format (Frame.Run run.now))) }
        ensures counts_after { OnOk result (self.new.counts ≡ counts_after self.old.counts
            (spelled_frame self.old.profile.format (Frame.Run run.now))) }
        ensures engine { self.new.engine ≡ self.old.engine }
        ensures profile { self.new.profile ≡ self.old.profile }
        ensures cut { IfErr result (λ failure. Cuts failure (K.took sink.old) (K.took sink.new)
            (spelled_frame self.old.profile.format (Frame.Run run.now))) }
        ensures traffic { SinkTraffic (sink_run K.took K.faults sink.old sink.new)
            (failure_of result) }
    {
        if let Some((input, elements, output)) = long_run(self.profile.format, run) {
            return self.write_long_run(input, elements, output, sink);
        }
        self.spell_run(run)?;
        self.write(sink)
    }

    /// Writes the frame of a finished run in format Two and counts its bytes. The blocks of
    /// elements are written from the memory they are in. All memory is allocated before the first
    /// write.
    fn write_long_run<K: Sink>(
        &mut self,
        input: &CycleInput,
        elements: &DrawnElements,
        output: &[u8],
        sink: &mut K,
    ) -> Result<(), Failure>
        requires known { All (λ s. s.event < length self.old.profile.events) input.now.samples }
        requires short { length output.now ≤ 1048576 }
        ensures took { OnOk result (Grew (K.took sink.old) (K.took sink.new)
            (spelled_frame Two (finished_run input.now elements.now output.now))) }
        ensures counts_after { OnOk result (self.new.counts ≡ counts_after self.old.counts
            (spelled_frame Two (finished_run input.now elements.now output.now))) }
        ensures engine { self.new.engine ≡ self.old.engine }
        ensures profile { self.new.profile ≡ self.old.profile }
        ensures cut { IfErr result (λ failure. Cuts failure (K.took sink.old) (K.took sink.new)
            (spelled_frame Two (finished_run input.now elements.now output.now))) }
        ensures traffic { SinkTraffic (sink_run K.took K.faults sink.old sink.new)
            (failure_of result) }
    {
        let at = self.spell_ends(input, elements, output)?;
        let (front, behind) = self.buffer.as_slice().split_at(at);
        write_parts(front, elements.blocks(), behind, sink)?;
        self.count(elements);
        Ok(())
    }

    /// Encodes what comes before and after the elements of a finished run into the buffer. Returns
    /// the offset between the two.
    fn spell_ends(
        &mut self,
        input: &CycleInput,
        elements: &DrawnElements,
        output: &[u8],
    ) -> Result<usize, AllocError>
        requires known { All (λ s. s.event < length self.old.profile.events) input.now.samples }
        requires short { length output.now ≤ 1048576 }
        ensures within { IfOk result (λ at. at ≤ length self.new.buffer.items) }
        ensures around { IfOk result (λ at. take at self.new.buffer.items
            ++ (spelled_all elements.now ++ drop at self.new.buffer.items)
            ≡ spelled_frame Two (finished_run input.now elements.now output.now)) }
        ensures keeps { Keeps self.old self.new }
    {
        self.buffer.clear();
        let events = self.profile.events.len() as u16;
        encode_run_ends(
            events,
            input,
            elements.len() as u32,
            output,
            &mut self.buffer,
        )
    }

    /// Counts the bytes of a frame whose elements aren't in the buffer.
    fn count(&mut self, elements: &DrawnElements)
        ensures counts { self.new.counts ≡ counts_after self.old.counts
            (spelled_all elements.now ++ self.old.buffer.items) }
        ensures engine { self.new.engine ≡ self.old.engine }
        ensures profile { self.new.profile ≡ self.old.profile }
    {
        let bytes = self.counts.bytes.saturating_add(self.buffer.len() as u64);
        self.counts.bytes = count_blocks(elements.blocks(), bytes);
    }

    /// Writes the bytes of the buffer and counts them.
    pub fn write<K: Sink>(&mut self, sink: &mut K) -> Result<(), Failure>
        ensures took { OnOk result
            (Grew (K.took sink.old) (K.took sink.new) self.old.buffer.items) }
        ensures counts_after { OnOk result
            (self.new.counts ≡ counts_after self.old.counts self.old.buffer.items) }
        ensures engine { self.new.engine ≡ self.old.engine }
        ensures profile { self.new.profile ≡ self.old.profile }
        ensures cut { IfErr result (λ failure.
            Cuts failure (K.took sink.old) (K.took sink.new) self.old.buffer.items) }
        ensures traffic { SinkTraffic (sink_run K.took K.faults sink.old sink.new)
            (failure_of result) }
    {
        write_all(sink, &self.buffer)?;
        self.counts.bytes = self.counts.bytes.saturating_add(self.buffer.len() as u64);
        Ok(())
    }
}
