//! How far a record was read. It is a struct of numbers that C keeps, so that a frame which comes
//! in pieces is read once.
ghost use Rattle.std.specs.Prelude.{◌≡◌, ◌≤◌, ◌-◌, List, ℕ, ◌++◌, length};
ghost use Rattle.record_grammar.specs.declared.item.Item.{Item};
ghost use Rattle.record_view.specs.Scans.{IsScan, IsStep, Fits};
ghost use Rattle.record_view.specs.Shows.{Shows};
ghost use Rattle.record_grammar.specs.declared.place.Place.TheVariants as places;
ghost use Rattle.record_view.specs.declared.partial.Partial.TheVariants as partials;
ghost use Rattle.c_types.specs.Places.{place_of};
ghost use Rattle.det_reading_c.specs.Readings.{scan_of, fresh_scan, scan_for, HasScanned};
ghost use Rattle.det_reading_c.specs.Readings.{IsAfter, IsHeaderView, offset_after};
ghost use Rattle.det_reading_c.specs.Faults.{reason_number};

use crate::fault::record_fault;
use c_types::{DetRecord, DetRecordFault, DetTime};
use record_grammar::{Place, Reason};
use record_view::{
    InputView, ItemSpan, Partial, PartialRun, Scan, Step, Stop, place_after, view_item,
};

/// How far an item was read. The part is 1 for elements of Init, 2 for elements of a cycle or its
/// output, and any other number for what comes before these.
#[repr(C)]
#[derive(Drop)]
pub struct DetScan {
    /// How many bytes aren't read again.
    pub read: usize,
    pub samples_at: usize,
    pub outcome_at: usize,
    pub elements_at: usize,
    pub time: DetTime,
    pub samples: u32,
    pub elements: u32,
    /// How many elements are still to be read.
    pub left: u32,
    pub part: u8,
}

/// How far a record was read.
#[repr(C)]
#[derive(Drop)]
pub struct DetReading {
    /// Of the first byte of the item that comes next.
    pub offset: u64,
    pub record: DetRecord,
    pub scan: DetScan,
}

pub(crate) fn no_scan() -> Scan
    ensures { result ≡ fresh_scan }
{
    Scan {
        partial: Partial::Nothing,
        read: 0,
    }
}

/// The view of the header with which these bytes begin.
pub(crate) fn view_header(bytes: &[u8]) -> Result<ItemSpan, Stop>
    ensures { IsHeaderView result bytes.now }
{
    view_item(Place::Header, no_scan(), bytes).answer
}

impl DetScan {
    fn partial(&self) -> Partial
        ensures { result ≡ (scan_of self.now).partial }
    {
        match self.part {
            1 => Partial::Init {
                elements: self.elements,
                left: self.left,
            },
            2 => {
                let input = InputView {
                    time: self.time.time(),
                    samples: self.samples,
                    samples_at: self.samples_at,
                    outcome_at: self.outcome_at,
                };
                Partial::Run(PartialRun {
                    input,
                    elements: self.elements,
                    elements_at: self.elements_at,
                    left: self.left,
                })
            }
            _ => Partial::Nothing,
        }
    }

    /// The struct of a scan.
    pub(crate) fn from_scan(scan: Scan) -> DetScan
        ensures scan { scan_of result ≡ scan }
        ensures read { result.read ≡ scan.read }
    {
        match scan.partial {
            Partial::Nothing => in_part(0, scan.read, 0, 0),
            Partial::Init { elements, left } => in_part(1, scan.read, elements, left),
            Partial::Run(run) => in_run(run, scan.read),
        }
    }
}

fn in_part(part: u8, read: usize, elements: u32, left: u32) -> DetScan
    ensures part { result.part ≡ part }
    ensures read { result.read ≡ read }
    ensures elements { result.elements ≡ elements }
    ensures left { result.left ≡ left }
{
    DetScan {
        read,
        samples_at: 0,
        outcome_at: 0,
        elements_at: 0,
        time: DetTime::from_time(None),
        samples: 0,
        elements,
        left,
        part,
    }
}

fn in_run(run: PartialRun, read: usize) -> DetScan
    ensures scan { scan_of result ≡ record { partial = partials.Run run; read = read } }
    ensures read { result.read ≡ read }
{
    let input = run.input;
    DetScan {
        read,
        samples_at: input.samples_at,
        outcome_at: input.outcome_at,
        elements_at: run.elements_at,
        time: DetTime::from_time(input.time),
        samples: input.samples,
        elements: run.elements,
        left: run.left,
        part: 2,
    }
}

impl DetReading {
    /// A record of which nothing was read.
    pub(crate) fn new() -> DetReading
        ensures offset { result.offset ≡ 0 }
        ensures place { place_of result.record ≡ places.Header }
        ensures scanned { (bytes : List ℕ) → HasScanned result bytes }
    {
        DetReading {
            offset: 0,
            record: DetRecord::from_place(Place::Header),
            scan: DetScan::from_scan(no_scan()),
        }
    }

    /// The scan from which a call with this many bytes goes on.
    fn scan_for(&self, count: usize) -> Scan
        ensures scan { result ≡ scan_for self.now count }
        ensures fits { result.read ≤ count }
    {
        if self.scan.read > count {
            return no_scan();
        }
        Scan {
            partial: self.scan.partial(),
            read: self.scan.read,
        }
    }

    /// Reads on in the item with which these bytes begin.
    pub(crate) fn step(&self, bytes: &[u8]) -> Step
        ensures viewed { HasScanned self.now bytes.now
            → IsStep (place_of self.now.record) result bytes.now }
        ensures fits { Fits result (length bytes.now) }
    {
        view_item(self.record.place(), self.scan_for(bytes.len()), bytes)
    }

    /// Goes on after an item in this place.
    pub(crate) fn pass(&mut self, place: Place, span: ItemSpan)
        requires { place ≡ place_of self.old.record }
        ensures { (item : Item) (bytes : List ℕ) → Shows place span bytes item
            → IsAfter item span.len self.old self.new }
    {
        self.offset = self.offset.saturating_add(span.len as u64);
        self.record = DetRecord::from_place(place_after(place, span.kind));
        self.scan = DetScan::from_scan(no_scan());
    }

    /// Keeps how far an item was read that wants more bytes.
    pub(crate) fn keep(&mut self, scan: Scan)
        ensures scanned { (bytes more : List ℕ)
            → IsScan (place_of self.old.record) scan bytes
            → HasScanned self.new (bytes ++ more) }
        ensures offset { self.new.offset ≡ self.old.offset }
        ensures place { self.new.record ≡ self.old.record }
    {
        self.scan = DetScan::from_scan(scan);
    }

    /// The fault at the byte from which `left` bytes of `count` are left.
    pub(crate) fn fault_at(&self, count: usize, left: usize, reason: Reason) -> DetRecordFault
        requires { left ≤ count }
        ensures { result ≡ record {
          offset = offset_after self.now.offset (count - left);
          reason = reason_number reason;
        } }
    {
        let at = (count - left) as u64;
        record_fault(self.offset.saturating_add(at), reason)
    }
}
