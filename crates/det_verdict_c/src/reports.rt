//! What was seen of the runs of a record: counters that C keeps, which stand for the audience of
//! `det`.
ghost use Rattle.std.specs.Prelude.{◌≡◌, ◌≢◌, ◌+◌, List, [], ◌∷◌, ◌++◌};
ghost use Rattle.det_values.specs.declared.frames.RunFrame.{RunFrame};
ghost use Rattle.probes.specs.Shipped.{counted, gap_between, greater};
ghost use Rattle.det_verdict_c.specs.Reports.{IsViewOf, HasSeen, number_if, last_of, gap_of};

use c_types::{DetFrame, DetRefusal};

/// What was seen of the Run frames of a record. The counts saturate. `refused_at` is the number of
/// the first refused run, counted from 1, and 0 if there is none. `refusal` is its refusal. The
/// time of the last run, and the greatest step of time, are known if their flags are set.
#[repr(C)]
#[derive(Drop)]
pub struct DetReports {
    pub last_time: u64,
    pub gap: u64,
    pub refusal: DetRefusal,
    pub finished: u32,
    pub refused: u32,
    pub refused_at: u32,
    pub has_last: bool,
    pub has_gap: bool,
}

/// A number, if it is known.
pub(crate) fn number_if(known: bool, number: u64) -> Option<u64>
    ensures { result ≡ number_if known number }
{
    if known { Some(number) } else { None }
}

fn gap_between(before: Option<u64>, time: Option<u64>) -> Option<u64>
    ensures { result ≡ gap_between before time }
{
    time?.checked_sub(before?)
}

fn greater(gap: Option<u64>, other: Option<u64>) -> Option<u64>
    ensures { result ≡ greater gap other }
{
    match (gap, other) {
        (Some(gap), Some(other)) => Some(gap.max(other)),
        (Some(gap), None) => Some(gap),
        (None, other) => other,
    }
}

impl DetReports {
    fn next_gap(&self, time: Option<u64>) -> Option<u64>
        ensures { result ≡ greater (gap_of self.now) (gap_between (last_of self.now) time) }
    {
        let last = number_if(self.has_last, self.last_time);
        let gap = number_if(self.has_gap, self.gap);
        greater(gap, gap_between(last, time))
    }

    fn see_time(&mut self, time: Option<u64>)
        ensures last { last_of self.new ≡ time }
        ensures gap { gap_of self.new
            ≡ greater (gap_of self.old) (gap_between (last_of self.old) time) }
        ensures rest { self.new ≡ record self.old {
          last_time = self.new.last_time;
          gap = self.new.gap;
          has_last = self.new.has_last;
          has_gap = self.new.has_gap;
        } }
    {
        let gap = self.next_gap(time);
        self.has_gap = gap.is_some();
        self.gap = gap.unwrap_or(0);
        self.has_last = time.is_some();
        self.last_time = time.unwrap_or(0);
    }

    fn see_finished(&mut self)
        ensures { self.new ≡ record self.old { finished = counted (self.old.finished + 1) } }
    {
        self.finished = self.finished.saturating_add(1);
    }

    fn see_first_refused(&mut self, refusal: &DetRefusal)
        ensures { self.new ≡ record self.old {
          refused = counted (self.old.refused + 1);
          refused_at = counted (self.old.finished + 1);
          refusal = refusal.now;
        } }
    {
        self.refused = self.refused.saturating_add(1);
        self.refused_at = self.finished.saturating_add(1);
        self.refusal = DetRefusal {
            element: refusal.element,
            code: refusal.code,
            phase: refusal.phase,
            pass: refusal.pass,
        };
    }

    fn see_refused(&mut self)
        ensures { self.new ≡ record self.old { refused = counted (self.old.refused + 1) } }
    {
        self.refused = self.refused.saturating_add(1);
    }
}

/// Begins: no run was seen.
#[unsafe(no_mangle)]
pub extern "C" fn det_reports_new(reports: &mut DetReports)
    ensures { HasSeen reports.new [] }
{
    *reports = DetReports {
        last_time: 0,
        gap: 0,
        refusal: DetRefusal {
            element: 0,
            code: 0,
            phase: 0,
            pass: 0,
        },
        finished: 0,
        refused: 0,
        refused_at: 0,
        has_last: false,
        has_gap: false,
    };
}

/// Sees a frame. Only a Run frame, whose tag is 4, is a run.
#[unsafe(no_mangle)]
pub extern "C" fn det_reports_see(reports: &mut DetReports, frame: &DetFrame)
    ensures run { frame.now.tag ≡ 4 → (runs : List RunFrame) (run : RunFrame)
        → HasSeen reports.old runs → IsViewOf frame.now run
        → HasSeen reports.new (runs ++ run ∷ []) }
    ensures other { frame.now.tag ≢ 4 → reports.new ≡ reports.old }
{
    if frame.tag != 4 {
        return;
    }
    reports.see_time(frame.time.time());
    if !frame.refused {
        reports.see_finished();
    } else if reports.refused_at == 0 {
        reports.see_first_refused(&frame.refusal);
    } else {
        reports.see_refused();
    }
}
