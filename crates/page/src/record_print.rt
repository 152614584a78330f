//! Prints a record, or one cycle of it.
ghost use Rattle.std.specs.Prelude.{◌≡◌, []};
ghost use Rattle.det_io.specs.MemSink.{sink_bytes};
ghost use Rattle.page.specs.Answers.{IsPrinted};

use crate::lent_shelf::LentShelf;
use cmd_records::record_show::{Notation, ShowForm, Shown, show_run};
use det_io::{MemSink, Stopped};
use probes::Audience;
use record_grammar::RecordFault;
use record_reader::item_reader::ItemReader;
use record_text::ShowPart;
use std::alloc::Global;

fn part_of(cycle: u32) -> ShowPart
    ensures { result ≡ Rattle.page.specs.Answers.part_of cycle }
{
    match cycle {
        0 => ShowPart::All,
        _ => ShowPart::Cycle(cycle),
    }
}

/// The part of a record that a number stands for, in lines: 0 for all of it, else that cycle.
pub(crate) fn form_of(cycle: u32) -> ShowForm
    ensures { result ≡ Rattle.page.specs.Answers.form_of cycle }
{
    ShowForm {
        part: part_of(cycle),
        notation: Notation::Lines,
    }
}

/// Prints a part of a record, without reports.
pub(crate) fn print_record(
    alloc: Global,
    bytes: &[u8],
    form: ShowForm,
    sink: &mut MemSink,
) -> Result<Shown, Stopped<RecordFault>>
    requires { sink_bytes sink.old ≡ [] }
    ensures { IsPrinted result form bytes.now (sink_bytes sink.new) }
{
    let mut shelf = LentShelf::with_record(alloc, bytes)?;
    let mut reader = ItemReader::new(alloc, 0);
    let mut nobody = Audience::new(alloc, Vec::new(alloc));
    show_run(alloc, form, &mut reader, &mut shelf, sink, &mut nobody)
}
