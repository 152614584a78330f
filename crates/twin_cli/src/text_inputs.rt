//! `TextInputs`, which reads the inputs of a stimulus from a text in memory.
ghost use Rattle.std.specs.Prelude.{◌≡◌};
ghost use Rattle.stimulus.specs.slot_reader.StandsFor.{slot_of};

use det_io::{Stopped, TextShelf};
use det_values::{Bytes, CycleInput};
use std::alloc::Global;
use stimulus::StimulusFault;
use stimulus::slot_reader::StimulusReader;

/// A text, and the reader of its stimulus.
#[derive(Drop)]
pub(crate) struct TextInputs {
    shelf: TextShelf,
    reader: StimulusReader,
    ghost one: { slot_of reader ≡ 0 },
}

impl TextInputs {
    ghost use Rattle.std.specs.Prelude.{ℕ, List, []};
    ghost use Rattle.det_values.specs.declared.frames.CycleInput.{CycleInput as Input};
    ghost use Rattle.twin_cli.specs.TextInputs.{IsBehind, Comes};

    /// A source that has given no input of this text yet.
    pub(crate) fn new(alloc: Global, text: Bytes, events: u16) -> TextInputs
        ensures { IsBehind text events result [] }
    {
        TextInputs {
            shelf: TextShelf::new(text),
            reader: StimulusReader::from_slot(alloc, 0, events),
        }
    }

    /// The next input. None at the end of a whole stimulus.
    pub(crate) fn next(&mut self) -> Result<Option<CycleInput>, Stopped<StimulusFault>>
        ensures { (text : List ℕ) (events : ℕ) (given : List Input)
            → IsBehind text events self.old given → Comes text events result self.new given }
    {
        self.reader.next_input(&mut self.shelf)
    }
}
