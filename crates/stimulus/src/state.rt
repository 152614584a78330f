//! The state of a reader, and the lines that may come in it.
ghost use Rattle.std.specs.Prelude.{◌≡◌};
ghost use Rattle.stimulus.specs.Places.{empty_block};
ghost use Rattle.stimulus.specs.States.{AfterLineIs, Counts};

use crate::parse_line::Line;
use crate::stimulus_item::StimulusItem;
use det_values::{CycleInput, Samples};
use std::alloc::Global;

const MAX_BLOCKS: u32 = 1_000_000;

/// The state of a reader.
#[derive(Drop)]
pub enum State {
    /// Nothing was read.
    First,
    /// Only the first line was read.
    Between,
    /// `blocks` blocks were begun, and the last one isn't complete. `input` is what was read of it.
    Inside { blocks: u32, input: CycleInput },
    /// The line `terminate` was read, and the block before it was returned. `Terminate` is to be
    /// returned next.
    Last,
    /// Everything was returned.
    Ended,
}

/// The result of a line.
#[derive(Drop)]
pub enum AfterLine {
    /// The line completes no item.
    Line(State),
    Item(StimulusItem, State),
    /// The line may not come in this state, which is the one before it.
    Bad(State),
    OutOfMemory(State),
}

/// The same input. If it has no samples yet, it takes the memory of `spare` for them.
fn in_memory_of(input: CycleInput, spare: Samples) -> CycleInput
    ensures { result ≡ input }
{
    if !input.samples.is_empty() {
        return input;
    }
    let mut samples = spare;
    samples.clear();
    CycleInput {
        time: input.time,
        samples,
    }
}

impl State {
    /// The same state. If a block has no samples yet, it takes the memory of `spare` for them.
    pub fn with_memory_of(self, spare: Samples) -> State
        ensures { result ≡ self }
    {
        match self {
            State::Inside { blocks, input } => State::Inside {
                blocks,
                input: in_memory_of(input, spare),
            },
            state => state,
        }
    }
}

fn begin(alloc: Global, blocks: u32, time: Option<u64>) -> State
    ensures { result ≡ State.Inside blocks (empty_block time) }
{
    State::Inside {
        blocks,
        input: CycleInput {
            time,
            samples: Samples::new(alloc),
        },
    }
}

fn take_inside(alloc: Global, blocks: u32, block: CycleInput, line: Line) -> AfterLine
    ensures taken { AfterLineIs result (State.Inside blocks block) line }
    ensures counts { Counts result (State.Inside blocks block) }
{
    match line {
        Line::Stim => AfterLine::Bad(State::Inside {
            blocks,
            input: block,
        }),
        Line::Cycle(time) => {
            if blocks >= MAX_BLOCKS {
                return AfterLine::Bad(State::Inside {
                    blocks,
                    input: block,
                });
            }
            let next = begin(alloc, blocks + 1, time);
            AfterLine::Item(StimulusItem::Cycle(block), next)
        }
        Line::Sample(sample) => {
            let mut input = block;
            if input.samples.is_full() {
                return AfterLine::Bad(State::Inside { blocks, input });
            }
            match input.samples.push(sample) {
                Ok(()) => AfterLine::Line(State::Inside { blocks, input }),
                Err(_) => AfterLine::OutOfMemory(State::Inside { blocks, input }),
            }
        }
        Line::Terminate => AfterLine::Item(StimulusItem::Cycle(block), State::Last),
    }
}

/// The result of a line in a state.
pub fn take_line(alloc: Global, state: State, line: Line) -> AfterLine
    ensures taken { AfterLineIs result state line }
    ensures counts { Counts result state }
{
    match state {
        State::First => match line {
            Line::Stim => AfterLine::Line(State::Between),
            _ => AfterLine::Bad(State::First),
        },
        State::Between => match line {
            Line::Cycle(time) => AfterLine::Line(begin(alloc, 1, time)),
            Line::Terminate => AfterLine::Item(StimulusItem::Terminate, State::Ended),
            _ => AfterLine::Bad(State::Between),
        },
        State::Inside { blocks, input } => take_inside(alloc, blocks, input, line),
        State::Last => AfterLine::Bad(State::Last),
        State::Ended => AfterLine::Bad(State::Ended),
    }
}
