//! `Lane`, a program that is run in several copies, and the arguments of its children.
ghost use Rattle.std.specs.Prelude.{◌≡◌, ◌≤◌, ◌++◌, map, IfOk, OnOk};
ghost use Rattle.cli_words.specs.Names.{texts};
ghost use Rattle.lane.specs.child_processes.Spawners.{words_of};

use crate::lane_options::LaneOptions;
use itoa::Buffer;
use std::alloc::{AllocError, Global};

/// A program that is run in several copies, each with this manifest and this stimulus.
#[derive(Clone, Copy)]
pub struct Lane<'a> {
    pub program: &'a str,
    /// 2 to 8.
    pub copies: u32,
    pub manifest: &'a str,
    pub stimulus: &'a str,
    pub options: LaneOptions<'a>,
    ghost some: { 2 ≤ copies },
    ghost few: { copies ≤ 8 },
}

fn copy_words(alloc: Global, texts: &[&str]) -> Result<Vec<String>, AllocError>
    ensures { IfOk result (λ words. words_of words.items ≡ map (λ text. text.now) texts.now) }
{
    let mut words = Vec::with_capacity(alloc, texts.len())?;
    'texts: for text in texts {
        words.push(String::from_str(alloc, text)?)?;
    }
    Ok(words)
}

fn push_words(alloc: Global, extra: &[String], words: &mut Vec<String>) -> Result<(), AllocError>
    ensures { OnOk result
        (words_of words.new.items ≡ words_of words.old.items ++ texts extra.now) }
{
    'extra: for word in extra {
        words.push(String::from_str(alloc, word.as_str())?)?;
    }
    Ok(())
}

impl<'a> Lane<'a> {
    ghost use Rattle.std.specs.Prelude.{◌≡◌, ◌<◌, IfOk};
    ghost use Rattle.lane.specs.child_processes.Spawners.{words_of};
    ghost use Rattle.lane.specs.Words.{child_words, lane_value};

    /// The arguments with which a child is started: its program, those of `det record`, and those
    /// after `--`. Children are counted from 0, and child k has k + 1 workers. So the copies differ
    /// in what must not change a record.
    pub fn child_words(&self, alloc: Global, child: u32) -> Result<Vec<String>, AllocError>
        requires { child < 8 }
        ensures { IfOk result (λ words. words_of words.items
            ≡ child_words (lane_value self.now) child) }
    {
        let mut buffer = Buffer::new();
        let workers = buffer.format(child + 1);
        let texts = [
            self.program,
            "record",
            self.manifest,
            self.stimulus,
            "--workers",
            workers,
        ];
        let mut words = copy_words(alloc, &texts)?;
        push_words(alloc, self.options.extra, &mut words)?;
        Ok(words)
    }
}
